// A sheet's linear program with a multiplier for each row.
ghost use Rattle.std.specs.Prelude.{◌≡◌, length};
ghost use Rattle.sheet.specs.Rows.{rows as row_list};
ghost use Rattle.sheet.specs.View.{view};
ghost use Rattle.claim.specs.Parts.{multipliers};
ghost use Rattle.claim.specs.Shares.{Sized, all, weights};

use crate::rows::Rows;
use crate::rows::divide::divide;
use crate::scaled::Denominator;
use sheet::timing::Sheet;

// The rows' pairs of words, in one list and by families; their multipliers are scaled by the denominator.
#[derive(Clone, Copy)]
pub struct Tableau<'a> {
    pub(crate) sheet: &'a Sheet,
    pub(crate) pairs: &'a [[u32; 2]],
    pub(crate) rows: Rows<'a>,
    pub(crate) scale: Denominator,
    ghost paired: { length pairs.now ≡ length (row_list (view sheet.now)) },
    ghost sized: { Sized (view sheet.now) (weights rows) },
    ghost whole: { multipliers pairs.now ≡ all (weights rows) },
}

impl<'a> Tableau<'a> {
    // The tableau of a sheet, from the pairs of its rows.
    // Kept: a type for pairs of this number is no plainer: it is asked for here and by `divide` alone.
    pub(crate) fn new(sheet: &'a Sheet, pairs: &'a [[u32; 2]], scale: Denominator) -> Tableau<'a>
        requires { length pairs.now ≡ length (row_list (view sheet.now)) }
        ensures sheet { result.sheet.now ≡ sheet.now }
        ensures pairs { result.pairs.now ≡ pairs.now }
        ensures scale { result.scale ≡ scale }
    {
        Tableau {
            sheet,
            pairs,
            rows: divide(sheet, pairs),
            scale,
        }
    }
}
