// The rows of a sheet by families.
ghost use Rattle.std.specs.Prelude.{◌≡◌, length};
ghost use Rattle.sheet.specs.Rows.{rows as row_list};
ghost use Rattle.sheet.specs.View.{view};
ghost use Rattle.claim.specs.Parts.{multipliers};
ghost use Rattle.claim.specs.Shares.{Sized, all, weights};

use crate::rows::Rows;
use sheet::timing::Sheet;

// Two rows for each block, one for each loop and each fact, an arrival and a departure row for each l-block, one for each used set, and a
// miss row for each l-block.
// Kept: a type for pairs of this number is no plainer: it is asked for here and by `Tableau::new` alone.
pub(crate) fn divide<'a>(sheet: &Sheet, pairs: &'a [[u32; 2]]) -> Rows<'a>
    requires { length pairs.now ≡ length (row_list (view sheet.now)) }
    ensures sized { Sized (view sheet.now) (weights result) }
    ensures whole { multipliers pairs.now ≡ all (weights result) }
{
    let blocks = sheet.blocks().len();
    let lblocks = sheet.lblocks().len();
    let (ins, after_ins) = pairs.split_at(blocks);
    let (outs, after_outs) = after_ins.split_at(blocks);
    let (loops, after_loops) = after_outs.split_at(sheet.loops().len());
    let (facts, after_facts) = after_loops.split_at(sheet.facts().len());
    let (arrivals, after_arrivals) = after_facts.split_at(lblocks);
    let (departures, last) = after_arrivals.split_at(lblocks);
    let (sets, misses) = last.split_at(last.len() - lblocks);
    Rows {
        ins,
        outs,
        loops,
        facts,
        arrivals,
        departures,
        sets,
        misses,
    }
}
