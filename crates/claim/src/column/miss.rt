// The column of an l-block: how often it misses.
ghost use Rattle.std.specs.Prelude.{◌≡◌, ◌<◌, map, length, slice_index_or};
ghost use Rattle.words.specs.Lists.{below};
ghost use Rattle.sheet.specs.Rows.{M};
ghost use Rattle.sheet.specs.Sheet.{no_lblock};
ghost use Rattle.claim.specs.Shares.{FirstLow};
ghost use Rattle.claim.specs.Tableau.{sheet_in, passes};

use crate::amount::Cycles;
use crate::rows::value::at;
use crate::tableau::Tableau;
use sheet::parts::LBlock;

// The extra cycles of a miss.
fn extra_cycles(lblocks: &[LBlock], v: usize) -> Cycles
    requires { v < length lblocks.now }
    ensures { result.0 ≡ (slice_index_or lblocks.now v no_lblock).extra }
{
    Cycles(u64::from(lblocks[v].extra))
}

impl Tableau<'_> {
    // Whether the column covers them.
    fn miss_covered(&self, v: usize) -> bool
        requires { v < length (sheet_in self.now).lblocks }
        ensures { result ≡ passes self.now (M v) }
    {
        let cost = extra_cycles(self.sheet.lblocks(), v);
        at(self.rows.misses, v).reaches(cost, self.scale)
    }

    // The first l-block whose column does not.
    pub(crate) fn low_miss(&self) -> Option<usize>
        ensures { FirstLow (passes self.now) (map M (below (length (sheet_in self.now).lblocks))) result }
    {
        let lblocks = self.sheet.lblocks().len();
        (0..lblocks).find(|&v| !self.miss_covered(v))
    }
}
