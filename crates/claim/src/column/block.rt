// The column of a block: how often it runs.
ghost use Rattle.std.specs.Prelude.{◌≡◌, ◌+◌, ◌^◌, ◌<◌, ◌≤◌, map, length, sum_by};
ghost use Rattle.words.specs.Lists.{below};
ghost use Rattle.sheet.specs.Rows.{N};
ghost use Rattle.sheet.specs.declared.limits.TheConstants.{MOST_LBLOCKS};
ghost use Rattle.claim.specs.Shares.{FirstLow, block_sum, fact_share};
ghost use Rattle.claim.specs.Tableau.{sheet_in, weights_in, passes};
ghost use Rattle.claim.specs.Tables.{Cheap};

use crate::amount::Cycles;
use crate::column::fact::FactShares;
use crate::rows::value::{at, sum};
use crate::scaled::Scaled;
use crate::tableau::Tableau;
use sheet::parts::{Block, LBlock};

// What l-blocks cost if all of them hit.
fn hit_cycles(lblocks: &[LBlock]) -> Cycles
    requires few { length lblocks.now ≤ MOST_LBLOCKS }
    requires cheap { Cheap lblocks.now }
    ensures cost { result.0 ≡ sum_by (λ v. v.hit) lblocks.now }
    ensures small { result.0 ≤ 2 ^ 23 }
{
    Cycles(lblocks.iter().map(|lblock| u64::from(lblock.hit)).sum())
}

impl FactShares<'_> {
    // The column's total: its in and out row, its facts, its l-blocks.
    fn block_total(&self, b: usize, block: Block) -> Scaled
        requires inside { b < (sheet_in self.now.tableau).blocks }
        requires lblocks { block.first + block.lblocks ≤ length (sheet_in self.now.tableau).lblocks }
        ensures { result.0 ≡ block_sum (weights_in self.now.tableau) b block.first block.lblocks (fact_share (weights_in self.now.tableau).facts (sheet_in self.now.tableau).facts b) }
    {
        let rows = self.tableau.rows;
        let end = block.first + block.lblocks;
        at(rows.ins, b)
            + at(rows.outs, b)
            + self.shares[b]
            + (sum(&rows.arrivals[block.first..end]) + sum(&rows.departures[block.first..end]))
    }

    // Whether the column covers its cost.
    fn block_covered(&self, b: usize) -> bool
        requires { b < (sheet_in self.now.tableau).blocks }
        ensures { result ≡ passes self.now.tableau (N b) }
    {
        let sheet = self.tableau.sheet;
        let block = sheet.blocks()[b];
        let lblocks = &sheet.lblocks()[block.first..block.first + block.lblocks];
        self.block_total(b, block)
            .reaches(hit_cycles(lblocks), self.tableau.scale)
    }
}

impl Tableau<'_> {
    // The first block whose column does not.
    pub(crate) fn low_block(&self) -> Option<usize>
        ensures { FirstLow (passes self.now) (map N (below (sheet_in self.now).blocks)) result }
    {
        let facts = FactShares::of(self);
        let blocks = self.sheet.blocks().len();
        (0..blocks).find(|&b| !facts.block_covered(b))
    }
}
