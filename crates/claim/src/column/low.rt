// The first column that is too low.
ghost use Rattle.sheet.specs.ConflictList.{conflicts as conflict_list};
ghost use Rattle.sheet.specs.Rows.{columns as column_list};
ghost use Rattle.claim.specs.Shares.{FirstLow};
ghost use Rattle.claim.specs.Tableau.{sheet_in, passes};

use crate::tableau::Tableau;

impl Tableau<'_> {
    // Blocks, then edges, l-blocks and conflict edges.
    pub(crate) fn low_column(&self) -> Option<usize>
        ensures { FirstLow (passes self.now) (column_list (sheet_in self.now) (conflict_list (sheet_in self.now))) result }
    {
        // Kept: the proof learns nothing of what `or_else(|| Some(edges + self.low_edge()?))` answers, nor with `self.low_edge().map(..)` in it.
        if let Some(b) = self.low_block() {
            return Some(b);
        }
        let edges = self.sheet.blocks().len();
        if let Some(e) = self.low_edge() {
            return Some(edges + e);
        }
        let misses = edges + self.sheet.edges().len();
        if let Some(v) = self.low_miss() {
            return Some(misses + v);
        }
        let conflicts = misses + self.sheet.lblocks().len();
        self.low_conflict().map(|p| conflicts + p)
    }
}
