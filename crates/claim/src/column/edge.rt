// The column of an edge: how often it is taken. It costs nothing.
ghost use Rattle.std.specs.Prelude.{◌≡◌, ◌<◌, map};
ghost use Rattle.sheet.specs.Rows.{T};
ghost use Rattle.claim.specs.Shares.{FirstLow};
ghost use Rattle.claim.specs.Tableau.{sheet_in, passes};

use crate::column::looping::LoopTable;
use crate::rows::value::at;
use crate::scaled::Scaled;
use crate::tableau::Tableau;
use sheet::parts::Edge;

impl LoopTable<'_> {
    // Whether the column is not below nothing.
    fn edge_covered(&self, edge: Edge) -> bool
        requires { (edge.from < (sheet_in self.now.tableau).blocks) × (edge.to < (sheet_in self.now.tableau).blocks) }
        ensures { result ≡ passes self.now.tableau (T edge) }
    {
        let rows = self.tableau.rows;
        let total = self.share(edge) - at(rows.ins, edge.to) - at(rows.outs, edge.from);
        Scaled::ZERO <= total
    }
}

impl Tableau<'_> {
    // The first edge whose column is below nothing.
    pub(crate) fn low_edge(&self) -> Option<usize>
        ensures { FirstLow (passes self.now) (map T (sheet_in self.now).edges) result }
    {
        let loops = LoopTable::of(self);
        self.sheet
            .edges()
            .iter()
            .position(|edge| !loops.edge_covered(*edge))
    }
}
