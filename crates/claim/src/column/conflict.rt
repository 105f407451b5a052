// The column of a conflict edge: how often its l-blocks are fetched one after the other. It costs nothing.
ghost use Rattle.std.specs.Prelude.{◌≡◌, ◌^◌, ◌<◌, map, length};
ghost use Rattle.std.specs.List.{ContainsAt};
ghost use Rattle.sheet.specs.ConflictList.{conflicts as conflict_list};
ghost use Rattle.sheet.specs.Rows.{P, foreign as is_foreign};
ghost use Rattle.claim.specs.Shares.{Near, FirstLow, rank, share_of_source, share_of_target};
ghost use Rattle.claim.specs.Tableau.{sheet_in, weights_in, passes};
ghost use Rattle.claim.specs.Tables.{SetsFit, UsedTable, RankTable, EndsIn, ends_in_prop};

use crate::rows::value::at;
use crate::scaled::Scaled;
use crate::tableau::Tableau;
use sheet::limits::MOST_SETS;
use sheet::parts::{Conflict, LBlock, Node};

// A tableau with the number of each used set's row in its family.
#[derive(Drop)]
pub struct SetTable<'a> {
    tableau: Tableau<'a>,
    ranks: [usize; MOST_SETS],
    ghost ranked: { RankTable (sheet_in tableau).lblocks ranks },
}

// A conflict edge of a tableau's sheet, with the number of its set's row in its family.
#[derive(Clone, Copy)]
pub struct ConflictColumn<'a> {
    tableau: Tableau<'a>,
    conflict: Conflict,
    row: usize,
    ghost ends: { EndsIn (length (sheet_in tableau).lblocks) conflict } by { ends_in_prop _ conflict },
    ghost ranked: { row ≡ rank (sheet_in tableau) conflict.set },
    ghost used: { row < length (weights_in tableau).sets },
}

// Which sets an l-block has.
fn used_sets(lblocks: &[LBlock]) -> [bool; MOST_SETS]
    requires { SetsFit lblocks.now }
    ensures { UsedTable lblocks.now result }
{
    // Kept: judging allocates nothing, so a table is an array as long as its limit.
    let mut used = [false; MOST_SETS];
    for lblock in lblocks {
        used[lblock.set] = true;
    }
    used
}

// The number of each used set's row in its family.
fn set_ranks(lblocks: &[LBlock]) -> [usize; MOST_SETS]
    requires { SetsFit lblocks.now }
    ensures { RankTable lblocks.now result }
{
    // Kept: judging allocates nothing, so a table is an array as long as its limit.
    let mut ranks = [0; MOST_SETS];
    let mut count = 0;
    // Kept: with `ranks.iter_mut().zip(used_sets(lblocks))` the loop's proof did not close.
    for (set, used) in used_sets(lblocks).iter().enumerate() {
        ranks[set] = count;
        if *used {
            count += 1;
        }
    }
    ranks
}

impl ConflictColumn<'_> {
    // Whether the node before an l-block is START or an l-block with another tag, so that the l-block may miss.
    fn foreign(&self, v: usize) -> bool
        requires { v < length (sheet_in self.now.tableau).lblocks }
        ensures { result ≡ is_foreign (sheet_in self.now.tableau) v self.now.conflict.from }
    {
        let lblocks = self.tableau.sheet.lblocks();
        match self.conflict.from {
            Node::Start => true,
            Node::At(u) => lblocks[u].tag != lblocks[v].tag,
            Node::End => false,
        }
    }

    // What the arrival and miss rows add, by both ends.
    fn target_share(&self) -> Scaled
        ensures share { result.0 ≡ share_of_target (sheet_in self.now.tableau) (weights_in self.now.tableau) self.now.conflict.from self.now.conflict.to }
        ensures near { Near (2 ^ 41) result.0 }
    {
        let Node::At(v) = self.conflict.to else {
            return Scaled::ZERO;
        };
        let rows = self.tableau.rows;
        let arrival = -at(rows.arrivals, v);
        if self.foreign(v) {
            arrival - at(rows.misses, v)
        } else {
            arrival
        }
    }

    // What the set and departure rows add, by the set and the source.
    fn source_share(&self) -> Scaled
        ensures share { result.0 ≡ share_of_source (sheet_in self.now.tableau) (weights_in self.now.tableau) self.now.conflict.set self.now.conflict.from }
        ensures near { Near (2 ^ 40) result.0 }
    {
        let rows = self.tableau.rows;
        match self.conflict.from {
            Node::Start => at(rows.sets, self.row),
            Node::At(u) => -at(rows.departures, u),
            Node::End => Scaled::ZERO,
        }
    }
}

impl<'a> SetTable<'a> {
    // The used sets of a tableau's sheet.
    // Kept: each of the three tables has to say of which tableau it is made.
    fn of(tableau: &Tableau<'a>) -> SetTable<'a>
        ensures { result.tableau ≡ tableau.now }
    {
        SetTable {
            tableau: *tableau,
            ranks: set_ranks(tableau.sheet.lblocks()),
        }
    }

    // Whether the column of a conflict edge of the sheet is not below nothing.
    fn conflict_covered(&self, conflict: Conflict) -> bool
        requires { ContainsAt (conflict_list (sheet_in self.now.tableau)) conflict }
        ensures { result ≡ passes self.now.tableau (P conflict) }
    {
        let column = ConflictColumn {
            tableau: self.tableau,
            conflict,
            row: self.ranks[conflict.set],
        };
        let total = column.source_share() + column.target_share();
        Scaled::ZERO <= total
    }
}

impl Tableau<'_> {
    // The first conflict edge whose column is below nothing.
    pub(crate) fn low_conflict(&self) -> Option<usize>
        ensures { FirstLow (passes self.now) (map P (conflict_list (sheet_in self.now))) result }
    {
        let sets = SetTable::of(self);
        self.sheet
            .conflicts()
            .iter()
            .position(|conflict| !sets.conflict_covered(*conflict))
    }
}
