// What the loop rows add to the columns of the edges.
ghost use Rattle.std.specs.Prelude.{◌≡◌, ◌^◌, ◌<◌, false, [], length, None, slice_index_or};
ghost use Rattle.sheet.specs.View.{items as items_in};
ghost use Rattle.sheet.specs.declared.limits.TheConstants.{MOST_BLOCKS, MOST_LOOPS};
ghost use Rattle.claim.specs.Shares.{Near, loop_share};
ghost use Rattle.claim.specs.Tableau.{sheet_in, weights_in};
ghost use Rattle.claim.specs.Tables.{HeadersFit, HeaderTable, header_table_prop, SourceTable};

use crate::rows::value::at;
use crate::scaled::Scaled;
use crate::tableau::Tableau;
use sheet::limits::{MOST_BLOCKS, MOST_LOOPS};
use sheet::parts::{BackEdge, Edge, Loop};

// The loop of each header, by block, and the blocks that each loop's back edges come from.
#[derive(Drop)]
pub struct LoopTable<'a> {
    pub(crate) tableau: Tableau<'a>,
    headers: [Option<usize>; MOST_BLOCKS],
    sources: [[bool; MOST_BLOCKS]; MOST_LOOPS],
    ghost headed: { HeaderTable (items_in tableau.sheet.now).loops (length (items_in tableau.sheet.now).loops) headers } by { header_table_prop _ _ _ },
    ghost sourced: { SourceTable (items_in tableau.sheet.now).backs sources },
}

// The number of the loop that each block is the header of.
fn loop_headers(loops: &[Loop]) -> [Option<usize>; MOST_BLOCKS]
    requires { HeadersFit loops.now }
    ensures { HeaderTable loops.now (length loops.now) result }
{
    // Kept: judging allocates nothing, so a table is an array as long as its limit.
    let mut headers = [None; MOST_BLOCKS];
    for (number, header) in loops.iter().enumerate() {
        headers[header.header] = Some(number);
    }
    headers
}

// Whether a back edge of each loop comes from each block.
fn back_sources(backs: &[BackEdge]) -> [[bool; MOST_BLOCKS]; MOST_LOOPS]
    ensures { SourceTable backs.now result }
{
    // Kept: judging allocates nothing, so a table is an array as long as its limit.
    let mut sources = [[false; MOST_BLOCKS]; MOST_LOOPS];
    for back in backs {
        // Kept: what a sheet promises bounds no back edge's owner, and `get_mut` of a `get_mut` is no plainer than two tests.
        if back.owner < MOST_LOOPS && back.source < MOST_BLOCKS {
            sources[back.owner][back.source] = true;
        }
    }
    sources
}

impl<'a> LoopTable<'a> {
    // The loops of a tableau's sheet.
    // Kept: each of the three tables has to say of which tableau it is made.
    pub(crate) fn of(tableau: &Tableau<'a>) -> LoopTable<'a>
        ensures { result.tableau ≡ tableau.now }
    {
        LoopTable {
            tableau: *tableau,
            headers: loop_headers(tableau.sheet.loops()),
            sources: back_sources(tableau.sheet.back_edges()),
        }
    }

    // The loop that a block is the header of.
    fn loop_of(&self, block: usize) -> Option<usize>
        requires { block < MOST_BLOCKS }
        ensures { result ≡ slice_index_or self.now.headers block None }
    {
        self.headers[block]
    }

    // Whether a back edge of a loop comes from a block.
    fn comes_from(&self, number: usize, block: usize) -> bool
        requires { (number < MOST_LOOPS) × (block < MOST_BLOCKS) }
        ensures { result ≡ slice_index_or (slice_index_or self.now.sources number []) block false }
    {
        self.sources[number][block]
    }

    // What the loop rows add to an edge's column: the multiplier of the loop whose header it leads to, once for a back edge, minus the bound
    // times for an entry edge.
    pub(crate) fn share(&self, edge: Edge) -> Scaled
        requires { (edge.from < MOST_BLOCKS) × (edge.to < MOST_BLOCKS) }
        ensures share { result.0 ≡ loop_share (weights_in self.now.tableau).loops (sheet_in self.now.tableau).loops edge }
        ensures near { Near (2 ^ 54) result.0 }
    {
        let Some(number) = self.loop_of(edge.to) else {
            return Scaled::ZERO;
        };
        let multiplier = at(self.tableau.rows.loops, number);
        if self.comes_from(number, edge.from) {
            multiplier
        } else {
            -(multiplier * self.tableau.sheet.loops()[number].bound)
        }
    }
}
