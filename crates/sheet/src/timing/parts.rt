// What a sheet holds.
ghost use Rattle.std.specs.Prelude.{◌≡◌, length};
ghost use Rattle.sheet.specs.Conflict.{Conflicts};
ghost use Rattle.sheet.specs.ConflictList.{conflicts as conflict_list};
ghost use Rattle.sheet.specs.Rows.{rows as row_list, columns as column_list};
ghost use Rattle.sheet.specs.Sound.{Sound};
ghost use Rattle.sheet.specs.View.{items as items_in, view};

use crate::parts::{BackEdge, Block, Conflict, Edge, Fact, LBlock, Loop};
use crate::timing::Sheet;

impl Sheet {
    // How many cache sets there are.
    pub fn sets(&self) -> usize
        ensures { result ≡ (view self.now).sets }
    {
        self.draft.sets
    }

    // The blocks. A sheet is within all limits, and its blocks lie end to end over its l-blocks.
    pub fn blocks(&self) -> &[Block]
        ensures listed { result.now ≡ (items_in self.now).blocks }
        ensures sound { Sound (items_in self.now) }
    {
        self.draft.blocks.as_slice()
    }

    pub fn lblocks(&self) -> &[LBlock]
        ensures { result.now ≡ (view self.now).lblocks }
    {
        self.draft.lblocks.as_slice()
    }

    pub fn edges(&self) -> &[Edge]
        ensures { result.now ≡ (view self.now).edges }
    {
        self.draft.edges.as_slice()
    }

    pub fn loops(&self) -> &[Loop]
        ensures { result.now ≡ (items_in self.now).loops }
    {
        self.draft.loops.as_slice()
    }

    pub fn back_edges(&self) -> &[BackEdge]
        ensures { result.now ≡ (items_in self.now).backs }
    {
        self.draft.backs.as_slice()
    }

    pub fn facts(&self) -> &[Fact]
        ensures { result.now ≡ (view self.now).facts }
    {
        self.draft.facts.as_slice()
    }

    // The conflict edges: exactly those of the sheet, by set, then by source, START first, then by target, END last.
    pub fn conflicts(&self) -> &[Conflict]
        ensures listed { result.now ≡ conflict_list (view self.now) }
        ensures exact { Conflicts (view self.now) result.now }
    {
        self.conflicts.as_slice()
    }

    // How many rows the linear program has: an in and an out row for each block, a row for each loop and fact, an arrival, a departure and
    // a miss row for each l-block, and one for each used set.
    #[tactic(auto, using(crate::proofs::Counts::row_count))]
    pub fn rows(&self) -> usize
        ensures { result ≡ length (row_list (view self.now)) }
    {
        let draft = &self.draft;
        2 * draft.blocks.len()
            + draft.loops.len()
            + draft.facts.len()
            + 3 * draft.lblocks.len()
            + self.used
    }

    // How many columns it has: one for each block, edge, l-block and conflict edge.
    #[tactic(auto, using(crate::proofs::Counts::column_count))]
    pub fn columns(&self) -> usize
        ensures { result ≡ length (column_list (view self.now) (conflict_list (view self.now))) }
    {
        let draft = &self.draft;
        draft.blocks.len() + draft.edges.len() + draft.lblocks.len() + self.conflicts().len()
    }
}
