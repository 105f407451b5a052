// The blank sheet.
ghost use Rattle.std.specs.Prelude.{◌≡◌, IfOk};
ghost use Rattle.sheet.specs.Tried.{items_of};
ghost use Rattle.sheet.specs.View.{view, blank as blank_sheet, blank_items, blank_conflicts};

use crate::draft::Draft;
use crate::parts::{Block, Conflict, ConflictList, LBlock, Node};
use crate::timing::Sheet;
use std::alloc::{AllocError, Global};

// The items of the blank sheet, in memory for any sheet's.
fn blank_draft(heap: Global) -> Result<Draft, AllocError>
    ensures { IfOk result (λ d. items_of d ≡ blank_items) }
{
    let mut draft = Draft::reserve(heap)?;
    draft.sets = 1;
    draft.blocks.push(Block {
        first: 0,
        lblocks: 1,
    });
    draft.lblocks.push(LBlock {
        block: 0,
        set: 0,
        tag: 0,
        hit: 0,
        extra: 0,
    });
    Ok(draft)
}

// Its conflict edges, in memory for any sheet's.
fn lone_conflicts(heap: Global) -> Result<ConflictList, AllocError>
    ensures { IfOk result (λ v. v.list.items ≡ blank_conflicts) }
{
    let mut conflicts = ConflictList::reserve(heap)?;
    conflicts.push(Conflict {
        set: 0,
        from: Node::Start,
        to: Node::At(0),
    });
    conflicts.push(Conflict {
        set: 0,
        from: Node::At(0),
        to: Node::End,
    });
    Ok(conflicts)
}

impl Sheet {
    // One block with one l-block, at set 0 and tag 0, that costs nothing; in memory for any sheet.
    pub fn blank(heap: Global) -> Result<Sheet, AllocError>
        ensures { IfOk result (λ s. view s ≡ blank_sheet) }
    {
        let draft = blank_draft(heap)?;
        let conflicts = lone_conflicts(heap)?;
        Ok(Sheet {
            draft,
            conflicts,
            used: 1,
        })
    }
}
