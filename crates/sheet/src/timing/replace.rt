// Taking over what was read.
ghost use Rattle.std.specs.Prelude.{◌≡◌, length};
ghost use Rattle.words.specs.Lists.{below};
ghost use Rattle.sheet.specs.Conflict.{used_sets};
ghost use Rattle.sheet.specs.ConflictList.{conflicts as conflict_list};
ghost use Rattle.sheet.specs.Drafts.{sheet_of};
ghost use Rattle.sheet.specs.Kept.{Kept, used_among};
ghost use Rattle.sheet.specs.Tried.{items_of};
ghost use Rattle.sheet.specs.View.{items as items_in};

use crate::draft::Draft;
use crate::parts::{ConflictList, LBlock};
use crate::timing::Sheet;
use crate::traversal::list::is_used;

// How many of the sets an l-block has.
pub(crate) fn count_used(sets: usize, lblocks: &[LBlock]) -> usize
    ensures { result ≡ used_among lblocks.now sets }
{
    (0..sets).filter(|&set| is_used(lblocks, set)).count()
}

impl Sheet {
    // The sheet becomes the one that was read. Its old memory is handed back for the next.
    pub(crate) fn replace(&mut self, draft: &mut Draft, conflicts: &mut ConflictList)
        requires fits { Kept (items_of draft.old) }
        requires listed { conflicts.old.list.items ≡ conflict_list (sheet_of (items_of draft.old)) }
        ensures { items_in self.new ≡ items_of draft.old }
    {
        let used = count_used(draft.sets, draft.lblocks.as_slice());
        std::mem::swap(&mut self.draft, draft);
        std::mem::swap(&mut self.conflicts, conflicts);
        self.used = used;
    }
}
