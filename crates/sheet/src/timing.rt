// A timing sheet that was read.
ghost use Rattle.std.specs.Prelude.{◌≡◌, ◌≤◌, length, vec_len};
ghost use Rattle.sheet.specs.Conflict.{used_sets};
ghost use Rattle.sheet.specs.ConflictList.{conflicts as conflict_list};
ghost use Rattle.sheet.specs.Drafts.{sheet_of};
ghost use Rattle.sheet.specs.Tried.{items_of};
ghost use Rattle.sheet.specs.Kept.{Kept};
ghost use Rattle.sheet.specs.declared.limits.TheConstants.{MOST_SETS};

use crate::draft::Draft;
use crate::parts::ConflictList;

#[derive(Drop)]
pub struct Sheet {
    draft: Draft,
    conflicts: ConflictList,
    used: usize,
    ghost few_used: { used ≤ MOST_SETS },
    ghost counted: { used ≡ length (used_sets (sheet_of (items_of draft))) },
    ghost listed: { conflicts.list.items ≡ conflict_list (sheet_of (items_of draft)) },
    ghost kept: { ∥ Kept (items_of draft) ∥₁ },
}

mod blank;
mod parts;
mod replace;
