// Memory for a sheet and for reading the next one.
use crate::draft::Draft;
use crate::parts::ConflictList;
use crate::timing::Sheet;
use crate::traversal::Traversal;

// The sheet that is held, and the memory in which the next one is read.
#[derive(Drop)]
pub struct SheetRoom {
    sheet: Sheet,
    draft: Draft,
    conflicts: ConflictList,
    traversal: Traversal,
}

mod read;
