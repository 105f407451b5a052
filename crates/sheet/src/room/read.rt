// Reserving memory, and reading sheets in it.
ghost use Rattle.std.specs.Prelude.{◌≡◌, IfOk};
ghost use Rattle.sheet.specs.Reads.{Reading, ReaderLaws};
ghost use Rattle.sheet.specs.View.{view, blank as blank_sheet};

use crate::draft::Draft;
use crate::fault::SheetFault;
use crate::parts::ConflictList;
use crate::room::SheetRoom;
use crate::timing::Sheet;
use crate::traversal::Traversal;
use std::alloc::{AllocError, Global};

impl SheetRoom {
    // The blank sheet, with all the memory that reading any other takes.
    pub fn reserve(heap: Global) -> Result<SheetRoom, AllocError>
        ensures { IfOk result (λ m. view m.sheet ≡ blank_sheet) }
    {
        Ok(SheetRoom {
            sheet: Sheet::blank(heap)?,
            draft: Draft::reserve(heap)?,
            conflicts: ConflictList::reserve(heap)?,
            traversal: Traversal::reserve(heap)?,
        })
    }

    // The sheet that is held.
    pub fn sheet(&self) -> &Sheet
        ensures { result.now ≡ self.now.sheet }
    {
        &self.sheet
    }

    // Gives up the memory for reading.
    pub fn into_sheet(self) -> Sheet
        ensures { result ≡ self.sheet }
    {
        self.sheet
    }

    // Reads a sheet from its words and holds it. A list that is refused leaves the sheet that was held.
    pub fn read(&mut self, words: &[u32]) -> Result<(), SheetFault>
        ensures answer { Reading words.now self.old.sheet result self.new.sheet }
        ensures laws { ReaderLaws }
    {
        self.draft.read(words)?;
        self.traversal.find(&self.draft, &mut self.conflicts)?;
        self.sheet.replace(&mut self.draft, &mut self.conflicts);
        Ok(())
    }
}
