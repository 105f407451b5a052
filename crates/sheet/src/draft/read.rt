// Reading the items of a sheet from its words.
ghost use Rattle.std.specs.Prelude.{◌≡◌, IfOk};
ghost use Rattle.sheet.specs.Sections.{no_items};
ghost use Rattle.sheet.specs.Tried.{items_of};
ghost use Rattle.sheet.specs.Reads.{ReadItems};

use crate::bounded::BoundedVec;
use crate::draft::Draft;
use crate::fault::SheetFault;
use crate::section::Section;
use std::alloc::{AllocError, Global};
use words::reader::Reader;

impl Draft {
    // Memory for all the items that a sheet may have.
    pub(crate) fn reserve(heap: Global) -> Result<Draft, AllocError>
        ensures { IfOk result (λ d. items_of d ≡ no_items) }
    {
        Ok(Draft {
            sets: 0,
            blocks: BoundedVec::reserve(heap)?,
            lblocks: BoundedVec::reserve(heap)?,
            edges: BoundedVec::reserve(heap)?,
            loops: BoundedVec::reserve(heap)?,
            backs: BoundedVec::reserve(heap)?,
            facts: BoundedVec::reserve(heap)?,
        })
    }

    // No items, in the same memory.
    fn clear(&mut self)
        ensures { items_of self.new ≡ no_items }
    {
        self.sets = 0;
        self.blocks.clear();
        self.lblocks.clear();
        self.edges.clear();
        self.loops.clear();
        self.backs.clear();
        self.facts.clear();
    }

    // The items of the sheet whose words these are, or the first fault.
    pub(crate) fn read(&mut self, words: &[u32]) -> Result<(), SheetFault>
        ensures { ReadItems words.now result (items_of self.new) }
    {
        self.clear();
        let mut reader = Reader::new(words);
        let mut section = Section::Head;
        while let Some(next) = self.step(section, &mut reader)? {
            section = next;
        }
        Ok(())
    }
}
