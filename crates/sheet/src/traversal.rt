// The traversals of the fetch graph that find the conflict edges of a sheet, in memory that is reserved once.
mod graph;
pub mod list;
mod reach;

ghost use Rattle.sheet.specs.Drafts.{sheet_of};
ghost use Rattle.sheet.specs.Reads.{Readable, Found};
ghost use Rattle.sheet.specs.Tried.{items_of};

use crate::bounded::BoundedVec;
use crate::draft::Draft;
use crate::fault::SheetFault;
use crate::limits::{MOST_BLOCKS, MOST_EDGES};
use crate::parts::ConflictList;
use crate::traversal::graph::{Graph, link};
use crate::traversal::reach::Reach;
use std::alloc::{AllocError, Global};

// The memory of a traversal, for a sheet of any size.
#[derive(Drop)]
pub struct Traversal {
    // Kept: nothing is allocated while a sheet is read, so the links between edges are numbers in reserved memory.
    latest: BoundedVec<Option<usize>, MOST_BLOCKS>,
    before: BoundedVec<Option<usize>, MOST_EDGES>,
    reach: Reach,
}

impl Traversal {
    pub(crate) fn reserve(heap: Global) -> Result<Traversal, AllocError> {
        Ok(Traversal {
            latest: BoundedVec::reserve(heap)?,
            before: BoundedVec::reserve(heap)?,
            reach: Reach::reserve(heap)?,
        })
    }

    // The conflict edges of what was read go into `out`. Where they pass 4,096, the set with which they do is answered.
    pub(crate) fn find(&mut self, draft: &Draft, out: &mut ConflictList) -> Result<(), SheetFault>
        requires { Readable (items_of draft.now) }
        ensures { Found (sheet_of (items_of draft.now)) result out.new.list.items }
    {
        let blocks = draft.blocks.as_slice();
        let edges = draft.edges.as_slice();
        link(blocks.len(), edges, &mut self.latest, &mut self.before);
        let g = Graph {
            sets: draft.sets,
            blocks,
            lblocks: draft.lblocks.as_slice(),
            edges,
            latest: self.latest.as_slice(),
            before: self.before.as_slice(),
        };
        self.reach.list_all(&g, out)
    }
}
