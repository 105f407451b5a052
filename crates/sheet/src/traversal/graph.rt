ghost use Rattle.std.specs.Prelude.{◌<◌, ◌≤◌, length};
ghost use Rattle.std.specs.List.{AllByRecursion};
ghost use Rattle.std.proofs.Props.{props};
ghost use Rattle.sheet.specs.Graph.{Linked, Ready};
ghost use Rattle.sheet.specs.declared.limits.TheConstants.{MOST_BLOCKS, MOST_EDGES};

use crate::bounded::BoundedVec;
use crate::limits::{MOST_BLOCKS, MOST_EDGES};
use crate::parts::{Block, Edge, LBlock};

// The blocks, l-blocks and edges of a sheet, with the edges from each block linked: `latest` has each block's last edge, and `before` the
// edge before each edge from the same block.
#[derive(Clone, Copy)]
pub struct Graph<'a> {
    pub sets: usize,
    pub blocks: &'a [Block],
    pub lblocks: &'a [LBlock],
    pub edges: &'a [Edge],
    pub latest: &'a [Option<usize>],
    pub before: &'a [Option<usize>],
    ghost ready: { Ready sets blocks.now lblocks.now edges.now latest.now before.now } by { Prim.hlevel props },
}

// Links the edges.
pub(crate) fn link(
    blocks: usize,
    edges: &[Edge],
    latest: &mut BoundedVec<Option<usize>, MOST_BLOCKS>,
    before: &mut BoundedVec<Option<usize>, MOST_EDGES>,
)
    requires from { AllByRecursion (λ e. e.from < blocks) edges.now }
    requires blocks { blocks ≤ MOST_BLOCKS }
    requires edges { length edges.now ≤ MOST_EDGES }
    ensures { Linked edges.now blocks (length edges.now) latest.new.list.items before.new.list.items }
{
    latest.refill(blocks, None);
    before.clear();
    for (i, e) in edges.iter().enumerate() {
        before.push(latest.as_slice()[e.from]);
        latest.set(e.from, Some(i));
    }
}
