// The items of a sheet that is being read, in memory that is reserved beforehand.
use crate::bounded::BoundedVec;
use crate::limits::{MOST_BACKS, MOST_BLOCKS, MOST_EDGES, MOST_FACTS, MOST_LBLOCKS, MOST_LOOPS};
use crate::parts::{BackEdge, Block, Edge, Fact, LBlock, Loop};

#[derive(Drop)]
pub struct Draft {
    pub sets: usize,
    pub blocks: BoundedVec<Block, MOST_BLOCKS>,
    pub lblocks: BoundedVec<LBlock, MOST_LBLOCKS>,
    pub edges: BoundedVec<Edge, MOST_EDGES>,
    pub loops: BoundedVec<Loop, MOST_LOOPS>,
    pub backs: BoundedVec<BackEdge, MOST_BACKS>,
    pub facts: BoundedVec<Fact, MOST_FACTS>,
}

mod checks;
mod items;
mod placed;
mod read;
mod scan;
