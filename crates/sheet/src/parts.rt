// The items of a timing sheet. Each sort of item is numbered from 0 as it comes.
use crate::bounded::BoundedVec;
use crate::limits::MOST_CONFLICTS;

// A basic block: the number of its first l-block, and how many it has. They follow one another.
#[derive(Clone, Copy, PartialEq, Eq, Debug)]
pub struct Block {
    pub first: usize,
    pub lblocks: usize,
}

// An l-block: the part of a basic block that lies in one cache line. It has a cache set and a tag, and costs hit cycles, and extra
// cycles on a miss.
#[derive(Clone, Copy, PartialEq, Eq, Debug)]
pub struct LBlock {
    pub block: usize,
    pub set: usize,
    pub tag: u32,
    pub hit: u32,
    pub extra: u32,
}

// An edge from one block to another.
#[derive(Clone, Copy, PartialEq, Eq, Debug)]
pub struct Edge {
    pub from: usize,
    pub to: usize,
}

// A loop: its header block and its bound. Its back edges are listed apart.
#[derive(Clone, Copy, PartialEq, Eq, Debug)]
pub struct Loop {
    pub header: usize,
    pub bound: u32,
}

// A back edge: the number of its loop, and the block that it comes from. It leads to the loop's header.
#[derive(Clone, Copy, PartialEq, Eq, Debug)]
pub struct BackEdge {
    pub owner: usize,
    pub source: usize,
}

// A path fact: in a whole walk block i runs at most k times as often as block j.
#[derive(Clone, Copy, PartialEq, Eq, Debug)]
pub struct Fact {
    pub i: usize,
    pub j: usize,
    pub k: u32,
}

// A node of the fetch graph: START, an l-block by its number, or END.
#[derive(Clone, Copy, PartialEq, Eq, Debug)]
pub enum Node {
    Start,
    At(usize),
    End,
}

// A conflict edge of a cache set.
#[derive(Clone, Copy, PartialEq, Eq, Debug)]
pub struct Conflict {
    pub set: usize,
    pub from: Node,
    pub to: Node,
}

// The conflict edges of a sheet.
pub(crate) type ConflictList = BoundedVec<Conflict, MOST_CONFLICTS>;
