// How many of each item a sheet may have, and how many conflict edges.
pub const MOST_SETS: usize = 64;

pub const MOST_BLOCKS: usize = 128;

// In one block, and in all.
pub const MOST_LBLOCKS_IN_BLOCK: usize = 16;

pub const MOST_LBLOCKS: usize = 512;

pub const MOST_EDGES: usize = 512;

pub const MOST_LOOPS: usize = 32;

pub const MOST_BACKS: usize = 64;

pub const MOST_FACTS: usize = 32;

pub const MOST_CONFLICTS: usize = 4096;
