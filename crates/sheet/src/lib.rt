// A task's timing sheet: its blocks, l-blocks, edges, loops and facts, read from words, and the conflict edges of each cache set.
#![tactic(auto)]

mod bounded;
mod draft;
pub mod fault;
pub mod limits;
pub mod parts;
pub mod room;
mod section;
pub mod timing;
mod traversal;
