// Lines of text, written into a lent slice of bytes from a given place on.
#![tactic(auto)]

mod decimal;
pub mod fault;
mod field;
mod layout;
pub mod lines;
