// What the program does with its input, as functions on values.
#![tactic(auto)]

mod input;
pub mod report;
mod stream;
mod text;
