// The words of timing sheets and certificates: kinds, payloads and their fields, the reader of a list, and what a refusal says.
#![tactic(auto)]

pub mod reader;
pub mod refusal;
pub mod word;
