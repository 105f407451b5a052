// Claims about a task's worst-case execution time: reading a certificate, and judging it against the linear rows of a sheet.
#![tactic(auto)]

pub mod amount;
mod certificate;
mod column;
pub mod fault;
pub mod judge;
mod rows;
mod scaled;
mod tableau;
