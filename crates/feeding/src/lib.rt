// Feeding a whole file to a ledger, line by line.
#![tactic(auto)]

mod fault;
mod file;

pub use feed::{Cause, Fault};
pub use file::feed;
