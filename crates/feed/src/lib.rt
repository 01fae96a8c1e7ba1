// Feeding a whole file, line by line.
#![tactic(auto)]

mod cut;
mod fault;
mod file;

pub use cut::{Lines, first_line};
pub use fault::{Cause, Fault};
pub use file::{LONGEST, feed};
