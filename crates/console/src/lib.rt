// What the programs read and print.
#![tactic(auto)]

mod input;
mod print;

pub use input::read_input;
pub use print::{print_answer, print_circle, print_fault};
