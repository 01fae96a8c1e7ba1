// The text layer: one line of a recording to its event.
#![tactic(auto)]

mod arguments;
mod fault;
mod line;
mod number;

pub use fault::{LineFault, TextCause};
pub use line::read_line;
