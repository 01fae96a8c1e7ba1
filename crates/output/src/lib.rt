// What is written about a recording and its report: the odds of circles, and lines of text in lent memory.
#![tactic(auto)]

mod answer;
mod cause;
mod chance;
mod circle;
mod fault;
mod line;

pub use answer::answer_line;
pub use cause::OutputCause;
pub use chance::odds;
pub use circle::circle_line;
pub use fault::fault_line;
pub use line::LINE_MEMORY;
