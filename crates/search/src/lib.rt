// The search: the chains of an edge list are walked one after another, and the closed ones are reported as circles.
#![tactic(auto)]

mod calls;
mod closing;
mod index;
mod level;
mod reporting;
mod stack;
mod tally;
mod walk;

pub use calls::{Comparison, compare, report, report_rows};
