// The ledger: what each thread does now, in which segment of its life, and which locks it holds.
#![tactic(auto)]

mod index;
mod ledger;
mod row;
mod table;

pub use ledger::Ledger;
