// Sorted lists by example: of pairs of numbers, and of jobs that are told apart by their names alone.
#![tactic(auto)]

pub mod fill;
pub mod job;
#[cfg(test)]
mod jobs;
pub mod pair;
#[cfg(test)]
mod pairs;
