// The whole job in one call.
#![tactic(auto)]

mod job;

pub use job::check_file;
