// A sorted list of records over memory that the caller lends.
#![tactic(auto)]

mod cause;
mod laws;
mod list;
mod record;

pub use cause::ListCause;
pub use laws::{
    adding_is_lawful, contains_is_membership, filling_is_lawful, members_tell_lists_apart,
    whole_keys_are_members,
};
pub use list::SortedList;
pub use record::{Record, WholeKey};
