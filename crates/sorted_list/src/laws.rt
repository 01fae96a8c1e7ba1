// The laws of the list, over every type of records. Each is the contract of a function that does nothing.
ghost use Rattle.sorted_list.specs.Lists.{Held};
ghost use Rattle.sorted_list.specs.Laws.{Unique, Finds, Adds, Filling, WholeKeys};

use crate::record::{Record, WholeKey};

// Ascending lists stay ascending, and at most the new record joins the members.
pub fn adding_is_lawful<R: Record>()
    ensures { (h : Held R) (r : R) → Adds R.Record.rank R.Record.vacant h r }
{}

// A list that was opened and then only added to ascends, holds what was added, and has blanks behind it.
pub fn filling_is_lawful<R: Record>()
    ensures { Filling R.Record.rank R.Record.vacant }
{}

// Ascending lists with the same members are equal.
pub fn members_tell_lists_apart<R: Record>()
    ensures { Unique R.Record.rank }
{}

// In an ascending list `contains` says whether a record that is equal in the order is a member.
pub fn contains_is_membership<R: Record>()
    ensures { Finds R.Record.rank }
{}

// Where equal in the order means the same record, these laws speak of the record itself.
pub fn whole_keys_are_members<R: WholeKey>()
    ensures { WholeKeys R.Record.rank R.Record.vacant }
{}
