// The rules of events: what each event does to the thread rows, the edge list and the order, and which recording stands
// behind the three. The rules are definitions in specs/; the code that follows them is in the crate `ledger`.
#![tactic(auto)]

mod cause;
mod laws;

pub use cause::{EventCause, LedgerCause};
pub use laws::{
    allowed_are_accepted, ends_are_open, events_are_recorded, lists_are_recorded, locks_are_held,
    nothing_behind_fresh,
};
