// The laws of the recording behind, each the contract of a function that does nothing.
ghost use Rattle.rules.specs.Laws.{LocksAreHeld, NothingBehindFresh, EventsAreRecorded, ListsAreRecorded, EndsAreOpen, AllowedAreAccepted};

// The locks in a thread's row are those that it took more often than it gave them up.
pub fn locks_are_held()
    ensures { LocksAreHeld }
{}

// The empty recording stands behind a fresh ledger, a newly opened edge list and a fresh order.
pub fn nothing_behind_fresh()
    ensures { NothingBehindFresh }
{}

// An accepted event comes to the end of the recording behind, and a refused one leaves it.
pub fn events_are_recorded()
    ensures { EventsAreRecorded }
{}

// The same of every list of events, whichever are refused.
pub fn lists_are_recorded()
    ensures { ListsAreRecorded }
{}

// Where a recording stands behind, no event meets a segment that is no open end.
pub fn ends_are_open()
    ensures { EndsAreOpen }
{}

// Where a recording stands behind, an event is accepted exactly when it is allowed after it and there is room.
pub fn allowed_are_accepted()
    ensures { AllowedAreAccepted }
{}
