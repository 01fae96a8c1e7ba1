// What the tests share: events entered one after another, and the comparison of two ledgers and of two orders.
use ledger::Ledger;
use order::SegmentOrder;
use rows::{Edge, Event};
use rules::EventCause;
use sorted_list::SortedList;
use std::process::Abort;

// The number of the cause for which an event is turned down.
pub(crate) fn refusal(answer: Result<(), EventCause>) -> Option<u32> {
    answer.err().map(|cause| cause.number())
}

// Enters events that are all accepted.
pub(crate) fn enter_all<O: SegmentOrder>(
    rt: &impl Abort,
    ledger: &mut Ledger,
    edges: &mut SortedList<'_, Edge>,
    order: &mut O,
    events: &[Event],
) {
    for event in events {
        assert_eq!(rt; ledger.enter(edges, order, *event), Ok(()));
    }
}

pub(crate) fn same_rows(rt: &impl Abort, first: &Ledger, second: &Ledger) {
    for t in 0..66 {
        assert_eq!(rt; first.state(t), second.state(t));
        assert_eq!(rt; first.segment(t), second.segment(t));
        for place in 0..4 {
            assert_eq!(rt; first.held(t, place), second.held(t, place));
        }
    }
}

pub(crate) fn same_order<O: SegmentOrder>(rt: &impl Abort, first: &O, second: &O) {
    for x in 0..12 {
        for y in 0..12 {
            assert_eq!(rt; first.precedes(x, y), second.precedes(x, y));
        }
    }
}
