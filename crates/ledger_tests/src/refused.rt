// Every refusal of an event, and that it leaves rows, edges and order as they were.
use crate::bench::{enter_all, refusal, same_order, same_rows};
use ledger::Ledger;
use order::{Clocks, Matrix, SegmentOrder};
use rows::{Edge, Event};
use sorted_list::{Record, SortedList};
use std::process::Abort;

const START: Event = Event::Start(0, 1);

const JOIN: Event = Event::Join(0, 1);

const TAKE: Event = Event::Lock(0, 5);

// Events that are accepted, one that is turned down after them, and the number of its cause, as it is printed.
const REFUSED: [(&[Event], Event, u32); 19] = [
    (&[], Event::Lock(64, 0), 1),
    (&[], Event::Lock(0, 64), 1),
    (&[], Event::Release(0, 999), 1),
    (&[], Event::Start(0, 64), 1),
    (&[], Event::Join(64, 0), 1),
    (&[], Event::Lock(1, 0), 2),
    (&[START, JOIN], Event::Lock(1, 0), 2),
    (&[START, TAKE], Event::Release(2, 5), 2),
    (&[TAKE], TAKE, 3),
    (&[START, TAKE], Event::Lock(1, 5), 4),
    (
        &[START, TAKE, Event::Lock(1, 6), JOIN],
        Event::Lock(0, 6),
        4,
    ),
    (&[], Event::Release(0, 5), 5),
    (&[START, TAKE], Event::Release(1, 5), 5),
    (&[], Event::Start(0, 0), 6),
    (&[START], START, 6),
    (&[START, JOIN], START, 6),
    (&[], Event::Join(0, 0), 7),
    (&[], JOIN, 7),
    (
        &[Event::Lock(0, 1), Event::Lock(0, 2)],
        Event::Lock(0, 3),
        10,
    ),
];

// A further start is answered alike, too.
fn refuses<O: SegmentOrder + Drop>(rt: &impl Abort, before: &[Event], event: Event, cause: u32) {
    let mut places = [Edge::blank(); 1];
    let mut twins = [Edge::blank(); 1];
    let mut edges = SortedList::open(&mut places);
    let mut others = SortedList::open(&mut twins);
    let mut order = O::fresh();
    let mut other = O::fresh();
    let mut ledger = Ledger::fresh();
    let mut twin = Ledger::fresh();
    enter_all(rt, &mut ledger, &mut edges, &mut order, before);
    enter_all(rt, &mut twin, &mut others, &mut other, before);
    assert_eq!(rt;
        refusal(ledger.enter(&mut edges, &mut order, event)),
        Some(cause)
    );
    same_rows(rt, &ledger, &twin);
    assert_eq!(rt; edges.records(), others.records());
    same_order(rt, &order, &other);
    let start = ledger.start(&mut order, 0, 9);
    assert_eq!(rt; twin.start(&mut other, 0, 9), start);
    same_rows(rt, &ledger, &twin);
}

#[test]
fn a_refused_event_leaves_everything_as_it_was(rt: HostRuntime) {
    for (before, event, cause) in &REFUSED {
        refuses::<Matrix>(&rt, before, *event, *cause);
        refuses::<Clocks>(&rt, before, *event, *cause);
    }
}

// An order that was not opened with this ledger: segment 0 is no open end any more.
fn strange_order<O: SegmentOrder + Drop>(rt: &impl Abort) {
    let mut order = O::fresh();
    assert!(rt; order.fork(0).is_ok());
    let mut ledger = Ledger::fresh();
    assert_eq!(rt; refusal(ledger.start(&mut order, 0, 1)), Some(8));
    assert_eq!(rt; ledger.segment(0), Some(0));
    assert!(rt; !order.precedes(0, 3));
}

#[test]
fn a_segment_that_is_no_open_end_is_8(rt: HostRuntime) {
    strange_order::<Matrix>(&rt);
    strange_order::<Clocks>(&rt);
}

// After 63 starts there are 127 segments; thread 1 is then joined again and again, up to the ceiling.
fn fills<O: SegmentOrder + Drop>(rt: &impl Abort, joins: u32) {
    let mut order = O::fresh();
    let mut ledger = Ledger::fresh();
    for u in 1..64 {
        assert_eq!(rt; ledger.start(&mut order, 0, u), Ok(()));
    }
    for _ in 0..joins {
        assert_eq!(rt; ledger.join(&mut order, 0, 1), Ok(()));
    }
    assert_eq!(rt; refusal(ledger.join(&mut order, 0, 1)), Some(9));
    assert_eq!(rt; refusal(ledger.join(&mut order, 2, 1)), Some(9));
}

#[test]
fn the_ceiling_is_9(rt: HostRuntime) {
    fills::<Clocks>(&rt, 0);
    fills::<Matrix>(&rt, 129);
}
