// What accepted events do.
use crate::bench::{enter_all, refusal};
use crate::kept::is_first_small;
use ledger::Ledger;
use order::{Clocks, Matrix, SegmentOrder};
use rows::{Edge, Event, Life};
use sorted_list::{Record, SortedList};
use std::process::Abort;

fn edge(held: u8, wanted: u8, guards: u64, segment: u16) -> Option<Edge> {
    Some(Edge {
        thread: 0,
        held,
        wanted,
        guards,
        segment,
    })
}

// Thread 0 takes L1, starts a thread, and takes L2 and L3 in its next segment.
const NEST: [Event; 4] = [
    Event::Lock(0, 1),
    Event::Start(0, 1),
    Event::Lock(0, 2),
    Event::Lock(0, 3),
];

fn draws<O: SegmentOrder + Drop>(rt: &impl Abort) {
    let mut places = [Edge::blank(); 8];
    let mut edges = SortedList::open(&mut places);
    let mut order = O::fresh();
    let mut ledger = Ledger::fresh();
    enter_all(rt, &mut ledger, &mut edges, &mut order, &NEST);
    assert_eq!(rt; edges.count(), 3);
    assert_eq!(rt; edges.at(0), edge(1, 2, 2, 1));
    assert_eq!(rt; edges.at(1), edge(1, 3, 6, 1));
    assert_eq!(rt; edges.at(2), edge(2, 3, 6, 1));
}

#[test]
fn each_held_lock_draws_an_edge_in_the_present_segment(rt: HostRuntime) {
    draws::<Matrix>(&rt);
    draws::<Clocks>(&rt);
}

#[test]
fn a_present_edge_needs_no_place(rt: HostRuntime) {
    let mut places = [Edge::blank(); 1];
    let mut edges = SortedList::open(&mut places);
    let mut ledger = Ledger::fresh();
    assert_eq!(rt; ledger.lock(&mut edges, 0, 1), Ok(()));
    assert_eq!(rt; ledger.lock(&mut edges, 0, 2), Ok(()));
    assert_eq!(rt; ledger.release(0, 2), Ok(()));
    assert_eq!(rt; ledger.lock(&mut edges, 0, 2), Ok(()));
    assert_eq!(rt; edges.count(), 1);
}

#[test]
fn a_release_closes_the_gap(rt: HostRuntime) {
    let mut places = [Edge::blank(); 8];
    let mut edges = SortedList::open(&mut places);
    let mut ledger = Ledger::fresh();
    for o in 1..4 {
        assert_eq!(rt; ledger.lock(&mut edges, 0, o), Ok(()));
    }
    assert_eq!(rt; ledger.release(0, 2), Ok(()));
    assert_eq!(rt; ledger.held(0, 0), Some(1));
    assert_eq!(rt; ledger.held(0, 1), Some(3));
    assert_eq!(rt; ledger.held(0, 2), None);
    assert!(rt; ledger.holds(0, 3) && !ledger.holds(0, 2));
}

#[test]
fn a_held_lock_is_at_most_63(rt: HostRuntime) {
    let mut places = [Edge::blank(); 1];
    let mut edges = SortedList::open(&mut places);
    let mut ledger = Ledger::fresh();
    assert!(rt; is_first_small(&ledger));
    assert_eq!(rt; ledger.lock(&mut edges, 0, 63), Ok(()));
    assert_eq!(rt; ledger.held(0, 0), Some(63));
    assert!(rt; is_first_small(&ledger));
}

#[test]
fn lock_63_is_the_last(rt: HostRuntime) {
    let mut places = [Edge::blank(); 2];
    let mut edges = SortedList::open(&mut places);
    let mut ledger = Ledger::fresh();
    assert_eq!(rt; ledger.lock(&mut edges, 0, 63), Ok(()));
    assert_eq!(rt; refusal(ledger.lock(&mut edges, 0, 64)), Some(1));
    assert_eq!(rt; ledger.lock(&mut edges, 0, 0), Ok(()));
    assert_eq!(rt; edges.at(0), edge(63, 0, 9_223_372_036_854_775_808, 0));
}

// Thread 0 starts 2 and then 1; 2 joins 1, which did nothing, and so comes after what 0 did before it started 1.
const IDLE: [Event; 3] = [Event::Start(0, 2), Event::Start(0, 1), Event::Join(2, 1)];

fn passes_on<O: SegmentOrder + Drop>(rt: &impl Abort) {
    let mut places = [Edge::blank(); 0];
    let mut edges = SortedList::open(&mut places);
    let mut order = O::fresh();
    let mut ledger = Ledger::fresh();
    enter_all(rt, &mut ledger, &mut edges, &mut order, &IDLE);
    assert_eq!(rt; ledger.state(1), Some(Life::Joined));
    assert_eq!(rt; ledger.segment(0), Some(3));
    assert_eq!(rt; ledger.segment(1), Some(4));
    assert_eq!(rt; ledger.segment(2), Some(5));
    assert!(rt; order.precedes(1, 5) && order.precedes(4, 5) && !order.precedes(3, 5));
    assert_eq!(rt; ledger.join(&mut order, 0, 1), Ok(()));
    assert_eq!(rt; ledger.segment(0), Some(6));
}

#[test]
fn an_idle_joined_thread_passes_its_order_on(rt: HostRuntime) {
    passes_on::<Matrix>(&rt);
    passes_on::<Clocks>(&rt);
}
