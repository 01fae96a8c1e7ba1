// Whole files: where lines end, and where feeding stops.
use feeding::{Cause, Fault, feed};
use ledger::Ledger;
use order::{Clocks, Matrix, OrderCause, SegmentOrder};
use rows::{Edge, Life};
use rules::LedgerCause;
use sorted_list::{Record, SortedList};
use std::array;
use text::TextCause;

fn fault(line: u32, column: u32, cause: Cause) -> Result<u32, Fault> {
    Err(Fault {
        line,
        column,
        cause,
    })
}

// Feeds a file into a fresh ledger.
fn feed_fresh<O: SegmentOrder + Drop>(file: &[u8]) -> Result<u32, Fault> {
    let mut places = [Edge::blank(); 1];
    let mut edges = SortedList::open(&mut places);
    feed(&mut Ledger::fresh(), &mut edges, &mut O::fresh(), file)
}

const GOOD: [(&[u8], u32); 4] = [
    (b"", 0),
    (b"l(T0,L1)", 1),
    (b"l(T0,L1)\n", 1),
    (b"s(T0,T1)\nl(T0,L1)\nu(T0,L1)\nj(T0,T1)", 4),
];

const BAD: [(&[u8], u32, u32, Cause); 16] = [
    (b"\n", 1, 1, Cause::Text(TextCause::Letter)),
    (b"l(T0,L1)\n\n", 2, 1, Cause::Text(TextCause::Letter)),
    (b"l(T0,L1)\r\n", 1, 9, Cause::Text(TextCause::Byte)),
    (b"l(T0,L1\nu(T0,L1)\n", 1, 8, Cause::Text(TextCause::Byte)),
    (
        b"l(T0,L1)\nl(T00,L1)\nx\n",
        2,
        5,
        Cause::Text(TextCause::Digit),
    ),
    (
        b"threads 2\nl(T0,L1)\n",
        1,
        1,
        Cause::Text(TextCause::Letter),
    ),
    (b"l(T0,L1)\nu(T0,L", 2, 7, Cause::Text(TextCause::Digit)),
    (b"l(T0,L64)\n", 1, 1, Cause::Ledger(LedgerCause::Number)),
    (
        b"l(T0,L1)\nu(T1,L1)\nx\n",
        2,
        1,
        Cause::Ledger(LedgerCause::NotLive),
    ),
    (
        b"l(T0,L1)\nl(T0,L1)\n",
        2,
        1,
        Cause::Ledger(LedgerCause::Holding),
    ),
    (
        b"s(T0,T1)\nl(T1,L1)\nl(T0,L1)\n",
        3,
        1,
        Cause::Ledger(LedgerCause::Taken),
    ),
    (b"u(T0,L1)", 1, 1, Cause::Ledger(LedgerCause::NotHeld)),
    (b"s(T0,T0)", 1, 1, Cause::Ledger(LedgerCause::NotUnborn)),
    (b"j(T0,T1)", 1, 1, Cause::Ledger(LedgerCause::NotStarted)),
    (
        b"l(T0,L1)\nl(T0,L2)\nl(T0,L3)\n",
        3,
        1,
        Cause::Ledger(LedgerCause::Edges),
    ),
    (
        b"l(T0,L1)\nl(T999,L1000)\n",
        2,
        12,
        Cause::Text(TextCause::Digit),
    ),
];

#[test]
fn good_files_are_taken_whole(rt: HostRuntime) {
    for (file, lines) in GOOD {
        assert_eq!(rt; feed_fresh::<Matrix>(file), Ok(lines));
    }
}

#[test]
fn feeding_stops_at_the_first_bad_line(rt: HostRuntime) {
    for (file, line, column, cause) in BAD {
        assert_eq!(rt; feed_fresh::<Matrix>(file), fault(line, column, cause));
        assert_eq!(rt; feed_fresh::<Clocks>(file), fault(line, column, cause));
    }
}

#[test]
fn the_length_is_tested_before_anything_else(rt: HostRuntime) {
    let file = [b'x'; 60_001];
    assert_eq!(rt;
        feed_fresh::<Matrix>(&file[..60_000]),
        fault(1, 1, Cause::Text(TextCause::Letter))
    );
    assert_eq!(rt;
        feed_fresh::<Matrix>(&file),
        fault(0, 0, Cause::Text(TextCause::Size))
    );
}

// T0 starts T1, and then joins it again and again, in 200 lines.
fn joins() -> [u8; 1800] {
    let mut file = array::from_fn(|i| b"j(T0,T1)\n"[i % 9]);
    file[0] = b's';
    file
}

#[test]
fn the_ceiling_of_the_order_is_a_fault_too(rt: HostRuntime) {
    assert_eq!(rt; feed_fresh::<Matrix>(&joins()), Ok(200));
    assert_eq!(rt;
        feed_fresh::<Clocks>(&joins()),
        fault(126, 1, Cause::Order(OrderCause::Ceiling))
    );
}

#[test]
fn the_lines_before_a_fault_stay_taken(rt: HostRuntime) {
    let mut places = [Edge::blank(); 4];
    let mut edges = SortedList::open(&mut places);
    let mut ledger = Ledger::fresh();
    let mut order = Matrix::fresh();
    let file = b"s(T0,T1)\nl(T1,L2)\nl(T0,L2)\nl(T0,L3)\n";
    let answer = feed(&mut ledger, &mut edges, &mut order, file);
    assert_eq!(rt; answer, fault(3, 1, Cause::Ledger(LedgerCause::Taken)));
    assert_eq!(rt; ledger.state(1), Some(Life::Live));
    assert_eq!(rt; ledger.segment(0), Some(1));
    assert!(rt; ledger.holds(1, 2) && !ledger.holds(0, 3));
    assert!(rt; order.precedes(0, 2));
    assert_eq!(rt; edges.count(), 0);
}
