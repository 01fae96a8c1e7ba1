// Which rows are edges, and how they ascend.
use rows::Edge;
use sorted_list::{ListCause, Record, SortedList};

// thread, held lock, wanted lock, guards and segment
fn edge(thread: u8, held: u8, wanted: u8, guards: u64, segment: u16) -> Edge {
    Edge {
        thread,
        held,
        wanted,
        guards,
        segment,
    }
}

#[test]
fn rows_are_edges_by_their_numbers(rt: HostRuntime) {
    // whether each row is an edge
    let rows = [
        (edge(0, 0, 1, 1, 0), true),
        (edge(63, 63, 62, 0x8000_0000_0000_0000, 65_535), true),
        (edge(1, 2, 3, 0b0110, 7), true),
        (edge(64, 0, 1, 1, 0), false),
        (edge(0, 64, 1, 1, 0), false),
        (edge(0, 0, 64, 1, 0), false),
        (edge(0, 0, 255, 1, 0), false),
        (edge(0, 2, 1, 1, 0), false),
        (edge(0, 0, 1, 0b11, 0), false),
    ];
    for (row, expected) in rows {
        assert_eq!(rt; row.is_edge(), expected);
    }
    assert!(rt; Edge::blank().is_edge());
}

#[test]
fn edges_ascend_by_all_places(rt: HostRuntime) {
    let mut memory = [edge(9, 9, 9, 9, 9); 5];
    let mut list = SortedList::open(&mut memory);
    let first = edge(0, 1, 2, 2, 0);
    let ascending = [
        first,
        edge(0, 1, 2, 2, 1),
        edge(0, 1, 2, 3, 0),
        edge(0, 1, 3, 2, 0),
        edge(1, 0, 0, 0, 0),
    ];
    for e in ascending.iter().rev() {
        assert_eq!(rt; list.add(*e), Ok(()));
    }
    assert_eq!(rt; list.add(first), Ok(()));
    assert_eq!(rt; list.add(Edge::blank()), Err(ListCause::Full));
    // by place, since `at` is tested too
    for (i, e) in ascending.iter().enumerate() {
        assert_eq!(rt; list.at(i), Some(*e));
    }
}
