// Lists of pairs. What the memory then holds is compared as a whole.
use crate::fill::fill;
use crate::pair::Pair;
use sorted_list::{ListCause, SortedList};

const BLANK: Pair = Pair { left: 0, right: 0 };

const A: Pair = Pair { left: 1, right: 9 };

const B: Pair = Pair { left: 2, right: 3 };

const C: Pair = Pair { left: 2, right: 4 };

// What is added to three places, how many records stand there then, and the places.
const FILLS: [(&[Pair], usize, [Pair; 3]); 12] = [
    (&[], 0, [BLANK, BLANK, BLANK]),
    (&[B], 1, [B, BLANK, BLANK]),
    (&[A, B, C], 3, [A, B, C]),
    (&[A, C, B], 3, [A, B, C]),
    (&[B, A, C], 3, [A, B, C]),
    (&[B, C, A], 3, [A, B, C]),
    (&[C, A, B], 3, [A, B, C]),
    (&[C, B, A], 3, [A, B, C]),
    // present ones, in a list with room and in a full one
    (&[B, A, B, A], 2, [A, B, BLANK]),
    (&[C, A, B, A, C], 3, [A, B, C]),
    // the blank is a record like any other where it is added, and is refused like any other
    (&[A, BLANK], 2, [BLANK, A, BLANK]),
    (&[A, B, C, BLANK], 3, [A, B, C]),
];

#[test]
fn records_ascend_in_front_of_blanks(rt: HostRuntime) {
    for (records, count, after) in FILLS {
        let mut places = [C; 3];
        assert_eq!(rt; fill(&mut places, records), count);
        assert_eq!(rt; places, after);
    }
}

#[test]
fn no_places_take_no_record(rt: HostRuntime) {
    let mut places: [Pair; 0] = [];
    let mut list = SortedList::open(&mut places);
    assert_eq!(rt; list.capacity(), 0);
    assert_eq!(rt; list.add(BLANK), Err(ListCause::Full));
}

#[test]
fn a_full_list_refuses_only_absent_records(rt: HostRuntime) {
    let mut places = [BLANK; 1];
    let mut list = SortedList::open(&mut places);
    assert_eq!(rt; list.add(B), Ok(()));
    assert_eq!(rt; list.add(B), Ok(()));
    assert_eq!(rt; list.add(A), Err(ListCause::Full));
    assert_eq!(rt; ListCause::Full.number(), 11);
}

#[test]
fn only_counted_places_are_records(rt: HostRuntime) {
    let mut places = [A; 2];
    let mut list = SortedList::open(&mut places);
    assert!(rt; !list.contains(&BLANK));
    assert_eq!(rt; list.at(0), None);
    assert_eq!(rt; list.add(BLANK), Ok(()));
    assert!(rt; list.contains(&BLANK));
    assert_eq!(rt; list.at(0), Some(BLANK));
}

#[test]
fn a_cleared_list_is_blank(rt: HostRuntime) {
    let mut places = [A; 2];
    let mut list = SortedList::open(&mut places);
    assert_eq!(rt; list.add(B), Ok(()));
    list.clear();
    assert_eq!(rt; list.count(), 0);
    assert_eq!(rt; places, [BLANK, BLANK]);
}
