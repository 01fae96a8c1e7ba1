// Which rows are circles, and how they ascend.
use rows::{Circle, CircleRow, Step};
use sorted_list::{Record, SortedList};

const NONE: Step = Step::ZERO;

fn step(thread: u8, held: u8, wanted: u8) -> Step {
    Step {
        thread,
        held,
        wanted,
    }
}

// A row of up to three steps.
fn row(count: u8, first: [Step; 3]) -> CircleRow {
    let mut steps = [NONE; 64];
    steps[..3].copy_from_slice(&first);
    CircleRow { count, steps }
}

#[test]
fn circles_close_up(rt: HostRuntime) {
    let two = row(2, [step(0, 1, 2), step(1, 2, 1), NONE]);
    let three = row(3, [step(0, 1, 2), step(2, 2, 3), step(1, 3, 1)]);
    for circle in [CircleRow::blank(), two, three] {
        assert!(rt; circle.is_circle());
    }
    let others = [
        ("one step", row(1, [step(0, 1, 1), NONE, NONE])),
        ("open", row(2, [step(0, 1, 2), step(1, 2, 3), NONE])),
        ("not linked", row(2, [step(0, 1, 2), step(1, 3, 1), NONE])),
        (
            "one thread twice",
            row(2, [step(0, 1, 2), step(0, 2, 1), NONE]),
        ),
        (
            "smallest not first",
            row(2, [step(1, 2, 1), step(0, 1, 2), NONE]),
        ),
        (
            "not zero behind",
            row(2, [step(0, 1, 2), step(1, 2, 1), step(0, 0, 1)]),
        ),
        ("too many", row(65, [NONE, NONE, NONE])),
    ];
    for (why, other) in others {
        assert!(rt; !other.is_circle(), "{why}");
    }
}

#[test]
fn a_row_that_is_no_circle_gives_the_blank_one(rt: HostRuntime) {
    let good = row(2, [step(0, 1, 2), step(1, 2, 1), NONE]);
    let bad = row(2, [step(0, 1, 2), step(1, 2, 3), NONE]);
    assert_eq!(rt; Circle::from_row(good).row(), good);
    assert_eq!(rt; Circle::from_row(bad).row(), CircleRow::blank());
}

#[test]
fn rows_ascend_by_count_then_by_steps(rt: HostRuntime) {
    let mut memory = [CircleRow::blank(); 4];
    let mut list = SortedList::open(&mut memory);
    let ascending = [
        CircleRow::blank(),
        row(2, [step(0, 1, 2), step(1, 2, 1), NONE]),
        row(2, [step(0, 2, 1), step(1, 1, 2), NONE]),
        row(3, [step(0, 1, 2), step(1, 2, 3), step(2, 3, 1)]),
    ];
    for r in ascending.iter().rev() {
        assert!(rt; list.add(*r).is_ok());
    }
    // by place, since `at` is tested too
    for (i, r) in ascending.iter().enumerate() {
        assert_eq!(rt; list.at(i), Some(*r));
    }
    assert_eq!(rt; list.count(), 4);
}
