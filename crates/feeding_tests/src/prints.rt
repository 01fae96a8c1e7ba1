// Odds, and printed lines. `line_tests` has the odds and the line of a text fault too (docs/DECISIONS.md).
use feed::{Cause, Fault};
use output::{OutputCause, answer_line, circle_line, fault_line, odds};
use rows::{Circle, CircleRow, Step};
use sorted_list::Record;
use std::array;
use std::process::Abort;
use text::TextCause;

const ODDS: [(u32, u32, u32); 8] = [
    (2, 1, 5000),
    (3, 1, 2222),
    (4, 1, 937),
    (4, 3, 312),
    (4, 8, 117),
    (12, 1, 0),
    (16, 1, 0),
    (64, 8, 0),
];

const NO_ODDS: [(u32, u32); 4] = [(1, 1), (65, 1), (2, 0), (2, 9)];

#[test]
fn odds_are_rounded_down(rt: HostRuntime) {
    for (k, n, expected) in ODDS {
        assert_eq!(rt; odds(k, n), Ok(expected));
    }
    for (k, n) in NO_ODDS {
        assert_eq!(rt; odds(k, n), Err(OutputCause::Odds));
    }
}

// The memory holds the text, and zeros behind it.
fn check_line(rt: &impl Abort, line: &[u8], text: &[u8]) {
    let rest = line.strip_prefix(text);
    assert!(rt; rest.is_some_and(|rest| rest.iter().all(|b| *b == 0)));
}

// The memory is as it was made.
fn check_untouched(rt: &impl Abort, line: &[u8]) {
    assert!(rt; line.iter().all(|b| *b == 7));
}

#[test]
fn a_fault_line_fills_its_memory(rt: HostRuntime) {
    let fault = Fault {
        line: 4_294_967_295,
        column: 10,
        cause: Cause::Text(TextCause::Byte),
    };
    let mut line = [7u8; 1024];
    let text = b"line 4294967295 column 10 layer text cause 15\n";
    assert_eq!(rt; fault_line(&fault, &mut line), Ok(text.len()));
    check_line(&rt, &line, text);
}

#[test]
fn short_memory_is_left_as_it_was(rt: HostRuntime) {
    let fault = Fault {
        line: 1,
        column: 1,
        cause: Cause::Text(TextCause::Letter),
    };
    let mut line = [7u8; 1023];
    assert_eq!(rt; fault_line(&fault, &mut line), Err(OutputCause::Memory));
    assert_eq!(rt; answer_line(0, 0, &mut line), Err(OutputCause::Memory));
    assert_eq!(rt;
        circle_line(&two_steps(), 1, &mut line),
        Err(OutputCause::Memory)
    );
    check_untouched(&rt, &line);
}

fn two_steps() -> Circle {
    let mut steps = [Step::ZERO; 64];
    steps[0] = Step {
        thread: 0,
        held: 1,
        wanted: 2,
    };
    steps[1] = Step {
        thread: 1,
        held: 2,
        wanted: 1,
    };
    Circle::from_row(CircleRow { count: 2, steps })
}

// Each thread wants the lock of the next, and all numbers have three digits.
fn longest() -> Circle {
    let steps = array::from_fn(|i| {
        let i = i as u8;
        Step {
            thread: 192 + i,
            held: 192 + i,
            wanted: 192 + (i + 1) % 64,
        }
    });
    Circle::from_row(CircleRow { count: 64, steps })
}

fn blank() -> Circle {
    Circle::from_row(CircleRow::blank())
}

#[test]
fn a_circle_line_has_its_steps_and_odds(rt: HostRuntime) {
    let mut line = [7u8; 1024];
    let text = b"T0:L1>L2 T1:L2>L1 odds 5000\n";
    assert_eq!(rt; circle_line(&two_steps(), 1, &mut line), Ok(text.len()));
    check_line(&rt, &line, text);
    let text = b"T0:L1>L2 T1:L2>L1 odds 625\n";
    assert_eq!(rt; circle_line(&two_steps(), 8, &mut line), Ok(text.len()));
    check_line(&rt, &line, text);
}

#[test]
fn the_longest_circle_line_fits(rt: HostRuntime) {
    let mut line = [7u8; 1024];
    assert_eq!(rt; circle_line(&longest(), 1, &mut line), Ok(967));
    assert_eq!(rt; &line[0..30], b"T192:L192>L193 T193:L193>L194 ".as_slice());
    check_line(&rt, &line[945..], b"T255:L255>L192 odds 0\n");
}

#[test]
fn without_odds_there_is_no_circle_line(rt: HostRuntime) {
    let mut line = [7u8; 1024];
    assert_eq!(rt; circle_line(&blank(), 1, &mut line), Err(OutputCause::Odds));
    assert_eq!(rt;
        circle_line(&two_steps(), 0, &mut line),
        Err(OutputCause::Odds)
    );
    assert_eq!(rt;
        circle_line(&two_steps(), 9, &mut line),
        Err(OutputCause::Odds)
    );
    check_untouched(&rt, &line);
}

#[test]
fn odds_are_looked_at_before_the_memory(rt: HostRuntime) {
    let mut line = [7u8; 1023];
    assert_eq!(rt; circle_line(&blank(), 1, &mut line), Err(OutputCause::Odds));
    check_untouched(&rt, &line);
}

#[test]
fn an_answer_line_has_both_numbers(rt: HostRuntime) {
    let mut line = [7u8; 1024];
    let text = b"circles 4294967295 chains 4294967295\n";
    assert_eq!(rt;
        answer_line(4_294_967_295, 4_294_967_295, &mut line),
        Ok(text.len())
    );
    check_line(&rt, &line, text);
    let text = b"circles 0 chains 0\n";
    assert_eq!(rt; answer_line(0, 0, &mut line), Ok(text.len()));
    check_line(&rt, &line, text);
}
