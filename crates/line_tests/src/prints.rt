// Odds, and the line for a fault. `feeding_tests` has these too (docs/DECISIONS.md).
use feed::{Cause, Fault};
use output::{OutputCause, fault_line, odds};
use text::TextCause;

const ODDS: [(u32, u32, u32); 8] = [
    (2, 1, 5000),
    (3, 1, 2222),
    (4, 1, 937),
    (4, 3, 312),
    (4, 8, 117),
    (12, 1, 0),
    (16, 1, 0),
    (64, 8, 0),
];

const NO_ODDS: [(u32, u32); 4] = [(1, 1), (65, 1), (2, 0), (2, 9)];

#[test]
fn odds_are_rounded_down(rt: HostRuntime) {
    for (k, n, expected) in ODDS {
        assert_eq!(rt; odds(k, n), Ok(expected));
    }
    for (k, n) in NO_ODDS {
        assert_eq!(rt; odds(k, n), Err(OutputCause::Odds));
    }
}

#[test]
fn a_fault_line_fills_its_memory(rt: HostRuntime) {
    let fault = Fault {
        line: 4_294_967_295,
        column: 10,
        cause: Cause::Text(TextCause::Byte),
    };
    let mut line = [7u8; 1024];
    let text = b"line 4294967295 column 10 layer text cause 15\n";
    assert_eq!(rt; fault_line(&fault, &mut line), Ok(text.len()));
    assert!(rt; line.starts_with(text));
    assert!(rt; line[text.len()..].iter().all(|b| *b == 0));
}

#[test]
fn short_memory_is_left_as_it_was(rt: HostRuntime) {
    let fault = Fault {
        line: 1,
        column: 1,
        cause: Cause::Text(TextCause::Letter),
    };
    let mut line = [7u8; 1023];
    assert_eq!(rt; fault_line(&fault, &mut line), Err(OutputCause::Memory));
    assert_eq!(rt; line, [7; 1023]);
}
