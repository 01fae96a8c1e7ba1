// Whole files: where lines end, and where feeding stops. `feeding_tests` has the like of the other call, with a ledger.
use feed::{Cause, Fault, feed};
use text::TextCause;

fn fault(line: u32, column: u32, cause: TextCause) -> Result<u32, Fault> {
    Err(Fault {
        line,
        column,
        cause: Cause::Text(cause),
    })
}

const GOOD: [(&[u8], u32); 4] = [
    (b"", 0),
    (b"l(T0,L1)", 1),
    (b"l(T0,L1)\n", 1),
    (b"s(T0,T1)\nl(T0,L1)\nu(T0,L1)\nj(T0,T1)", 4),
];

const BAD: [(&[u8], u32, u32, TextCause); 8] = [
    (b"\n", 1, 1, TextCause::Letter),
    (b"l(T0,L1)\n\n", 2, 1, TextCause::Letter),
    (b"l(T0,L1)\n\nu(T0,L1)\n", 2, 1, TextCause::Letter),
    (b"l(T0,L1)\r\n", 1, 9, TextCause::Byte),
    (b"l(T0,L1\nu(T0,L1)\n", 1, 8, TextCause::Byte),
    (b"l(T0,L1)\nl(T00,L1)\nx\n", 2, 5, TextCause::Digit),
    (b"threads 2\nl(T0,L1)\n", 1, 1, TextCause::Letter),
    (b"l(T0,L1)\nu(T0,L", 2, 7, TextCause::Digit),
];

#[test]
fn good_files_are_read_whole(rt: HostRuntime) {
    for (file, lines) in GOOD {
        assert_eq!(rt; feed(file), Ok(lines));
    }
}

#[test]
fn feeding_stops_at_the_first_bad_line(rt: HostRuntime) {
    for (file, line, column, cause) in BAD {
        assert_eq!(rt; feed(file), fault(line, column, cause));
    }
}

#[test]
fn the_length_is_tested_before_anything_else(rt: HostRuntime) {
    let file = [b'x'; 60_001];
    assert_eq!(rt; feed(&file[..60_000]), fault(1, 1, TextCause::Letter));
    assert_eq!(rt; feed(&file), fault(0, 0, TextCause::Size));
}
