// Good and bad lines, with the columns of their faults.
use rows::Event;
use text::{LineFault, TextCause, read_line};

const LINE: [u8; 8] = *b"l(T0,L1)";

// What is wrong where a byte of LINE is, or is missing: apart from LINE, so that its text can be read.
const CAUSES: [TextCause; 8] = [
    TextCause::Letter,
    TextCause::Byte,
    TextCause::Byte,
    TextCause::Digit,
    TextCause::Byte,
    TextCause::Byte,
    TextCause::Digit,
    TextCause::Byte,
];

fn fault(column: u32, cause: TextCause) -> Result<Event, LineFault> {
    Err(LineFault { column, cause })
}

#[test]
fn every_kind_is_read(rt: HostRuntime) {
    assert_eq!(rt; read_line(b"l(T0,L1)"), Ok(Event::Lock(0, 1)));
    assert_eq!(rt; read_line(b"u(T12,L345)"), Ok(Event::Release(12, 345)));
    assert_eq!(rt; read_line(b"s(T63,T64)"), Ok(Event::Start(63, 64)));
    assert_eq!(rt; read_line(b"j(T999,T0)"), Ok(Event::Join(999, 0)));
}

#[test]
fn a_damaged_byte_is_the_fault(rt: HostRuntime) {
    for (i, cause) in CAUSES.into_iter().enumerate() {
        let mut line = LINE;
        line[i] = b'#';
        assert_eq!(rt; read_line(&line), fault(i as u32 + 1, cause));
    }
}

#[test]
fn a_line_cut_short_is_at_fault_one_past_it(rt: HostRuntime) {
    for (i, cause) in CAUSES.into_iter().enumerate() {
        assert_eq!(rt; read_line(&LINE[..i]), fault(i as u32 + 1, cause));
    }
}

// Bad lines, each with the column and the cause of its fault.
const BAD: [(&[u8], u32, TextCause); 20] = [
    (b"", 1, TextCause::Letter),
    (b" l(T0,L1)", 1, TextCause::Letter),
    (b"\tl(T0,L1)", 1, TextCause::Letter),
    (b"L(T0,L1)", 1, TextCause::Letter),
    (b"x(T0,L1)", 1, TextCause::Letter),
    (b"l (T0,L1)", 2, TextCause::Byte),
    (b"lock(T0,L1)", 2, TextCause::Byte),
    (b"l(t0,L1)", 3, TextCause::Byte),
    (b"l(T,L1)", 4, TextCause::Digit),
    (b"l(T-1,L1)", 4, TextCause::Digit),
    (b"l(T00,L1)", 5, TextCause::Digit),
    (b"l(T01,L1)", 5, TextCause::Digit),
    (b"l(T1000,L1)", 7, TextCause::Digit),
    (b"l(T0\t,L1)", 5, TextCause::Byte),
    (b"l(T0,T1)", 6, TextCause::Byte),
    (b"s(T0,L1)", 6, TextCause::Byte),
    (b"l(T0,l1)", 6, TextCause::Byte),
    (b"l(T0,L1))", 9, TextCause::Byte),
    (b"l(T0,L1)\r", 9, TextCause::Byte),
    (b"l(T0,L1) ", 9, TextCause::Byte),
];

#[test]
fn the_leftmost_wrong_byte_decides(rt: HostRuntime) {
    for (line, column, cause) in BAD {
        assert_eq!(rt; read_line(line), fault(column, cause));
    }
}
