// The reader of numbers.
ghost use Rattle.std.specs.Prelude.{◌≡◌, ◌≤◌, length};
ghost use Rattle.text.specs.Numbers.{run, numeral, misplaced};

// A number at the front of some bytes, and how many digits it has.
#[derive(Clone, Copy)]
pub(crate) struct Numeral {
    pub value: u16,
    pub digits: u32,
}

// How many digits the bytes begin with.
fn digit_run(bytes: &[u8]) -> usize
    ensures value { result ≡ run bytes.now }
    ensures within { result ≤ length bytes.now }
{
    bytes.iter().take_while(|b| b.is_ascii_digit()).count()
}

// The number that the bytes begin with: one to three digits, with no needless zero in front.
pub(crate) fn number(bytes: &[u8]) -> Option<Numeral>
    ensures { result ≡ numeral bytes.now }
{
    let digits = &bytes[..digit_run(bytes)];
    match digits {
        [_] | [b'1'..=b'9', _] | [b'1'..=b'9', _, _] => Some(Numeral {
            value: str::from_utf8(digits).ok()?.parse().ok()?,
            digits: digits.len() as u32,
        }),
        _ => None,
    }
}

// Where bytes that begin with no number cease to begin one: no digit at all, a digit after a leading zero, or the fourth digit.
pub(crate) fn wrong_digit(bytes: &[u8]) -> u32
    ensures { result ≡ misplaced bytes.now }
{
    match bytes {
        [b'0', ..] => 1,
        [b'1'..=b'9', ..] => 3,
        _ => 0,
    }
}
