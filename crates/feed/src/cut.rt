// Cutting a file into its lines.
ghost use Rattle.std.specs.Prelude.{◌≡◌, ℕ, List};
ghost use Rattle.std.specs.Iterator.{YieldsFirstRef, item_count};
ghost use Rattle.feed.specs.Lines.{first_of, later_of, lines};

use std::marker::Model;

const NEWLINE: u8 = b'\n';

// The bytes before the first newline, and those after it.
pub fn first_line(bytes: &[u8]) -> (&[u8], &[u8])
    ensures line { result.0.now ≡ first_of bytes.now }
    ensures later { result.1.now ≡ later_of bytes.now }
{
    match bytes.iter().position(|b| *b == NEWLINE) {
        Some(end) => (&bytes[..end], &bytes[end + 1..]),
        None => (bytes, &[]),
    }
}

// The lines of a file that are still to come.
#[derive(Drop)]
pub struct Lines<'a> {
    rest: &'a [u8],
}

impl<'a> Model for Lines<'a> {
    ghost Value = { List (List ℕ) };

    ghost view = { λ l. lines l.rest.now };
}

impl<'a> Lines<'a> {
    pub fn of(file: &'a [u8]) -> Lines<'a>
        ensures { result ≡ lines file.now }
    {
        Lines { rest: file }
    }
}

impl<'a> Iterator for Lines<'a> {
    type Item = &'a [u8];

    ghost next_gives = { YieldsFirstRef (λ ls. ls) };

    ghost remaining = { item_count (λ ls. ls) };

    fn next(&mut self) -> Option<&'a [u8]> {
        if self.rest.is_empty() {
            return None;
        }
        let (line, later) = first_line(self.rest);
        self.rest = later;
        Some(line)
    }
}
