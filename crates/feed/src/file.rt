// Feeding a whole file.
ghost use Rattle.std.specs.Prelude.{◌≡◌, ℕ, ◌≤◌, ◌⊎◌, ◌↔◌, List, length, Ok, Err};
ghost use Rattle.text.specs.Lines.{reading};
ghost use Rattle.feed.specs.Files.{at_line, events_from, events, counted, Says, FirstFault, TooLong};
ghost use Rattle.feed.specs.Lines.{lines};

use crate::cut::Lines;
use crate::fault::{Cause, Fault};
use rows::Event;
use text::read_line;

// The most bytes that a recording may have.
pub const LONGEST: usize = 60_000;

// The event that the line with this number says.
fn event_at(line: u32, bytes: &[u8]) -> Result<Event, Fault>
    ensures { result ≡ at_line line (reading bytes.now) }
{
    read_line(bytes).map_err(|fault| Fault {
        line,
        column: fault.column,
        cause: Cause::Text(fault.cause),
    })
}

// Reads every line, up to the first fault, and answers how many there are. `feeding` has this loop over another step; why it is not
// shared stands there.
fn feed_lines(file: &[u8]) -> Result<u32, Fault>
    requires { length file.now ≤ 60000 }
    ensures { result ≡ counted (events_from 1 (lines file.now)) }
{
    // Counted here, and not by `enumerate`: after the last line the count is the answer.
    let mut line: u32 = 0;
    for bytes in Lines::of(file) {
        line += 1;
        event_at(line, bytes)?;
    }
    Ok(line)
}

// Reads a whole file, up to the first fault, and answers how many events it says, one on each line.
pub fn feed(file: &[u8]) -> Result<u32, Fault>
    ensures value { result ≡ counted (events file.now) }
    ensures said { (n : ℕ) → (result ≡ Ok n) ↔ ((es : List Event) × Says file.now es × (length es ≡ n)) }
    ensures stops { (f : Fault) → result ≡ Err f → TooLong file.now f ⊎ FirstFault file.now f }
{
    if file.len() > LONGEST {
        return Err(Fault::TOO_LONG);
    }
    feed_lines(file)
}
