// The text of one line, which grows in memory of its own until it is whole, and is then laid into lent memory.
// `write!` would not do: its contract says what it wrote where it succeeds, and not that it does where there is room.
// `within` ties an answer to the memory that was lent, and the room of a text what is still to come to its capacity, so no type says either.
ghost use Rattle.std.specs.Prelude.{◌≡◌, ◌+◌, ◌<◌, ◌≤◌, ◌++◌, length, IfOk, Ok};
ghost use Rattle.arrayvec.specs.ArrayString.{array_string_len};
ghost use Rattle.output.specs.Lines.{answer, memory_after};
ghost use Rattle.output.specs.Texts.{ended};

use crate::OutputCause;
use arrayvec::ArrayString;
use itoa::{Buffer, Integer};

// The least memory for a line, in bytes. No line is longer.
pub const LINE_MEMORY: usize = 1024;

pub(crate) type Text = ArrayString<LINE_MEMORY>;

// A label and a number.
pub(crate) fn put_labelled<I: Integer>(text: &mut Text, label: &str, n: I)
    requires { array_string_len text.old + (length label.now + I.MAX_STR_LEN) ≤ 1024 }
    ensures text { text.new.bytes ≡ text.old.bytes ++ label.now ++ I.text n }
    ensures short { array_string_len text.new ≤ array_string_len text.old + (length label.now + I.MAX_STR_LEN) }
{
    text.push_str(label);
    text.push_str(Buffer::new().format(n));
}

// The newline behind the text, and zeros behind that, up to the end of the memory. Answers the length: the memory is the caller's, so its
// length is not the line's.
pub(crate) fn put_line(mut text: Text, line: &mut [u8]) -> Result<usize, OutputCause>
    requires { array_string_len text < 1024 }
    ensures answer { result ≡ answer (Ok (ended text.bytes)) line.old }
    ensures memory { line.new ≡ memory_after (Ok (ended text.bytes)) line.old }
    ensures within { IfOk result (λ end. end ≤ length line.old) }
{
    if line.len() < LINE_MEMORY {
        return Err(OutputCause::Memory);
    }
    text.push_str("\n");
    let end = text.len();
    line[..end].copy_from_slice(text.as_str().as_bytes());
    line[end..].fill(0);
    Ok(end)
}
