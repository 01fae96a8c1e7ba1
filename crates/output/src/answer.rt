// The line with what a recording comes to: `circles 1 chains 3`.
ghost use Rattle.std.specs.Prelude.{◌≡◌, ◌≤◌, length, IfOk, Ok};
ghost use Rattle.output.specs.Lines.{answer, memory_after};
ghost use Rattle.output.specs.Texts.{count_text};

use crate::OutputCause;
use crate::line::{Text, put_labelled, put_line};

// Writes the line with its newline, and zeros behind it, and answers its length.
// Memory of less than LINE_MEMORY bytes is left as it was.
pub fn answer_line(circles: u32, chains: u32, line: &mut [u8]) -> Result<usize, OutputCause>
    ensures answer { result ≡ answer (Ok (count_text circles chains)) line.old }
    ensures memory { line.new ≡ memory_after (Ok (count_text circles chains)) line.old }
    ensures within { IfOk result (λ end. end ≤ length line.old) }
{
    let mut text = Text::new();
    put_labelled(&mut text, "circles ", circles);
    put_labelled(&mut text, " chains ", chains);
    put_line(text, line)
}
