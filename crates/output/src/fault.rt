// The line for a fault: `line 3 column 1 layer ledger cause 5`.
ghost use Rattle.std.specs.Prelude.{◌≡◌, ◌≤◌, length, IfOk, Ok};
ghost use Rattle.output.specs.Lines.{answer, memory_after};
ghost use Rattle.output.specs.Texts.{fault_text};

use crate::OutputCause;
use crate::line::{Text, put_labelled, put_line};
use feed::Fault;

// Writes the line with its newline, and zeros behind it, and answers its length.
// Memory of less than LINE_MEMORY bytes is left as it was.
pub fn fault_line(fault: &Fault, line: &mut [u8]) -> Result<usize, OutputCause>
    ensures answer { result ≡ answer (Ok (fault_text fault.now)) line.old }
    ensures memory { line.new ≡ memory_after (Ok (fault_text fault.now)) line.old }
    ensures within { IfOk result (λ n. n ≤ length line.old) }
{
    let mut text = Text::new();
    put_labelled(&mut text, "line ", fault.line);
    put_labelled(&mut text, " column ", fault.column);
    text.push_str(" layer ");
    text.push_str(fault.cause.layer());
    put_labelled(&mut text, " cause ", fault.cause.number());
    put_line(text, line)
}
