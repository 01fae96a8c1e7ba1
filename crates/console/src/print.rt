// Printing lines.
ghost use Rattle.std.specs.Prelude.{◌≡◌, ℕ, ◌≤◌, List, replicate, length, Result, Ok, IfOk, OnOk};
ghost use Rattle.std.specs.Fn.{FnOnceReturnsAtMut};
ghost use Rattle.std.specs.Io.KnownBytes.{Appends};
ghost use Rattle.output.specs.Texts.{circle_text, count_text, fault_text, line_or_none};
ghost use Rattle.output.specs.declared.cause.OutputCause.{OutputCause};
ghost use Rattle.console.specs.Printed.{front};

use feed::Fault;
use output::{LINE_MEMORY, OutputCause, answer_line, circle_line, fault_line};
use recording::Answer;
use rows::Circle;
use std::io;
use std::io::Write;

// Writes the line that is put into the memory, and nothing where none is.
fn print_line<W: Write, F: FnOnce(&mut [u8]) -> Result<usize, OutputCause>>(
    out: &mut W,
    put: F,
) -> io::Result<()>
    requires callable { F.IsAlwaysCallable put }
    requires within { (end : Result ℕ OutputCause) (line : List ℕ) → FnOnceReturnsAtMut F.FnOnce put (replicate 1024 0) end line → IfOk end (λ n. n ≤ 1024) }
    ensures { OnOk result ((end : Result ℕ OutputCause) × (line : List ℕ) × FnOnceReturnsAtMut F.FnOnce put (replicate 1024 0) end line
        × Appends (W.contents out.old) (W.contents out.new) (front line end)) }
{
    let mut line = [0; LINE_MEMORY];
    let Ok(end) = put(&mut line) else {
        return Ok(());
    };
    out.write_all(&line[..end])?;
    Ok(())
}

// A circle, with its odds at n, where it has odds.
#[tactic(auto, using(crate::proofs::Printed::front_text))]
pub fn print_circle<W: Write>(out: &mut W, circle: &Circle, n: u32) -> io::Result<()>
    ensures { OnOk result (Appends (W.contents out.old) (W.contents out.new) (line_or_none (circle_text circle.now n))) }
{
    print_line(out, |line| circle_line(circle, n, line))
}

pub fn print_answer<W: Write>(out: &mut W, answer: &Answer) -> io::Result<()>
    ensures { OnOk result (Appends (W.contents out.old) (W.contents out.new) (count_text answer.now.circles answer.now.chains)) }
{
    print_line(out, |line| answer_line(answer.circles, answer.chains, line))
}

pub fn print_fault<W: Write>(out: &mut W, fault: &Fault) -> io::Result<()>
    ensures { OnOk result (Appends (W.contents out.old) (W.contents out.new) (fault_text fault.now)) }
{
    print_line(out, |line| fault_line(fault, line))
}
