// The line of a circle, with its odds: `T0:L1>L2 T1:L2>L1 odds 5000`.
ghost use Rattle.std.specs.Prelude.{◌≡◌, ◌+◌, ◌*◌, ◌≤◌, length, IfOk};
ghost use Rattle.arrayvec.specs.ArrayString.{array_string_len};
ghost use Rattle.rows.specs.Circles.{steps_of};
ghost use Rattle.output.specs.Lines.{answer, memory_after};
ghost use Rattle.output.specs.Texts.{stepped, all_stepped, steps_text, circle_text};

use crate::line::{Text, put_labelled, put_line};
use crate::{OutputCause, odds};
use rows::{Circle, CircleRow, Step};

// One step and a blank, at most 15 bytes.
fn put_step(text: &mut Text, step: &Step)
    requires { array_string_len text.old + 15 ≤ 1024 }
    ensures text { text.new.bytes ≡ stepped text.old.bytes step.now }
    ensures short { array_string_len text.new ≤ array_string_len text.old + 15 }
{
    put_labelled(text, "T", step.thread);
    put_labelled(text, ":L", step.held);
    put_labelled(text, ">L", step.wanted);
    text.push_str(" ");
}

// The steps in turn.
fn put_steps(text: &mut Text, steps: &[Step])
    requires { array_string_len text.old + 15 * length steps.now ≤ 1024 }
    ensures text { text.new.bytes ≡ all_stepped text.old.bytes steps.now }
    ensures short { array_string_len text.new ≤ array_string_len text.old + 15 * length steps.now }
{
    for step in steps {
        put_step(text, step);
    }
}

// The line of these steps, with their odds at n. Without odds there is no line.
fn steps_line(steps: &[Step], n: u32, line: &mut [u8]) -> Result<usize, OutputCause>
    requires { length steps.now ≤ 64 }
    ensures answer { result ≡ answer (steps_text steps.now n) line.old }
    ensures memory { line.new ≡ memory_after (steps_text steps.now n) line.old }
    ensures within { IfOk result (λ end. end ≤ length line.old) }
{
    let chance = odds(steps.len() as u32, n)?;
    let mut text = Text::new();
    put_steps(&mut text, steps);
    put_labelled(&mut text, "odds ", chance);
    put_line(text, line)
}

// The counted steps.
fn counted(row: &CircleRow) -> &[Step]
    requires { row.now.count ≤ 64 }
    ensures { result.now ≡ steps_of row.now }
{
    &row.steps[..usize::from(row.count)]
}

// Writes the line with its newline, and zeros behind it, and answers its length.
// The blank circle has no odds, and no circle has any at n outside 1 to 8.
// Where that is so, and where there are less than LINE_MEMORY bytes, the memory is left as it was.
pub fn circle_line(circle: &Circle, n: u32, line: &mut [u8]) -> Result<usize, OutputCause>
    ensures answer { result ≡ answer (circle_text circle.now n) line.old }
    ensures memory { line.new ≡ memory_after (circle_text circle.now n) line.old }
    ensures within { IfOk result (λ end. end ≤ length line.old) }
{
    let row = circle.row();
    steps_line(counted(&row), n, line)
}
