// The reader of lines.
ghost use Rattle.std.specs.Prelude.{◌≡◌, ◌↔◌, ◌∷◌, Ok, Err};
ghost use Rattle.text.specs.declared.fault.TextCause.TheVariants.{Letter};
ghost use Rattle.text.specs.Lines.{reading, Says, Leftmost};
ghost use Rattle.text.specs.Pieces.{wrong};

use crate::arguments::arguments;
use crate::fault::{LineFault, TextCause};
use rows::Event;

// No letter, or one that stands for no kind of event.
fn no_kind() -> LineFault
    ensures { result ≡ wrong 1 Letter }
{
    TextCause::Letter.at(1)
}

// The event that a line says, by its first letter and its bytes from the bracket on.
fn event(letter: char, from_bracket: &[u8]) -> Result<Event, LineFault>
    ensures { result ≡ reading (letter ∷ from_bracket.now) }
{
    match letter {
        'l' => arguments(from_bracket, b'L').map(|(thread, lock)| Event::Lock(thread, lock)),
        'u' => arguments(from_bracket, b'L').map(|(thread, lock)| Event::Release(thread, lock)),
        's' => arguments(from_bracket, b'T').map(|(thread, started)| Event::Start(thread, started)),
        'j' => arguments(from_bracket, b'T').map(|(thread, joined)| Event::Join(thread, joined)),
        _ => Err(no_kind()),
    }
}

// The event that a line says, or its leftmost wrong byte.
pub fn read_line(line: &[u8]) -> Result<Event, LineFault>
    ensures value { result ≡ reading line.now }
    ensures said { (e : Event) → (result ≡ Ok e) ↔ Says line.now e }
    ensures leftmost { (f : LineFault) → result ≡ Err f → Leftmost line.now f.column }
{
    match line {
        [letter, from_bracket @ ..] => event(char::from(*letter), from_bracket),
        [] => Err(no_kind()),
    }
}
