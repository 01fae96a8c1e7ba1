// The reader of arguments: a line from its bracket on.
ghost use Rattle.std.specs.Prelude.{◌≡◌, ◌+◌, ◌≤◌, List, [], ◌∷◌, IfOk, Ok, Err, MatchResult};
ghost use Rattle.text.specs.Lines.{arguments as pieces};
ghost use Rattle.text.specs.Pieces.{Piece, byte, number, and_then, past, scan};

use crate::fault::{LineFault, TextCause};
use crate::number::{number, wrong_digit};

// The column of the bracket.
const BRACKET: u32 = 2;

// What of a line is still to be read, and the column in which it begins.
// Each piece brings the column nearer to its type's end, so a method asks how far it is, and no ghost field says it.
#[derive(Clone, Copy)]
struct Rest<'a> {
    bytes: &'a [u8],
    column: u32,
}

impl<'a> Rest<'a> {
    // What follows a byte that has to stand at the front.
    fn after(self, wanted: u8) -> Result<Rest<'a>, LineFault>
        requires { self.column ≤ 1000 }
        ensures { MatchResult result
            (λ rest. (past wanted self.entry.column self.entry.bytes.now ≡ Ok rest.bytes.now) × (rest.column ≡ self.entry.column + 1))
            (λ e. past wanted self.entry.column self.entry.bytes.now ≡ Err e) }
    {
        match self.bytes {
            [first, bytes @ ..] if *first == wanted => Ok(Rest {
                bytes,
                column: self.column + 1,
            }),
            _ => Err(TextCause::Byte.at(self.column)),
        }
    }

    // The number behind a byte and a letter, with which the bytes have to begin, and what follows it.
    #[tactic(auto, unfolding(crate::specs::Pieces::scan))]
    fn read_argument(self, opening: u8, letter: u8) -> Result<(u16, Rest<'a>), LineFault>
        requires { self.column ≤ 100 }
        ensures value { (ps : List Piece) → MatchResult result
            (λ p. scan (byte opening ∷ byte letter ∷ number ∷ ps) self.entry.column self.entry.bytes.now ≡ and_then (scan ps p.1.column p.1.bytes.now) (λ ns. Ok (p.0 ∷ ns)))
            (λ e. scan (byte opening ∷ byte letter ∷ number ∷ ps) self.entry.column self.entry.bytes.now ≡ Err e) }
        ensures bound { IfOk result (λ p. p.1.column ≤ self.entry.column + 5) }
    {
        let rest = self.after(opening)?.after(letter)?;
        let Some(numeral) = number(rest.bytes) else {
            return Err(TextCause::Digit.at(rest.column + wrong_digit(rest.bytes)));
        };
        let behind = Rest {
            bytes: &rest.bytes[numeral.digits as usize..],
            column: rest.column + numeral.digits,
        };
        Ok((numeral.value, behind))
    }

    // The closing bracket, which has to end the line.
    #[tactic(auto, unfolding(crate::specs::Pieces::scan))]
    fn close(self) -> Result<(), LineFault>
        requires { self.column ≤ 1000 }
        ensures { MatchResult result
            (λ _. scan (byte 41 ∷ []) self.entry.column self.entry.bytes.now ≡ Ok [])
            (λ e. scan (byte 41 ∷ []) self.entry.column self.entry.bytes.now ≡ Err e) }
    {
        let rest = self.after(b')')?;
        if rest.bytes.is_empty() {
            Ok(())
        } else {
            Err(TextCause::Byte.at(rest.column))
        }
    }
}

// The two numbers of a line, read from its bracket on. The letter stands before the second.
pub(crate) fn arguments(from_bracket: &[u8], letter: u8) -> Result<(u16, u16), LineFault>
    ensures { MatchResult result (λ p. scan (pieces letter) 2 from_bracket.now ≡ Ok (p.0 ∷ p.1 ∷ [])) (λ e. scan (pieces letter) 2 from_bracket.now ≡ Err e) }
{
    let line = Rest {
        bytes: from_bracket,
        column: BRACKET,
    };
    let (thread, rest) = line.read_argument(b'(', b'T')?;
    let (other, rest) = rest.read_argument(b',', letter)?;
    rest.close()?;
    Ok((thread, other))
}
