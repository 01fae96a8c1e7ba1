// What can be wrong with the text of a recording.
ghost use Rattle.std.specs.Prelude.{◌≡◌};
ghost use Rattle.text.specs.Causes.{cause_number};
ghost use Rattle.text.specs.Pieces.{wrong};

// Why the text layer turns a recording down.
#[derive(Clone, Copy, PartialEq, Eq, Debug)]
pub enum TextCause {
    // the line is empty, or begins with a letter that stands for no event
    Letter = 14,
    // a wrong, missing or further byte behind the first letter
    Byte = 15,
    // no digit where one must stand, a digit after a leading zero, or a fourth digit
    Digit = 16,
    // the file is longer than a recording may be
    Size = 17,
}

impl TextCause {
    // Each layer's enum has this one line; a trait with an impl for each would be longer.
    pub fn number(&self) -> u32
        ensures { result ≡ cause_number self.now }
    {
        *self as u32
    }

    // The fault of this cause in a column.
    pub(crate) fn at(self, column: u32) -> LineFault
        ensures { result ≡ wrong column self }
    {
        LineFault {
            column,
            cause: self,
        }
    }
}

// The first wrong byte of a line: its column, from 1, or one past a line that ends early.
#[derive(Clone, Copy, PartialEq, Eq, Debug)]
pub struct LineFault {
    pub column: u32,
    pub cause: TextCause,
}
