// What the output layer turns down.
ghost use Rattle.std.specs.Prelude.{◌≡◌};
ghost use Rattle.output.specs.Causes.{cause_number};

// Why the output layer turns a call down.
#[derive(Clone, Copy, PartialEq, Eq, Debug)]
pub enum OutputCause {
    // a number outside the range for odds
    Odds = 18,
    // the memory for the line is too short
    Memory = 19,
}

impl OutputCause {
    // Each layer's enum has this one line; a trait with an impl for each would be longer.
    pub fn number(&self) -> u32
        ensures { result ≡ cause_number self.now }
    {
        *self as u32
    }
}
