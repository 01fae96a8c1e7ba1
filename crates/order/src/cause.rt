// Why an order turns a call down.
ghost use Rattle.std.specs.Prelude.{◌≡◌};
ghost use Rattle.order.specs.Causes.{cause_number};

#[derive(Clone, Copy, PartialEq, Eq, Debug)]
pub enum OrderCause {
    // a segment is no open end, or is to meet itself
    End = 8,
    // no number is left below the ceiling
    Ceiling = 9,
}

impl OrderCause {
    // Each layer's enum has this one line; a trait with an impl for each would be longer.
    pub fn number(&self) -> u32
        ensures { result ≡ cause_number self.now }
    {
        *self as u32
    }
}
