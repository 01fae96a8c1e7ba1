// Why a list turns a record down.
ghost use Rattle.std.specs.Prelude.{◌≡◌};
ghost use Rattle.sorted_list.specs.Causes.{cause_number};

#[derive(Clone, Copy, PartialEq, Eq, Debug)]
pub enum ListCause {
    // every place holds a record already
    Full = 11,
}

impl ListCause {
    // Each layer's enum has this one line; a trait with an impl for each would be longer.
    pub fn number(&self) -> u32
        ensures { result ≡ cause_number self.now }
    {
        *self as u32
    }
}
