// The numbers of threads and locks.
ghost use Rattle.std.specs.Prelude.{◌≡◌, ◌≤◌, ◌^◌};

use rules::LedgerCause;
use std::marker::Model;

// The number of a thread or a lock: at most 63.
#[derive(Clone, Copy, Default, PartialEq, Eq)]
pub(crate) struct Index(u8);

impl Model for Index {
    ghost use Rattle.std.specs.Prelude.{ℕ, ◌≤◌};

    ghost Value = { ℕ };

    ghost view = { λ i. i.0 };

    ghost invariant = { λ i. i.0 ≤ 63 };

    ghost inverse = { λ n. record { 0 = n } };
}

impl TryFrom<u16> for Index {
    ghost use Rattle.std.specs.Prelude.{◌≡◌, ◌<◌, ◌≤◌, MatchResult};
    ghost use Rattle.rules.specs.declared.cause.LedgerCause.TheVariants.{Number};

    type Error = LedgerCause;

    ghost try_from_gives = { λ n r. MatchResult r (λ i. (i ≡ n) × (n ≤ 63)) (λ cause. (cause ≡ Number) × (63 < n)) };

    fn try_from(number: u16) -> Result<Index, LedgerCause> {
        if number > 63 {
            return Err(LedgerCause::Number);
        }
        Ok(Index(number as u8))
    }
}

impl Index {
    pub(crate) fn get(self) -> u8
        ensures value { result ≡ self }
        ensures small { result ≤ 63 }
    {
        self.0
    }

    // The place in a table.
    pub(crate) fn place(self) -> usize
        ensures value { result ≡ self }
        ensures small { result ≤ 63 }
    {
        usize::from(self.0)
    }

    // The set, in which i is bit i, that has this number alone. One shift, as in the sets of other crates, where nothing says that a number is
    // small.
    pub(crate) fn alone(self) -> u64
        ensures { result ≡ 2 ^ self }
    {
        1 << self.0
    }
}
