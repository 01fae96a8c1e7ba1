// The run of a segment, and how much of each run the segment has seen.
ghost use Rattle.std.specs.Prelude.{◌≡◌, ℕ, ◌+◌, ◌<◌, max, replicate, if◌then◌else◌, nat_eq};
ghost use Rattle.order.specs.Clock.{seen_of};

use std::array;

#[derive(Clone, Copy, Default)]
pub(crate) struct Clock {
    pub(crate) run: u8,
    seen: [u8; 127],
}

impl Clock {
    // `Default` fills the places of an `ArrayVec`; this says what the clock has seen.
    pub(crate) fn none() -> Clock
        ensures run { result.run ≡ 0 }
        ensures seen { result.seen ≡ replicate 127 0 }
    {
        Clock {
            run: 0,
            seen: [0; 127],
        }
    }

    pub(crate) fn of_run(&self, run: u8) -> u8
        requires { run < 127 }
        ensures { result ≡ seen_of self.now run }
    {
        self.seen[usize::from(run)]
    }

    // One more segment of the run.
    pub(crate) fn step(&mut self, run: u8)
        requires { (run < 127) × (seen_of self.old run < 255) }
        ensures run { self.new.run ≡ self.old.run }
        ensures seen { (q : ℕ) → seen_of self.new q ≡ (if nat_eq q run then seen_of self.old q + 1 else seen_of self.old q) }
    {
        self.seen[usize::from(run)] += 1;
    }

    // The same in another run.
    pub(crate) fn in_run(&self, run: u8) -> Clock
        ensures { result ≡ record { run = run; seen = self.now.seen } }
    {
        Clock { run, ..*self }
    }

    // The larger of the two for each run.
    pub(crate) fn merge(&self, other: &Clock) -> Clock
        ensures run { result.run ≡ self.now.run }
        ensures seen { (q : ℕ) → seen_of result q ≡ max (seen_of self.now q) (seen_of other.now q) }
    {
        Clock {
            run: self.run,
            seen: array::from_fn(|q| self.seen[q].max(other.seen[q])),
        }
    }
}
