// The steps of a circle.
ghost use Rattle.std.specs.Prelude.{◌≡◌, ◌==◌};

// One wait in a circle: the thread holds one lock and wants another. Steps ascend by these places in turn.
#[derive(Clone, Copy, PartialEq, Eq, PartialOrd, Ord, Debug)]
pub struct Step {
    pub thread: u8,
    pub held: u8,
    pub wanted: u8,
}

impl Step {
    // What stands in the places of a row that no step takes.
    pub const ZERO: Step = Step {
        thread: 0,
        held: 0,
        wanted: 0,
    };

    // It wants the lock that the other step holds.
    pub(crate) fn waits_for(&self, other: &Step) -> bool
        ensures { result ≡ (self.now.wanted == other.now.held) }
    {
        self.wanted == other.held
    }
}
