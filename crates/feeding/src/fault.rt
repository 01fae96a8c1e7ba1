// Where in a line feeding stops, and why.
ghost use Rattle.std.specs.Prelude.{◌≡◌};
ghost use Rattle.feeding.specs.Stops.{text_stop, event_stop, at_line};

use feed::{Cause, Fault};
use rules::EventCause;
use text::LineFault;

// A fault but for the number of the line.
#[derive(Clone, Copy)]
pub(crate) struct Stop {
    column: u32,
    cause: Cause,
}

impl Stop {
    pub(crate) fn at_line(self, line: u32) -> Fault
        ensures { result ≡ at_line line self }
    {
        Fault {
            line,
            column: self.column,
            cause: self.cause,
        }
    }
}

impl From<LineFault> for Stop {
    ghost from_gives = { λ f r. r ≡ text_stop f };

    fn from(fault: LineFault) -> Stop {
        Stop {
            column: fault.column,
            cause: Cause::Text(fault.cause),
        }
    }
}

// An event that is turned down has column 1.
impl From<EventCause> for Stop {
    ghost from_gives = { λ c r. r ≡ event_stop c };

    fn from(cause: EventCause) -> Stop {
        let cause = match cause {
            EventCause::Ledger(cause) => Cause::Ledger(cause),
            EventCause::Order(cause) => Cause::Order(cause),
        };
        Stop { column: 1, cause }
    }
}
