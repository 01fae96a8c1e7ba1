// What stopped the feeding of a file: where, and why, by the layer that turned it down.
ghost use Rattle.std.specs.Prelude.{◌≡◌};
ghost use Rattle.feed.specs.Causes.{number_of, word_of, search_fault};

use order::OrderCause;
use recording::SearchCause;
use rules::LedgerCause;
use text::TextCause;

// The layer that turned a recording down, with that layer's own cause, whole.
#[derive(Clone, Copy, PartialEq, Eq, Debug)]
pub enum Cause {
    Text(TextCause),
    Ledger(LedgerCause),
    Order(OrderCause),
    Search(SearchCause),
}

impl Cause {
    pub fn number(&self) -> u32
        ensures { result ≡ number_of self.now }
    {
        match self {
            Cause::Text(cause) => cause.number(),
            Cause::Ledger(cause) => cause.number(),
            Cause::Order(cause) => cause.number(),
            Cause::Search(cause) => cause.number(),
        }
    }

    // The word for the layer.
    pub fn layer(&self) -> &'static str
        ensures { result.now ≡ word_of self.now }
    {
        match self {
            Cause::Text(_) => "text",
            Cause::Ledger(_) => "ledger",
            Cause::Order(_) => "order",
            Cause::Search(_) => "search",
        }
    }
}

// Lines and columns count from 1; a file that is turned down as a whole, and a report that is refused, have 0 for both.
#[derive(Clone, Copy, PartialEq, Eq, Debug)]
pub struct Fault {
    pub line: u32,
    pub column: u32,
    pub cause: Cause,
}

impl Fault {
    // A file that is longer than a recording may be.
    pub const TOO_LONG: Fault = Fault {
        line: 0,
        column: 0,
        cause: Cause::Text(TextCause::Size),
    };
}

// A report that is refused has no line.
impl From<SearchCause> for Fault {
    ghost from_gives = { λ c r. r ≡ search_fault c };

    fn from(cause: SearchCause) -> Fault {
        Fault {
            line: 0,
            column: 0,
            cause: Cause::Search(cause),
        }
    }
}
