// Why an event is turned down.
ghost use Rattle.std.specs.Prelude.{◌≡◌};
ghost use Rattle.rules.specs.Causes.{cause_number, number_of};
ghost use Rattle.rules.specs.declared.cause.EventCause.TheVariants.{Ledger, Order};

use order::OrderCause;

// Why a ledger turns an event down. In an event t is the acting thread, o the lock and u the other thread.
#[derive(Clone, Copy, PartialEq, Eq, Debug)]
pub enum LedgerCause {
    // a thread or lock number is above 63
    Number = 1,
    // t is not live
    NotLive = 2,
    // t holds o already
    Holding = 3,
    // another thread holds o
    Taken = 4,
    // t does not hold o
    NotHeld = 5,
    // u is not unborn
    NotUnborn = 6,
    // u is t itself, or unborn
    NotStarted = 7,
    // there are more new edges than free places
    Edges = 10,
}

impl LedgerCause {
    // Each layer's enum has this one line; a trait with an impl for each would be longer.
    pub fn number(&self) -> u32
        ensures { result ≡ cause_number self.now }
    {
        *self as u32
    }
}

// The layer that turned an event down, with that layer's own cause, whole.
#[derive(Clone, Copy, PartialEq, Eq, Debug)]
pub enum EventCause {
    Ledger(LedgerCause),
    Order(OrderCause),
}

impl EventCause {
    pub fn number(&self) -> u32
        ensures { result ≡ number_of self.now }
    {
        match self {
            EventCause::Ledger(cause) => cause.number(),
            EventCause::Order(cause) => cause.number(),
        }
    }
}

// Both are written out: a derived `From` has no contract, and the contracts of the calls name the cause.
impl From<LedgerCause> for EventCause {
    ghost from_gives = { λ c r. r ≡ Ledger c };

    fn from(cause: LedgerCause) -> EventCause {
        EventCause::Ledger(cause)
    }
}

impl From<OrderCause> for EventCause {
    ghost from_gives = { λ c r. r ≡ Order c };

    fn from(cause: OrderCause) -> EventCause {
        EventCause::Order(cause)
    }
}
