// Questions on a ledger.
ghost use Rattle.std.specs.Prelude.{◌≡◌, ◌<◌, ◌≤◌, MatchOption};
ghost use Rattle.rules.specs.Rows.{row_at};
ghost use Rattle.ledger.specs.Ledgers.{rows_of, life_of, segment_of, is_holding, held_at};

use super::Ledger;
use crate::index::Index;
use crate::row::Row;
use rows::Life;

impl Ledger {
    // The row of the thread, where its number is none above 63.
    fn row(&self, t: u16) -> Option<&Row>
        ensures { MatchOption result (63 < t) (λ r. (t ≤ 63) × (r.now ≡ row_at (rows_of self.now) t)) }
    {
        Some(self.table.row(Index::try_from(t).ok()?))
    }

    // The state of the thread.
    pub fn state(&self, t: u16) -> Option<Life>
        ensures { result ≡ life_of (rows_of self.now) t }
    {
        Some(self.row(t)?.state())
    }

    // The segment of its life that the thread is in.
    pub fn segment(&self, t: u16) -> Option<u16>
        ensures { result ≡ segment_of (rows_of self.now) t }
    {
        Some(self.row(t)?.segment())
    }

    // Whether the thread holds the lock.
    pub fn holds(&self, t: u16, o: u16) -> bool
        ensures { result ≡ is_holding (rows_of self.now) t o }
    {
        self.row(t).is_some_and(|row| row.holds(o))
    }

    // The lock at a place among those that the thread holds, in the order taken.
    pub fn held(&self, t: u16, place: usize) -> Option<u8>
        ensures { result ≡ held_at (rows_of self.now) t place }
    {
        self.row(t)?.at(place)
    }
}
