// The checks of the events, in the order of their numbers. An event that passes is answered with its two numbers.
ghost use Rattle.std.specs.Prelude.{◌≡◌, false, Ok, OnOk, length};
ghost use Rattle.sorted_list.specs.Lists.{held};
ghost use Rattle.rules.specs.Calls.{acting, lock_check, release_check, start_check, join_check};
ghost use Rattle.rules.specs.Rows.{row_at, holds};
ghost use Rattle.ledger.specs.Ledgers.{rows_of};
ghost use Rattle.ledger.specs.Checks.{Passes};

use super::Ledger;
use crate::index::Index;
use rows::Edge;
use rules::LedgerCause;
use sorted_list::SortedList;

fn free_places(edges: &SortedList<'_, Edge>) -> usize
    ensures { result ≡ length (held edges.now).free }
{
    edges.capacity() - edges.count()
}

impl Ledger {
    // The checks of every event: its numbers are at most 63, and its thread is live.
    fn check_acting(&self, t: u16, x: u16) -> Result<(Index, Index), LedgerCause>
        ensures { Passes (acting (rows_of self.now) t x (Ok tt)) t x result }
    {
        let t = Index::try_from(t)?;
        let x = Index::try_from(x)?;
        if !self.table.row(t).is_live() {
            return Err(LedgerCause::NotLive);
        }
        Ok((t, x))
    }

    pub(super) fn check_lock(
        &self,
        edges: &SortedList<'_, Edge>,
        t: u16,
        o: u16,
    ) -> Result<(Index, Index), LedgerCause>
        ensures answers { Passes (lock_check (rows_of self.now) (held edges.now) t o) t o result }
        ensures new { OnOk result (holds (row_at (rows_of self.now) t) o ≡ false) }
    {
        let (thread, lock) = self.check_acting(t, o)?;
        let row = self.table.row(thread);
        if row.holds(o) {
            return Err(LedgerCause::Holding);
        }
        if self.table.is_held(o) {
            return Err(LedgerCause::Taken);
        }
        if row.count_new(edges, thread, lock) > free_places(edges) {
            return Err(LedgerCause::Edges);
        }
        Ok((thread, lock))
    }

    pub(super) fn check_release(&self, t: u16, o: u16) -> Result<(Index, Index), LedgerCause>
        ensures { Passes (release_check (rows_of self.now) t o) t o result }
    {
        let (thread, lock) = self.check_acting(t, o)?;
        if !self.table.row(thread).holds(o) {
            return Err(LedgerCause::NotHeld);
        }
        Ok((thread, lock))
    }

    pub(super) fn check_start(&self, t: u16, u: u16) -> Result<(Index, Index), LedgerCause>
        ensures { Passes (start_check (rows_of self.now) t u) t u result }
    {
        let (t, u) = self.check_acting(t, u)?;
        if !self.table.row(u).is_unborn() {
            return Err(LedgerCause::NotUnborn);
        }
        Ok((t, u))
    }

    pub(super) fn check_join(&self, t: u16, u: u16) -> Result<(Index, Index), LedgerCause>
        ensures { Passes (join_check (rows_of self.now) t u) t u result }
    {
        let (t, u) = self.check_acting(t, u)?;
        if u == t || self.table.row(u).is_unborn() {
            return Err(LedgerCause::NotStarted);
        }
        Ok((t, u))
    }
}
