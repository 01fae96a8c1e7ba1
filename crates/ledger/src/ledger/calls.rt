// The calls of a ledger: one for each kind of event, and one for any event. First the checks, then the order, then the rows:
// a refused event changes nothing.
ghost use Rattle.std.specs.Prelude.{◌≡◌, ℕ};
ghost use Rattle.sorted_list.specs.Lists.{Held, held, opened};
ghost use Rattle.order.specs.Meaning.{Meaning, fresh_order};
ghost use Rattle.rows.specs.Edges.{blank_edge};
ghost use Rattle.rows.specs.declared.edge.Edge.{Edge as LockEdge};
ghost use Rattle.rows.specs.declared.event.Event.TheVariants.{Lock, Release, Start, Join};
ghost use Rattle.recording.specs.Recording.{none};
ghost use Rattle.rules.specs.Behind.{Behind};
ghost use Rattle.rules.specs.Calls.{lock_answer, lock_rows, lock_edges, release_answer, release_rows, start_answer, start_rows, start_order, join_answer, join_rows, join_order};
ghost use Rattle.rules.specs.Rows.{fresh_rows};
ghost use Rattle.rules.specs.States.{state, answer, after};
ghost use Rattle.ledger.specs.Ledgers.{rows_of, state_with};
ghost use Rattle.ledger.specs.Recorded.{Records, Accepts, FindsEnds};

use super::Ledger;
use crate::table::Table;
use order::SegmentOrder;
use rows::{Edge, Event};
use rules::EventCause;
use sorted_list::SortedList;

impl Ledger {
    // Thread 0 is live in segment 0, every other thread is unborn, and no lock is held.
    pub fn fresh() -> Ledger
        ensures rows { rows_of result ≡ fresh_rows }
        ensures behind { (places : ℕ) → Behind none (state (rows_of result) (opened blank_edge places) fresh_order) }
    {
        Ledger {
            table: Table::fresh(),
        }
    }

    // Thread t takes lock o. An edge is added for each lock that it holds.
    pub fn lock(
        &mut self,
        edges: &mut SortedList<'_, Edge>,
        t: u16,
        o: u16,
    ) -> Result<(), EventCause>
        ensures answers { result ≡ lock_answer (rows_of self.old) (held edges.old) t o }
        ensures rows { rows_of self.new
            ≡ lock_rows (rows_of self.old) (held edges.old) t o }
        ensures draws { held edges.new
            ≡ lock_edges (rows_of self.old) (held edges.old) t o }
        ensures lent { edges.new.places.ghost_name ≡ edges.old.places.ghost_name }
        ensures behind { (m : Meaning) → Records (Lock t o) result
            (state_with self.old edges.old m)
            (state_with self.new edges.new m) }
        ensures accepts { (limit : ℕ) (m : Meaning) → Accepts limit (Lock t o) result
            (state_with self.old edges.old m) }
    {
        let (t, o) = self.check_lock(edges, t, o)?;
        self.table.row(t).draw(edges, t, o);
        self.table.push(t, o);
        Ok(())
    }

    // Thread t gives lock o up.
    pub fn release(&mut self, t: u16, o: u16) -> Result<(), EventCause>
        ensures answers { result ≡ release_answer (rows_of self.old) t o }
        ensures rows { rows_of self.new ≡ release_rows (rows_of self.old) t o }
        ensures behind { (h : Held LockEdge) (m : Meaning) → Records (Release t o) result
            (state (rows_of self.old) h m)
            (state (rows_of self.new) h m) }
        ensures accepts { (limit : ℕ) (h : Held LockEdge) (m : Meaning) → Accepts limit (Release t o) result
            (state (rows_of self.old) h m) }
    {
        let (t, o) = self.check_release(t, o)?;
        self.table.remove(t, o);
        Ok(())
    }

    // Thread t starts thread u. Both go on in new segments.
    pub fn start<O: SegmentOrder>(
        &mut self,
        order: &mut O,
        t: u16,
        u: u16,
    ) -> Result<(), EventCause>
        ensures answers { result ≡ start_answer O.limit (rows_of self.old) (O.meaning order.old) t u }
        ensures rows { rows_of self.new
            ≡ start_rows O.limit (rows_of self.old) (O.meaning order.old) t u }
        ensures means { O.meaning order.new
            ≡ start_order O.limit (rows_of self.old) (O.meaning order.old) t u }
        ensures behind { (h : Held LockEdge) → Records (Start t u) result
            (state (rows_of self.old) h (O.meaning order.old))
            (state (rows_of self.new) h (O.meaning order.new)) }
        ensures accepts { (h : Held LockEdge) → Accepts O.limit (Start t u) result
            (state (rows_of self.old) h (O.meaning order.old)) }
        ensures ends { (h : Held LockEdge) → FindsEnds result
            (state (rows_of self.old) h (O.meaning order.old)) }
    {
        let (t, u) = self.check_start(t, u)?;
        let n = order.fork(self.table.row(t).segment())?;
        self.table.split(t, u, n);
        Ok(())
    }

    // Thread t has waited for thread u to end, and goes on in a new segment.
    pub fn join<O: SegmentOrder>(&mut self, order: &mut O, t: u16, u: u16) -> Result<(), EventCause>
        ensures answers { result ≡ join_answer O.limit (rows_of self.old) (O.meaning order.old) t u }
        ensures rows { rows_of self.new
            ≡ join_rows O.limit (rows_of self.old) (O.meaning order.old) t u }
        ensures means { O.meaning order.new
            ≡ join_order O.limit (rows_of self.old) (O.meaning order.old) t u }
        ensures behind { (h : Held LockEdge) → Records (Join t u) result
            (state (rows_of self.old) h (O.meaning order.old))
            (state (rows_of self.new) h (O.meaning order.new)) }
        ensures accepts { (h : Held LockEdge) → Accepts O.limit (Join t u) result
            (state (rows_of self.old) h (O.meaning order.old)) }
        ensures ends { (h : Held LockEdge) → FindsEnds result
            (state (rows_of self.old) h (O.meaning order.old)) }
    {
        let (t, u) = self.check_join(t, u)?;
        let n = order.meet(self.table.row(t).segment(), self.table.row(u).segment())?;
        self.table.unite(t, u, n);
        Ok(())
    }

    // Any event.
    pub fn enter<O: SegmentOrder>(
        &mut self,
        edges: &mut SortedList<'_, Edge>,
        order: &mut O,
        event: Event,
    ) -> Result<(), EventCause>
        ensures answers { result
            ≡ answer O.limit (state_with self.old edges.old (O.meaning order.old)) event }
        ensures leaves { state_with self.new edges.new (O.meaning order.new)
            ≡ after O.limit (state_with self.old edges.old (O.meaning order.old)) event }
        ensures lent { edges.new.places.ghost_name ≡ edges.old.places.ghost_name }
        ensures behind { Records event result
            (state_with self.old edges.old (O.meaning order.old))
            (state_with self.new edges.new (O.meaning order.new)) }
        ensures accepts { Accepts O.limit event result
            (state_with self.old edges.old (O.meaning order.old)) }
        ensures ends { FindsEnds result
            (state_with self.old edges.old (O.meaning order.old)) }
    {
        match event {
            Event::Lock(t, o) => self.lock(edges, t, o),
            Event::Release(t, o) => self.release(t, o),
            Event::Start(t, u) => self.start(order, t, u),
            Event::Join(t, u) => self.join(order, t, u),
        }
    }
}
