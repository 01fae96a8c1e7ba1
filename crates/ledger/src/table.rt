// The rows of all threads.
ghost use Rattle.std.specs.Prelude.{◌≡◌, ◌+◌, ◌<◌, false};
ghost use Rattle.recording.specs.Ledger.{live, joined};
ghost use Rattle.rules.specs.Rows.{fresh_rows, row_at, holds, held_by_some, took, gave_up, in_segment, in_state};
ghost use Rattle.ledger.specs.Tables.{table_rows, changed};

use crate::index::Index;
use crate::row::Row;
use std::array;

// A row for each thread.
#[derive(Drop)]
pub(crate) struct Table {
    rows: [Row; 64],
}

impl Table {
    // Thread 0 is live in segment 0, and no other was started.
    pub(crate) fn fresh() -> Table
        ensures { table_rows result ≡ fresh_rows }
    {
        let mut rows = array::from_fn(|_| Row::unborn());
        rows[0].begin(0);
        Table { rows }
    }

    pub(crate) fn row(&self, t: Index) -> &Row
        ensures { result.now ≡ row_at (table_rows self.now) t }
    {
        &self.rows[t.place()]
    }

    // Whether some thread holds the lock.
    pub(crate) fn is_held(&self, o: u16) -> bool
        ensures { result ≡ held_by_some (table_rows self.now) o }
    {
        self.rows.iter().any(|row| row.holds(o))
    }

    // Thread t takes lock o.
    pub(crate) fn push(&mut self, t: Index, o: Index)
        requires { holds (row_at (table_rows self.old) t) o ≡ false }
        ensures { table_rows self.new ≡ took (table_rows self.old) t o }
    {
        self.rows[t.place()].push(o);
    }

    // Thread t gives lock o up.
    pub(crate) fn remove(&mut self, t: Index, o: Index)
        ensures { table_rows self.new ≡ gave_up (table_rows self.old) t o }
    {
        self.rows[t.place()].remove(o);
    }

    // Thread t goes on in segment n, and thread u begins in n + 1.
    pub(crate) fn split(&mut self, t: Index, u: Index, n: u16)
        requires { n < 65535 }
        ensures { table_rows self.new
            ≡ changed (λ r. in_state live (in_segment (n + 1) r)) u (changed (in_segment n) t (table_rows self.old)) }
    {
        self.rows[t.place()].go_on(n);
        self.rows[u.place()].begin(n + 1);
    }

    // Thread t goes on in segment n, and thread u has ended.
    pub(crate) fn unite(&mut self, t: Index, u: Index, n: u16)
        ensures { table_rows self.new
            ≡ changed (in_state joined) u (changed (in_segment n) t (table_rows self.old)) }
    {
        self.rows[t.place()].go_on(n);
        self.rows[u.place()].end();
    }
}
