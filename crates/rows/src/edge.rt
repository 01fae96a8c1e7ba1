// The edges of the lock graph.
ghost use Rattle.std.specs.Prelude.{◌≡◌, ◌≤◌, Decides};
ghost use Rattle.rows.specs.Edges.{in_range, in_set, is_edge, IsEdge, blank_edge};
ghost use Rattle.rows.specs.Orders.{rank_edge};
ghost use Rattle.rows.specs.OrderLaws.{edge_order, edge_same};

use sorted_list::{Record, WholeKey};
use std::cmp::Ordering;

// An edge: the thread held one lock, with others as guards, when it took another, in this segment of its life.
// Guards are a set, in which lock i is bit i, since rows lie plainly in memory; the held lock is one of them.
// Edges ascend by these places in turn.
#[derive(Clone, Copy, PartialEq, Eq, PartialOrd, Ord, Debug)]
pub struct Edge {
    pub thread: u8,
    pub held: u8,
    pub wanted: u8,
    pub guards: u64,
    pub segment: u16,
}

// Whether the lock is in the set. One shift: as a public call it would ask that the lock be small.
fn in_set(lock: u8, set: u64) -> bool
    requires { lock ≤ 63 }
    ensures { result ≡ in_set lock set }
{
    (set >> lock) % 2 == 1
}

impl Edge {
    // Whether the row is an edge: its numbers are at most 63, and of its two locks just the held one is a guard.
    pub fn is_edge(&self) -> bool
        ensures value { result ≡ is_edge self.now }
        ensures decides { Decides result (IsEdge self.now) }
    {
        self.in_range() && in_set(self.held, self.guards) && !in_set(self.wanted, self.guards)
    }

    fn in_range(&self) -> bool
        ensures { result ≡ in_range self.now }
    {
        self.thread <= 63 && self.held <= 63 && self.wanted <= 63
    }
}

impl Record for Edge {
    ghost rank = { rank_edge };

    ghost vacant = { blank_edge };

    ghost order = { edge_order };

    fn compare(&self, other: &Edge) -> Ordering {
        self.cmp(other)
    }

    fn blank() -> Edge {
        Edge {
            thread: 0,
            held: 0,
            wanted: 1,
            guards: 1,
            segment: 0,
        }
    }
}

impl WholeKey for Edge {
    ghost same = { edge_same };
}
