// The edges of a chain, with what the chain has seen.
ghost use Rattle.std.specs.Prelude.{◌≡◌, ◌≤◌, not, ◌==◌, bit_and};
ghost use Rattle.rows.specs.Edges.{in_set};
ghost use Rattle.search.specs.Levels.{level_after};
ghost use Rattle.search.specs.Stacks.{unordered};

use order::SegmentOrder;
use rows::Edge;
use sorted_list::Record;

// The edge at a place, and the threads and the guards of the chain up to it, as sets in which i is bit i.
#[derive(Clone, Copy)]
pub(crate) struct Level {
    pub(crate) place: usize,
    pub(crate) edge: Edge,
    pub(crate) threads: u64,
    pub(crate) guards: u64,
}

// What stands where no edge was put. Not derived: that would want a second blank, a default, for edges.
impl Default for Level {
    fn default() -> Level {
        Level {
            place: 0,
            edge: Edge::blank(),
            threads: 0,
            guards: 0,
        }
    }
}

impl Level {
    // The edge at a place, behind a chain with these threads and guards: a level is place and edge with what was seen, so a pair of the
    // two would be taken apart here. Edges are plain rows, which lie in memory as they are, so each caller shows that the thread is at most 63.
    pub(crate) fn after(threads: u64, guards: u64, place: usize, edge: Edge) -> Level
        requires { edge.thread ≤ 63 }
        ensures { result ≡ level_after threads guards place edge }
    {
        Level {
            place,
            edge,
            threads: threads | 1 << edge.thread,
            guards: guards | edge.guards,
        }
    }

    // Whether the thread is one of the chain's. One shift, as in the sets of other crates: as a public call it would ask
    // that the thread be small.
    pub(crate) fn has_thread(&self, thread: u8) -> bool
        requires { thread ≤ 63 }
        ensures { result ≡ in_set thread self.now.threads }
    {
        (self.threads >> thread) % 2 == 1
    }

    // Whether one of the guards is among the chain's.
    pub(crate) fn shares_guard(&self, guards: u64) -> bool
        ensures { result ≡ not (bit_and self.now.guards guards == 0) }
    {
        self.guards & guards != 0
    }

    // Whether neither the edge's segment nor the other one precedes the other.
    pub(crate) fn is_parallel<O: SegmentOrder>(&self, order: &O, segment: u16) -> bool
        ensures { result ≡ unordered (O.meaning order.now).before self.now.edge.segment segment }
    {
        let own = self.edge.segment;
        !order.precedes(own, segment) && !order.precedes(segment, own)
    }
}
