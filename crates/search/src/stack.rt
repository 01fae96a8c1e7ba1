// The chain that is walked, edge by edge.
ghost use Rattle.std.specs.Prelude.{◌≡◌, ◌<◌, ◌≤◌, true, not, ◌&&◌, [], ◌∷◌, ◌++◌, length, ◌==◌, bit_and, nat_lt, IsSome, ◌↔◌};
ghost use Rattle.std.specs.Option.{option_to_list};
ghost use Rattle.rows.specs.Circles.{every};
ghost use Rattle.rows.specs.Edges.{in_set};
ghost use Rattle.recording.specs.Walks.{may_follow};
ghost use Rattle.search.specs.Indexes.{holding};
ghost use Rattle.search.specs.Levels.{Seen, Seen-prop};

use crate::level::Level;
use arrayvec::ArrayVec;
use order::SegmentOrder;
use rows::Edge;

// The levels of the chain's edges. Each has seen what those before it have.
#[derive(Drop)]
pub(crate) struct Stack {
    pub(crate) levels: ArrayVec<Level, 64>,
    ghost seen: { Seen 0 0 levels.items } by { Seen-prop 0 0 levels.items },
}

impl Stack {
    ghost use Rattle.search.specs.Stacks.{stacked, edges, first, top, next_level, unordered};

    // No edge.
    pub(crate) fn empty() -> Stack
        ensures { stacked result ≡ [] }
    {
        Stack {
            levels: ArrayVec::new(),
        }
    }

    // The level for one more edge.
    fn next_level(&self, place: usize, edge: Edge) -> Level
        requires { edge.thread ≤ 63 }
        ensures { result ≡ next_level self.now place edge }
    {
        match self.levels.last() {
            Some(top) => Level::after(top.threads, top.guards, place, edge),
            None => Level::after(0, 0, place, edge),
        }
    }

    // Puts one more edge behind the chain.
    pub(crate) fn push(&mut self, place: usize, edge: Edge)
        requires { (length (stacked self.old) < 64) × (edge.thread ≤ 63) }
        ensures { stacked self.new ≡ stacked self.old ++ next_level self.old place edge ∷ [] }
    {
        let level = self.next_level(place, edge);
        self.levels.push(level);
    }

    // Takes the last edge away, if there is one.
    pub(crate) fn pop(&mut self) -> Option<Level>
        ensures some { IsSome result ↔ (0 < length (stacked self.old)) }
        ensures rest { stacked self.old ≡ stacked self.new ++ option_to_list result }
    {
        self.levels.pop()
    }

    // Whether the segment is parallel to those of all the edges.
    fn is_parallel<O: SegmentOrder>(&self, order: &O, segment: u16) -> bool
        ensures { result ≡ every (λ l. unordered (O.meaning order.now).before l.edge.segment segment) (stacked self.now) }
    {
        self.levels
            .iter()
            .all(|level| level.is_parallel(order, segment))
    }

    // Whether the edge has a later thread than the first one, a thread and guards that the chain has not, and a parallel segment.
    fn is_apart<O: SegmentOrder>(&self, order: &O, edge: &Edge) -> bool
        requires { (0 < length (stacked self.now)) × (edge.now.thread ≤ 63) }
        ensures { result ≡ (nat_lt (first self.now).edge.thread edge.now.thread && (not (in_set edge.now.thread (top self.now).threads) && (bit_and (top self.now).guards edge.now.guards == 0 && every (λ l. unordered (O.meaning order.now).before l.edge.segment edge.now.segment) (stacked self.now)))) }
    {
        let top = &self.levels[self.levels.len() - 1];
        self.levels[0].edge.thread < edge.thread
            && !top.has_thread(edge.thread)
            && !top.shares_guard(edge.guards)
            && self.is_parallel(order, edge.segment)
    }

    // Whether an edge that holds the last wanted lock may go on the chain.
    pub(crate) fn fits<O: SegmentOrder>(&self, order: &O, edge: &Edge) -> bool
        requires some { 0 < length (stacked self.now) }
        requires holds { holding (top self.now).edge.wanted edge.now ≡ true }
        ensures { result ≡ may_follow (O.meaning order.now).before (edges self.now) edge.now }
    {
        self.is_apart(order, edge)
    }
}
