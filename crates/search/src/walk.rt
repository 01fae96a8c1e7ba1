// The walk from chain to chain.
ghost use Rattle.std.specs.Prelude.{◌≡◌, [], length, nat_lt, slice_index_or};
ghost use Rattle.recording.specs.Enumeration.{left};
ghost use Rattle.recording.specs.Walks.{may_follow, first_from};
ghost use Rattle.rows.specs.Edges.{is_edge};
ghost use Rattle.search.specs.Indexes.{Indexes};
ghost use Rattle.search.specs.Stacks.{places, edges, Walks};

use crate::index::Index;
use crate::stack::Stack;
use order::SegmentOrder;
use rows::Edge;

// The first place from a place on whose row is an edge.
fn next_edge(rows: &[Edge], from: usize) -> Option<usize>
    ensures { result ≡ first_from is_edge rows.now from }
{
    (from..rows.len()).find(|place| rows[*place].is_edge())
}

// The rows, the order of their segments, and an index of the rows.
#[derive(Drop)]
pub(crate) struct Graph<'a, O> {
    rows: &'a [Edge],
    order: &'a O,
    index: Index,
    ghost indexed: { Indexes rows.now index },
}

impl<'a, O: SegmentOrder> Graph<'a, O> {
    pub(crate) fn build(rows: &'a [Edge], order: &'a O) -> Graph<'a, O>
        ensures rows { result.rows.now ≡ rows.now }
        ensures order { result.order.now ≡ order.now }
    {
        Graph {
            rows,
            order,
            index: Index::build(rows),
        }
    }
}

// `Walks` ties a stack to a graph, so it stands in clauses and in neither type.
impl Stack {
    // The first place from a place on whose edge may go on the chain, or begin one. A loop: `successors` would ask the
    // index for the place after this one before it is known whether this one fits.
    fn next_fitting<O: SegmentOrder>(&self, graph: &Graph<'_, O>, from: usize) -> Option<usize>
        requires { Walks graph.now.rows.now (O.meaning graph.now.order.now).before self.now }
        ensures { result ≡ first_from (may_follow (O.meaning graph.now.order.now).before (edges self.now)) graph.now.rows.now from }
    {
        let Some(top) = self.levels.last() else {
            return next_edge(graph.rows, from);
        };
        let mut at = from;
        while let Some(place) = graph.index.next_holding(graph.rows, top.edge.wanted, at) {
            if self.fits(graph.order, &graph.rows[place]) {
                return Some(place);
            }
            at = place + 1;
        }
        None
    }

    // Goes on to the next chain, if there is one: the first that goes on from this one, or else the first with a larger place at
    // the last level that has one.
    pub(crate) fn next_chain<O: SegmentOrder>(&mut self, graph: &Graph<'_, O>) -> bool
        requires { Walks graph.now.rows.now (O.meaning graph.now.order.now).before self.old }
        ensures more { result ≡ nat_lt 0 (length (left graph.now.rows.now (O.meaning graph.now.order.now).before (places self.old))) }
        ensures next { places self.new ≡ slice_index_or (left graph.now.rows.now (O.meaning graph.now.order.now).before (places self.old)) 0 [] }
        ensures walks { Walks graph.now.rows.now (O.meaning graph.now.order.now).before self.new }
    {
        let mut from = 0;
        loop {
            if let Some(place) = self.next_fitting(graph, from) {
                self.push(place, graph.rows[place]);
                return true;
            }
            let Some(top) = self.pop() else {
                return false;
            };
            from = top.place + 1;
        }
    }
}
