// The edges of a thread that takes one more lock.
ghost use Rattle.std.specs.Prelude.{◌≡◌, not};
ghost use Rattle.sorted_list.specs.Lists.{present, added, held as records_held};
ghost use Rattle.rows.specs.Orders.{rank_edge};
ghost use Rattle.recording.specs.EdgeList.{gather};
ghost use Rattle.rules.specs.Drawing.{edge_from, edges_from, new_among, drawn_into};
ghost use Rattle.rules.specs.Rows.{holds};

use super::Row;
use crate::index::Index;
use rows::Edge;
use sorted_list::SortedList;

// Thread t and lock o are the two numbers of one event; a struct of them would be taken apart in each of these.
impl Row {
    // The locks that the thread holds, as a set.
    fn guards(&self) -> u64
        ensures { result ≡ gather (holds self.now) 64 }
    {
        self.locks.iter().fold(0, |set, lock| set | lock.alone())
    }

    // The edge of thread t that holds h and takes o.
    fn edge(&self, t: Index, o: Index, h: Index) -> Edge
        ensures { result ≡ edge_from self.now t o h }
    {
        Edge {
            thread: t.get(),
            held: h.get(),
            wanted: o.get(),
            guards: self.guards(),
            segment: self.segment,
        }
    }

    // Whether the list does not hold the edge from h.
    fn is_new(&self, edges: &SortedList<'_, Edge>, t: Index, o: Index, h: Index) -> bool
        ensures { result
            ≡ not (present rank_edge (records_held edges.now).records (edge_from self.now t o h)) }
    {
        !edges.contains(&self.edge(t, o, h))
    }

    // How many of the edges the list does not hold, if thread t takes o.
    pub(crate) fn count_new(&self, edges: &SortedList<'_, Edge>, t: Index, o: Index) -> usize
        ensures { result ≡ new_among (records_held edges.now).records (edges_from self.now t o) }
    {
        self.locks
            .iter()
            .filter(|h| self.is_new(edges, t, o, **h))
            .count()
    }

    // Adds the edge from h. A new one has a place, since the new ones were counted.
    fn draw_edge(&self, edges: &mut SortedList<'_, Edge>, t: Index, o: Index, h: Index)
        ensures drawn { records_held edges.new
            ≡ added rank_edge (records_held edges.old) (edge_from self.now t o h) }
        ensures lent { edges.new.places.ghost_name ≡ edges.old.places.ghost_name }
    {
        let _ = edges.add(self.edge(t, o, h));
    }

    // Adds an edge for each held lock, in a `for` with an index over the locks (docs/DECISIONS.md).
    pub(crate) fn draw(&self, edges: &mut SortedList<'_, Edge>, t: Index, o: Index)
        ensures drawn { records_held edges.new
            ≡ drawn_into (records_held edges.old) (edges_from self.now t o) }
        ensures lent { edges.new.places.ghost_name ≡ edges.old.places.ghost_name }
    {
        let held = self.locks.as_slice();
        for i in 0..held.len() {
            self.draw_edge(edges, t, o, held[i]);
        }
    }
}
