// The report.
ghost use Rattle.std.specs.Prelude.{◌≡◌, false, length, is_err};
ghost use Rattle.recording.specs.Replies.{reply, reported};
ghost use Rattle.sorted_list.specs.Lists.{held};

use crate::stack::Stack;
use crate::tally::Tally;
use crate::walk::Graph;
use order::SegmentOrder;
use recording::{Answer, SearchCause};
use rows::{CircleRow, Edge};
use sorted_list::SortedList;

// Walks all the chains, and lists the circles of those that close, whatever the list held before. Refused where there are more
// chains than the budget, and then where there are more circles than places; the list then holds some of the circles.
pub(crate) fn walk_chains<O: SegmentOrder>(
    rows: &[Edge],
    order: &O,
    budget: u32,
    circles: &mut SortedList<'_, CircleRow>,
) -> Result<Answer, SearchCause>
    ensures answers { result ≡ reply rows.now (O.meaning order.now).before budget (length circles.old.places.now) }
    ensures holds { is_err result ≡ false → held circles.new ≡ reported rows.now (O.meaning order.now).before budget (length circles.old.places.now) }
    ensures size { length circles.new.places.now ≡ length circles.old.places.now }
    ensures lent { circles.new.places.ghost_name ≡ circles.old.places.ghost_name }
{
    circles.clear();
    let graph = Graph::build(rows, order);
    let mut stack = Stack::empty();
    let mut tally = Tally::start();
    while stack.next_chain(&graph) {
        tally.take(&stack, budget, circles)?;
    }
    tally.answer(circles)
}
