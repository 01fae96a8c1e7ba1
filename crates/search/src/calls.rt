// The report, and the comparison of two reports.
ghost use Rattle.std.specs.Prelude.{◌≡◌, length, Decides};
ghost use Rattle.sorted_list.specs.Lists.{held};
ghost use Rattle.recording.specs.Replies.{reply, reported};
ghost use Rattle.search.specs.Promises.{Promised, IsReport, BothAnswered, TellsStops, SameWork};

use crate::reporting::walk_chains;
use order::SegmentOrder;
use recording::{Answer, SearchCause};
use rows::{CircleRow, Edge};
use sorted_list::SortedList;

// Fills the list with the circles of closed chains of any rows, which may be no edges and need not ascend, whatever the list held before,
// and answers how many circles and chains there are. A refused report leaves the list empty, every place blank.
pub fn report_rows<O: SegmentOrder>(
    rows: &[Edge],
    order: &O,
    budget: u32,
    circles: &mut SortedList<'_, CircleRow>,
) -> Result<Answer, SearchCause>
    ensures answers { result ≡ reply rows.now (O.meaning order.now).before budget
        (length circles.old.places.now) }
    ensures holds { held circles.new ≡ reported rows.now
        (O.meaning order.now).before budget (length circles.old.places.now) }
    ensures lent { circles.new.places.ghost_name ≡ circles.old.places.ghost_name }
{
    let found = walk_chains(rows, order, budget, circles);
    if found.is_err() {
        circles.clear();
    }
    found
}

// The same of an edge list, with what it says of the recordings behind the list and the order.
pub fn report<O: SegmentOrder>(
    edges: &SortedList<'_, Edge>,
    order: &O,
    budget: u32,
    circles: &mut SortedList<'_, CircleRow>,
) -> Result<Answer, SearchCause>
    ensures answers { result ≡ reply (held edges.now).records (O.meaning order.now).before budget
        (length circles.old.places.now) }
    ensures holds { held circles.new ≡ reported (held edges.now).records
        (O.meaning order.now).before budget (length circles.old.places.now) }
    ensures lent { circles.new.places.ghost_name ≡ circles.old.places.ghost_name }
    ensures stops { Promised (held edges.now) (O.meaning order.now) result (held circles.new).records }
{
    report_rows(edges.records(), order, budget, circles)
}

// Two reports, and whether neither is refused and both list the same circles: that says more than the two.
#[derive(Clone, Copy)]
pub struct Comparison {
    pub old: Result<Answer, SearchCause>,
    pub new: Result<Answer, SearchCause>,
    pub same: bool,
}

fn both_answered(old: &Result<Answer, SearchCause>, new: &Result<Answer, SearchCause>) -> bool
    ensures { Decides result (BothAnswered old.now new.now) }
{
    old.is_ok() && new.is_ok()
}

// Whether neither is refused, and the circles are the same.
fn agree(
    old: &Result<Answer, SearchCause>,
    new: &Result<Answer, SearchCause>,
    old_circles: &[CircleRow],
    new_circles: &[CircleRow],
) -> bool
    ensures { Decides result (BothAnswered old.now new.now × (old_circles.now ≡ new_circles.now)) }
{
    both_answered(old, new) && old_circles == new_circles
}

// Makes two reports with one budget, and compares them. The orders may be of different kinds.
pub fn compare<O: SegmentOrder, N: SegmentOrder>(
    old_edges: &SortedList<'_, Edge>,
    old_order: &O,
    old_circles: &mut SortedList<'_, CircleRow>,
    new_edges: &SortedList<'_, Edge>,
    new_order: &N,
    new_circles: &mut SortedList<'_, CircleRow>,
    budget: u32,
) -> Comparison
    ensures old { IsReport (held old_edges.now) (O.SegmentOrder.meaning old_order.now) budget
        (length old_circles.old.places.now) result.old (held old_circles.new) }
    ensures new { IsReport (held new_edges.now) (N.SegmentOrder.meaning new_order.now) budget
        (length new_circles.old.places.now) result.new (held new_circles.new) }
    ensures lent { (old_circles.new.places.ghost_name ≡ old_circles.old.places.ghost_name)
        × (new_circles.new.places.ghost_name ≡ new_circles.old.places.ghost_name) }
    ensures same { Decides result.same (BothAnswered result.old result.new
        × ((held old_circles.new).records ≡ (held new_circles.new).records)) }
    ensures stops { TellsStops (held old_edges.now) (O.SegmentOrder.meaning old_order.now)
        (held new_edges.now) (N.SegmentOrder.meaning new_order.now) result.old result.new result.same }
    ensures alike { SameWork (held old_edges.now) (O.SegmentOrder.meaning old_order.now)
        (held new_edges.now) (N.SegmentOrder.meaning new_order.now)
        (length old_circles.old.places.now) (length new_circles.old.places.now)
        result.old result.new (held old_circles.new) (held new_circles.new) }
{
    let old = report(old_edges, old_order, budget, old_circles);
    let new = report(new_edges, new_order, budget, new_circles);
    let same = agree(&old, &new, old_circles.records(), new_circles.records());
    Comparison { old, new, same }
}
