// From the bytes of a file to the circles, or the fault.
ghost use Rattle.std.specs.Prelude.{◌≡◌, length};
ghost use Rattle.sorted_list.specs.Lists.{held};
ghost use Rattle.file_check.specs.Checks.{fed_state, checked, circles_after, Tells, SameThreadsChecked};

use feeding::{Fault, feed};
use ledger::Ledger;
use order::SegmentOrder;
use recording::Answer;
use rows::{CircleRow, Edge};
use search::report;
use sorted_list::SortedList;

// Feeds a file to a fresh ledger, with the edge list opened anew and a fresh order, and reports the circles. The circle list is left as it
// was where the file has a fault.
pub fn check_file<O: SegmentOrder + Drop>(
    file: &[u8],
    edges: &mut SortedList<'_, Edge>,
    circles: &mut SortedList<'_, CircleRow>,
    budget: u32,
) -> Result<Answer, Fault>
    ensures answers { result ≡ checked O.limit (length edges.old.places.now) file.now budget
        (length circles.old.places.now) }
    ensures draws { held edges.new ≡ (fed_state O.limit (length edges.old.places.now) file.now).edges }
    ensures holds { held circles.new ≡ circles_after O.limit (length edges.old.places.now) file.now budget
        (length circles.old.places.now) (held circles.old) }
    ensures lent { (edges.new.places.ghost_name ≡ edges.old.places.ghost_name)
        × (circles.new.places.ghost_name ≡ circles.old.places.ghost_name) }
    ensures stops { Tells O.limit (length edges.old.places.now) file.now result (held circles.new).records }
    ensures alike { SameThreadsChecked O.limit (length edges.old.places.now) budget
        (length circles.old.places.now) file.now result }
{
    edges.clear();
    let mut order = O::fresh();
    let mut ledger = Ledger::fresh();
    feed(&mut ledger, edges, &mut order, file)?;
    report(edges, &order, budget, circles).map_err(Fault::from)
}
