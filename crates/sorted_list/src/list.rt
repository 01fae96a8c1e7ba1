// A sorted list over lent memory.
ghost use Rattle.std.specs.Prelude.{◌≤◌, length, take};
ghost use Rattle.sorted_list.specs.Orders.{Ascending, ascending_once};

use crate::record::Record;

mod calls;
mod steps;

// The first `count` places hold the records, which ascend, and the later ones are free. The memory is the caller's, so its length
// is not the list's.
#[derive(Drop)]
pub struct SortedList<'a, R: Record> {
    places: &'a mut [R],
    count: usize,
    ghost within: { count ≤ length places.now },
    ghost ascends: { Ascending R.rank (take count places.now) } by { ascending_once R.rank (take count places.now) },
}
