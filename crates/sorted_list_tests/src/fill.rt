// Lists that are opened and then only added to, and what a caller learns of the memory that it lends.
ghost use Rattle.std.specs.Prelude.{◌≡◌, length};
ghost use Rattle.sorted_list.specs.Laws.{filled};
ghost use Rattle.sorted_list.specs.Lists.{memory, opened};

use sorted_list::{Record, SortedList};

// Adds the records in turn, those that are refused too, and answers how many the list then holds.
pub(crate) fn fill<R: Record>(places: &mut [R], records: &[R]) -> usize
    ensures places { places.new ≡ memory (filled R.rank (opened R.vacant (length places.old)) records.now) }
    ensures count { result ≡ length (filled R.rank (opened R.vacant (length places.old)) records.now).records }
{
    let mut list = SortedList::open(places);
    for record in records {
        let _ = list.add(*record);
    }
    list.count()
}
