// The steps of the list's calls.
ghost use Rattle.std.specs.Prelude.{◌≡◌, ◌<◌, length, replicate, true, IfOk, IfErr, ◌==◌};
ghost use Rattle.sorted_list.specs.Lists.{held, none, present, IsPlaceFor, entered};

use super::SortedList;
use crate::record::Record;

impl<R: Record> SortedList<'_, R> {
    // Whether no place is free.
    #[tactic(auto, using(crate::proofs::Places::none_free))]
    pub(super) fn is_full(&self) -> bool
        ensures free { result ≡ none (held self.now).free }
        ensures count { result ≡ (self.now.count == length self.now.places.now) }
    {
        self.count == self.capacity()
    }

    // Where a record that is equal to the sought one in the order stands, or the place for one.
    pub(super) fn place_of(&self, sought: &R) -> Result<usize, usize>
        ensures present { IfOk result (λ _. present R.rank (held self.now).records sought.now ≡ true) }
        ensures absent { IfErr result (IsPlaceFor R.rank (held self.now).records sought.now) }
    {
        self.records().binary_search_by(|r| r.compare(sought))
    }

    // Puts an absent record at its place, and the records from there on one place on.
    #[tactic(auto, using(crate::proofs::Places::put_held))]
    pub(super) fn insert(&mut self, place: usize, new: R)
        requires room { self.old.count < length self.old.places.now }
        requires place { IsPlaceFor R.rank (held self.old).records new place }
        ensures holds { held self.new ≡ entered (held self.old) place new }
        ensures lent { self.new.places.ghost_name ≡ self.old.places.ghost_name }
    {
        let places = &mut *self.places;
        places.copy_within(place..self.count, place + 1);
        places[place] = new;
        self.count += 1;
    }
}

// Blanks every record.
pub(super) fn blank_all<R: Record>(records: &mut [R])
    ensures { records.new ≡ replicate (length records.old) R.vacant }
{
    let blank = R::blank();
    records.fill_with(|| blank);
}
