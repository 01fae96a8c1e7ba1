// The calls of a sorted list.
ghost use Rattle.std.specs.Prelude.{◌≡◌, length};
ghost use Rattle.std.specs.List.{slice_get};
ghost use Rattle.sorted_list.specs.Lists.{held, opened, present, added, answer};

use super::SortedList;
use super::steps::blank_all;
use crate::cause::ListCause;
use crate::record::Record;

// `lent` says that the memory is the one from before: it ties two states, so no ghost field can say it.
impl<'a, R: Record> SortedList<'a, R> {
    // An empty list over the places, each of which is blanked.
    pub fn open(places: &'a mut [R]) -> SortedList<'a, R>
        ensures holds { held result ≡ opened R.vacant (length places.old) }
        ensures lent { result.places.ghost_name ≡ places.entry.ghost_name }
    {
        let mut list = SortedList { places, count: 0 };
        list.clear();
        list
    }

    // The records that the list holds, in their order.
    pub fn records(&self) -> &[R]
        ensures { result.now ≡ (held self.now).records }
    {
        &self.places[..self.count]
    }

    // How many records the list holds.
    pub fn count(&self) -> usize
        ensures { result ≡ length (held self.now).records }
    {
        self.records().len()
    }

    // How many records the list has places for.
    pub fn capacity(&self) -> usize
        ensures { result ≡ length self.now.places.now }
    {
        self.places.len()
    }

    // The record at a place, if there is one.
    pub fn at(&self, place: usize) -> Option<R>
        ensures { result ≡ slice_get (held self.now).records place }
    {
        self.records().get(place).copied()
    }

    // Whether the list holds a record that is equal to the sought one in the order.
    pub fn contains(&self, sought: &R) -> bool
        ensures { result ≡ present R.rank (held self.now).records sought.now }
    {
        self.place_of(sought).is_ok()
    }

    // Puts an absent record at its place. A present one alters nothing, and neither does one that is refused.
    pub fn add(&mut self, new: R) -> Result<(), ListCause>
        ensures answers { result ≡ answer R.rank (held self.old) new }
        ensures holds { held self.new ≡ added R.rank (held self.old) new }
        ensures lent { self.new.places.ghost_name ≡ self.old.places.ghost_name }
    {
        match self.place_of(&new) {
            Ok(_) => Ok(()),
            Err(_) if self.is_full() => Err(ListCause::Full),
            Err(place) => {
                self.insert(place, new);
                Ok(())
            }
        }
    }

    // Blanks every place, and holds no record again.
    pub fn clear(&mut self)
        ensures holds { held self.new ≡ opened R.vacant (length self.old.places.now) }
        ensures lent { self.new.places.ghost_name ≡ self.old.places.ghost_name }
    {
        self.count = 0;
        let places = &mut *self.places;
        blank_all(places);
    }
}
