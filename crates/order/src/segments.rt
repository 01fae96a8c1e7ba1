// Segments by their numbers.
ghost use Rattle.std.specs.Prelude.{◌≡◌, ◌<◌, ◌≤◌, [], ◌∷◌, ◌++◌, true, false, not, ◌&&◌, ◌==◌, slice_index_or, slice_set, MatchOption};
ghost use Rattle.order.specs.Meaning.{admitted};
ghost use Rattle.order.specs.Segments.{ends_of, known_of, count_of, end_at};

use crate::cause::OrderCause;
use arrayvec::ArrayVec;

// Whether a segment is an open end, and what else is known of it, closed or not; so it is no `Option`.
#[derive(Clone, Copy, Default)]
struct Segment<T> {
    is_open: bool,
    known: T,
}

// At most N segments.
#[derive(Drop)]
pub(crate) struct Segments<T, const N: usize> {
    places: ArrayVec<Segment<T>, N>,
    ghost within: { count_of places.items ≤ N },
}

impl<T: Copy + Default, const N: usize> Segments<T, N> {
    // One segment, 0, which is an open end.
    pub(crate) fn one(known: T) -> Segments<T, N>
        requires { 0 < N }
        ensures ends { ends_of result.places.items ≡ true ∷ [] }
        ensures known { known_of result.places.items ≡ known ∷ [] }
    {
        let mut segments = Segments {
            places: ArrayVec::new(),
        };
        segments.add(known);
        segments
    }

    // What is known of a segment, if it was given out.
    pub(crate) fn get(&self, x: u16) -> Option<&T>
        ensures { MatchOption result (count_of self.now.places.items ≤ x) (λ k. (x < count_of self.now.places.items) × (k.now ≡ slice_index_or (known_of self.now.places.items) x k.now)) }
    {
        self.places.get(usize::from(x)).map(|s| &s.known)
    }

    // The same where the caller has found that x was given out: an order grows at an open end.
    pub(crate) fn known(&self, x: u16) -> &T
        requires { x < count_of self.now.places.items }
        ensures { result.now ≡ slice_index_or (known_of self.now.places.items) x result.now }
    {
        &self.places[usize::from(x)].known
    }

    pub(crate) fn is_end(&self, x: u16) -> bool
        ensures { result ≡ end_at self.now.places.items x }
    {
        self.places.get(usize::from(x)).is_some_and(|s| s.is_open)
    }

    pub(crate) fn can_meet(&self, x: u16, y: u16) -> bool
        ensures { result ≡ (not (x == y) && (end_at self.now.places.items x && end_at self.now.places.items y)) }
    {
        x != y && self.is_end(x) && self.is_end(y)
    }

    // The next number, if the ends are `good` and as many numbers as wanted are left below the ceiling.
    pub(crate) fn admit(&self, good: bool, wanted: u16, ceiling: u16) -> Result<u16, OrderCause>
        requires { (count_of self.now.places.items ≤ ceiling) × (N ≤ 65535) }
        ensures { result ≡ admitted ceiling (count_of self.now.places.items) wanted good }
    {
        if !good {
            return Err(OrderCause::End);
        }
        let count = self.places.len() as u16;
        if wanted > ceiling - count {
            return Err(OrderCause::Ceiling);
        }
        Ok(count)
    }

    // An open end no longer. A number that was not given out is none.
    pub(crate) fn close(&mut self, x: u16)
        ensures ends { ends_of self.new.places.items ≡ slice_set (ends_of self.old.places.items) x false }
        ensures known { known_of self.new.places.items ≡ known_of self.old.places.items }
    {
        if let Some(segment) = self.places.get_mut(usize::from(x)) {
            segment.is_open = false;
        }
    }

    // One more segment, an open end.
    pub(crate) fn add(&mut self, known: T)
        requires { count_of self.old.places.items < N }
        ensures ends { ends_of self.new.places.items ≡ ends_of self.old.places.items ++ true ∷ [] }
        ensures known { known_of self.new.places.items ≡ known_of self.old.places.items ++ known ∷ [] }
    {
        self.places.push(Segment {
            is_open: true,
            known,
        });
    }
}
