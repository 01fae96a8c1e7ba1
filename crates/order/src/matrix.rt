// An order that keeps the whole relation.
ghost use Rattle.std.specs.Prelude.{◌≡◌, ℕ, ◌<◌, true, slice_index_or};
ghost use Rattle.order.specs.Bits.{has, no_bits};
ghost use Rattle.order.specs.Segments.{known_of, count_of};

use crate::bits::Bits;
use crate::segments::Segments;

mod calls;

// For each segment the set of those that precede it, which have smaller numbers. The 256 is `CEILING`, too: an argument cannot be
// computed from a constant.
#[derive(Drop)]
pub struct Matrix {
    segments: Segments<Bits, 256>,
    ghost earlier: { (a b : ℕ) → b < count_of segments.places.items → has (slice_index_or (known_of segments.places.items) b no_bits) a ≡ true → a < b },
}
