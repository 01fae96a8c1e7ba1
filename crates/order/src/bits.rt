// Sets of numbers below 256.
ghost use Rattle.std.specs.Prelude.{◌≡◌, ℕ, ◌<◌, false, ◌||◌, ◌==◌};
ghost use Rattle.order.specs.Bits.{has};

use std::array;

// Number k is bit k % 64 of word k / 64. A test or a setting of a bit is one shift, here and in other crates: as a public call
// it would ask that the number be small.
#[derive(Clone, Copy, Default)]
pub(crate) struct Bits {
    words: [u64; 4],
}

impl Bits {
    // `Default` fills the places of an `ArrayVec`; this says what the set holds.
    pub(crate) fn none() -> Bits
        ensures { (k : ℕ) → has result k ≡ false }
    {
        Bits { words: [0; 4] }
    }

    pub(crate) fn contains(&self, k: u16) -> bool
        ensures { result ≡ has self.now k }
    {
        self.words
            .get(usize::from(k / 64))
            .is_some_and(|word| (word >> (k % 64)) % 2 == 1)
    }

    pub(crate) fn insert(&mut self, k: u16)
        requires { k < 256 }
        ensures { (j : ℕ) → has self.new j ≡ (j == k || has self.old j) }
    {
        self.words[usize::from(k / 64)] |= 1 << (k % 64);
    }

    // The numbers that are in either set.
    pub(crate) fn merge(&self, other: &Bits) -> Bits
        ensures { (j : ℕ) → has result j ≡ (has self.now j || has other.now j) }
    {
        Bits {
            words: array::from_fn(|i| self.words[i] | other.words[i]),
        }
    }
}
