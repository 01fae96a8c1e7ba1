// Pairs of numbers, by the left one and then by the right one.
ghost use Rattle.sorted_list_tests.specs.Records.{pair_rank, no_pair};
ghost use Rattle.std.proofs.Common.{rules};

use sorted_list::{Record, WholeKey};
use std::cmp::Ordering;

#[derive(Clone, Copy, PartialEq, Eq, PartialOrd, Ord, Debug)]
pub struct Pair {
    pub left: u32,
    pub right: u32,
}

impl Record for Pair {
    ghost rank = { pair_rank };

    ghost vacant = { no_pair };

    ghost order = { Prim.search rules };

    fn compare(&self, other: &Pair) -> Ordering {
        self.cmp(other)
    }

    fn blank() -> Pair {
        Pair { left: 0, right: 0 }
    }
}

impl WholeKey for Pair {
    ghost same = { Prim.search rules };
}
