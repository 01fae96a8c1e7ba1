// Circle rows: the plain form in which circles lie in memory.
ghost use Rattle.std.specs.Prelude.{◌≡◌, Decides};
ghost use Rattle.rows.specs.Circles.{is_circle_row, IsCircleRow, blank_row};
ghost use Rattle.rows.specs.Orders.{rank_row};
ghost use Rattle.rows.specs.OrderLaws.{row_order, row_same};

use crate::closing::{are_zero, make_circle};
use crate::step::Step;
use sorted_list::{Record, WholeKey};
use std::cmp::Ordering;

// A number of steps, and places for 64: the number stands beside the places, since rows lie plainly in memory.
// Rows ascend by that number, and then by their steps in turn, in all places.
#[derive(Clone, Copy, PartialEq, Eq, PartialOrd, Ord, Debug)]
pub struct CircleRow {
    pub count: u8,
    pub steps: [Step; 64],
}

impl CircleRow {
    // Whether the counted steps are a circle and the places past them are zero.
    pub fn is_circle(&self) -> bool
        ensures value { result ≡ is_circle_row self.now }
        ensures decides { Decides result (IsCircleRow self.now) }
    {
        self.steps
            .split_at_checked(usize::from(self.count))
            .is_some_and(|(steps, rest)| make_circle(steps) && are_zero(rest))
    }
}

impl Record for CircleRow {
    ghost rank = { rank_row };

    ghost vacant = { blank_row };

    ghost order = { row_order };

    #[tactic(auto, using(crate::proofs::Orders::row_ranked))]
    fn compare(&self, other: &CircleRow) -> Ordering {
        self.cmp(other)
    }

    fn blank() -> CircleRow {
        CircleRow {
            count: 0,
            steps: [Step::ZERO; 64],
        }
    }
}

impl WholeKey for CircleRow {
    ghost same = { row_same };
}
