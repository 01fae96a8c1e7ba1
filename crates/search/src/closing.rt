// The circle of a chain that closes.
ghost use Rattle.std.specs.Prelude.{◌≡◌};
ghost use Rattle.recording.specs.Answers.{closed, circle_row};
ghost use Rattle.recording.specs.Chains.{step};
ghost use Rattle.search.specs.Stacks.{steps};

use crate::stack::Stack;
use rows::{CircleRow, Edge, Step};
use std::array;

// The step that an edge gives to a circle. No `From`: that would stand in `rows`, and its definition stands above, in `recording`.
fn step_of(edge: &Edge) -> Step
    ensures { result ≡ step edge.now }
{
    Step {
        thread: edge.thread,
        held: edge.held,
        wanted: edge.wanted,
    }
}

impl Stack {
    // Whether the chain closes: there are two or more edges, and the last wanted lock is the first held lock.
    pub(crate) fn closes(&self) -> bool
        ensures { result ≡ closed (steps self.now) }
    {
        match self.levels.as_slice() {
            [first, .., top] => top.edge.wanted == first.edge.held,
            _ => false,
        }
    }

    // The row of the circle that a closed chain gives.
    pub(crate) fn circle(&self) -> CircleRow
        ensures { result ≡ circle_row (steps self.now) }
    {
        CircleRow {
            count: self.levels.len() as u8,
            steps: array::from_fn(|i| {
                self.levels
                    .get(i)
                    .map_or(Step::ZERO, |level| step_of(&level.edge))
            }),
        }
    }
}
