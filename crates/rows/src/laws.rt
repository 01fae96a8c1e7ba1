// The laws of the rows. Each is the contract of a function that does nothing.
ghost use Rattle.std.specs.Prelude.{◌≡◌, Some};
ghost use Rattle.rows.specs.Circles.{IsCircleRow, blank_row};
ghost use Rattle.rows.specs.Edges.{IsEdge, blank_edge};
ghost use Rattle.rows.specs.Orders.{rank_step};

use crate::step::Step;

// The rows that stand in free places are an edge and a circle.
pub fn blank_rows_are_lawful()
    ensures edge { IsEdge blank_edge }
    ensures circle { IsCircleRow blank_row }
{}

// Steps ascend by their places.
pub fn steps_ascend_by_places()
    ensures total { (s z : Step) → ⟦<Step as Ord>⟧.cmp s z ≡ rank_step s z }
    ensures partial { (s z : Step) → ⟦<Step as PartialOrd>⟧.partial_cmp s z ≡ Some (rank_step s z) }
{}
