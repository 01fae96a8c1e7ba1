// Circles.
ghost use Rattle.std.specs.Prelude.{◌≡◌, true, if◌then◌else◌};
ghost use Rattle.rows.specs.Circles.{is_circle_row, blank_row};

use crate::row::CircleRow;
use sorted_list::Record;

// A circle: no step at all, or two to 64 steps that close up, with different threads, the smallest first.
#[derive(Clone, Copy)]
pub struct Circle {
    row: CircleRow,
    ghost closed: { is_circle_row row ≡ true },
}

impl Circle {
    // The circle of a row that is one, else the blank circle, which has no step.
    pub fn from_row(row: CircleRow) -> Circle
        ensures value { result.row ≡ (if is_circle_row row then row else blank_row) }
        ensures back { (c : Circle) → c.row ≡ row → result ≡ c }
    {
        let row = if row.is_circle() {
            row
        } else {
            CircleRow::blank()
        };
        Circle { row }
    }

    // The row in which the circle lies in memory.
    pub fn row(&self) -> CircleRow
        ensures { result ≡ self.now.row }
    {
        self.row
    }
}
