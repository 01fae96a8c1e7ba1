// The plain rows that the check works with, their orders and their checks.
#![tactic(auto)]

mod circle;
mod closing;
mod edge;
mod event;
mod laws;
mod life;
mod row;
mod step;

pub use circle::Circle;
pub use edge::Edge;
pub use event::Event;
pub use laws::{blank_rows_are_lawful, steps_ascend_by_places};
pub use life::Life;
pub use row::CircleRow;
pub use step::Step;
