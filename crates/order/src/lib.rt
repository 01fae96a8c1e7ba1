// The order of segments: one interface and its implementations.
#![tactic(auto)]

mod bits;
mod cause;
mod clock;
mod clocks;
mod history;
mod matrix;
mod request;
mod segment_order;
mod segments;

pub use cause::OrderCause;
pub use clocks::Clocks;
pub use history::{make, order_is_paths, replay};
pub use matrix::Matrix;
pub use request::Call;
pub use segment_order::SegmentOrder;
