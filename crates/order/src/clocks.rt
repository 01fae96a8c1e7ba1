// An order that keeps a clock for each segment.
ghost use Rattle.order.specs.Clock.{view};
ghost use Rattle.order.specs.Runs.{Orderly};

use crate::clock::Clock;
use crate::segments::Segments;

mod calls;

// Each segment belongs to a run, which goes by the number of its first segment.
#[derive(Drop)]
pub struct Clocks {
    segments: Segments<Clock, 127>,
    ghost orderly: { Orderly (view segments.places.items) },
}
