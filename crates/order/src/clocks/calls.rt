// The calls of the clocks.
ghost use Rattle.std.specs.Prelude.{◌≡◌, ℕ, ◌<◌};
ghost use Rattle.std.proofs.Common.{rules};
ghost use Rattle.order.specs.Clock.{seen_of};
ghost use Rattle.order.specs.Clocks.{runs_of, clocks_meaning};
ghost use Rattle.order.specs.Runs.{upto_clock};

use super::Clocks;
use crate::cause::OrderCause;
use crate::clock::Clock;
use crate::segment_order::SegmentOrder;
use crate::segments::Segments;

impl Clocks {
    // The clock of what comes right after the segment in its run.
    fn up_to(&self, x: u16) -> Clock
        requires { x < (runs_of self.now).count }
        ensures run { result.run ≡ (runs_of self.now).run x }
        ensures seen { (q : ℕ) → seen_of result q ≡ upto_clock (runs_of self.now) x q }
    {
        let last = self.segments.known(x);
        let mut clock = *last;
        clock.step(last.run);
        clock
    }
}

// Its steps are those of `Matrix`; why they are not shared stands there.
impl SegmentOrder for Clocks {
    const CEILING: u16 = 127;

    ghost meaning = { clocks_meaning };

    ghost limit = { 127 };

    ghost least = { Prim.search rules };

    ghost most = { Prim.search rules };

    ghost sound = { Prim.search rules };

    fn fresh() -> Clocks {
        Clocks {
            segments: Segments::one(Clock::none()),
        }
    }

    // The first of the two segments goes on in x's run, and the second begins one.
    fn fork(&mut self, x: u16) -> Result<u16, OrderCause> {
        let n = self
            .segments
            .admit(self.segments.is_end(x), 2, Self::CEILING)?;
        let clock = self.up_to(x);
        self.segments.close(x);
        self.segments.add(clock);
        self.segments.add(clock.in_run((n + 1) as u8));
        Ok(n)
    }

    fn meet(&mut self, x: u16, y: u16) -> Result<u16, OrderCause> {
        let n = self
            .segments
            .admit(self.segments.can_meet(x, y), 1, Self::CEILING)?;
        let clock = self.up_to(x).merge(&self.up_to(y));
        self.segments.close(x);
        self.segments.add(clock);
        Ok(n)
    }

    // y has seen more of x's run than x itself.
    fn precedes(&self, x: u16, y: u16) -> bool {
        let (Some(a), Some(b)) = (self.segments.get(x), self.segments.get(y)) else {
            return false;
        };
        a.of_run(a.run) < b.of_run(a.run)
    }
}
