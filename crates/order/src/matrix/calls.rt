// The calls of the matrix.
ghost use Rattle.std.specs.Prelude.{◌≡◌, ℕ, ◌<◌};
ghost use Rattle.std.proofs.Common.{rules};
ghost use Rattle.order.specs.Bits.{has};
ghost use Rattle.order.specs.Matrices.{matrix_meaning};
ghost use Rattle.order.specs.Meaning.{upto};

use super::Matrix;
use crate::bits::Bits;
use crate::cause::OrderCause;
use crate::segment_order::SegmentOrder;
use crate::segments::Segments;

impl Matrix {
    // The segment and all that precede it.
    fn up_to(&self, x: u16) -> Bits
        requires { x < (matrix_meaning self.now).segments }
        ensures { (a : ℕ) → has result a ≡ upto (matrix_meaning self.now) x a }
    {
        let mut past = *self.segments.known(x);
        past.insert(x);
        past
    }
}

// Its steps are those of `Clocks`, over what is known of a segment; what each has to keep of that is its own, so bodies that both
// share would take these facts as arguments.
impl SegmentOrder for Matrix {
    const CEILING: u16 = 256;

    ghost meaning = { matrix_meaning };

    ghost limit = { 256 };

    ghost least = { Prim.search rules };

    ghost most = { Prim.search rules };

    ghost sound = { Prim.search rules };

    fn fresh() -> Matrix {
        Matrix {
            segments: Segments::one(Bits::none()),
        }
    }

    fn fork(&mut self, x: u16) -> Result<u16, OrderCause> {
        let n = self
            .segments
            .admit(self.segments.is_end(x), 2, Self::CEILING)?;
        let past = self.up_to(x);
        self.segments.close(x);
        self.segments.add(past);
        self.segments.add(past);
        Ok(n)
    }

    fn meet(&mut self, x: u16, y: u16) -> Result<u16, OrderCause> {
        let n = self
            .segments
            .admit(self.segments.can_meet(x, y), 1, Self::CEILING)?;
        let past = self.up_to(x).merge(&self.up_to(y));
        self.segments.close(x);
        self.segments.add(past);
        Ok(n)
    }

    fn precedes(&self, x: u16, y: u16) -> bool {
        self.segments.get(y).is_some_and(|past| past.contains(x))
    }
}
