// What every order of segments offers.
ghost use Rattle.std.specs.Prelude.{◌≡◌, ℕ, ◌≤◌};
ghost use Rattle.order.specs.Meaning.{Meaning, Sound, fresh_order, fork_answer, fork_after, meet_answer, meet_after};

use crate::cause::OrderCause;

// Segments are numbered from 0 as they are added. Some are open ends, at which the order grows.
pub trait SegmentOrder {
    // Every segment's number is below the ceiling.
    const CEILING: u16;

    // The number of segments, which precedes which, and the open ends.
    ghost meaning: { Self → Meaning };

    // The ceiling, for clauses.
    ghost limit: { ℕ };

    // One segment, 0, which is an open end.
    fn fresh() -> Self
        ensures { meaning result ≡ fresh_order };

    // Adds two segments after x, which is closed. Answers the number of the first.
    fn fork(&mut self, x: u16) -> Result<u16, OrderCause>
        ensures answers { result ≡ fork_answer limit (meaning self.old) x }
        ensures means { meaning self.new ≡ fork_after limit (meaning self.old) x };

    // Adds a segment after x, which is closed, and y, which stays open. Answers its number.
    fn meet(&mut self, x: u16, y: u16) -> Result<u16, OrderCause>
        ensures answers { result ≡ meet_answer limit (meaning self.old) x y }
        ensures means { meaning self.new ≡ meet_after limit (meaning self.old) x y };

    // Whether x precedes y.
    fn precedes(&self, x: u16, y: u16) -> bool
        ensures { result ≡ (meaning self.now).before x y };

    ghost least: { 127 ≤ limit };

    ghost most: { limit ≤ 65535 };

    ghost sound: { (o : Self) → Sound limit (meaning o) };
}
