// Lists of calls, and the law that an order is the paths of the arrows that they draw.
ghost use Rattle.std.specs.Prelude.{◌≡◌, List};
ghost use Rattle.order.specs.declared.request.Call.{Call as Made};
ghost use Rattle.order.specs.Histories.{Told, answer, after, start, replayed};

use crate::cause::OrderCause;
use crate::request::Call;
use crate::segment_order::SegmentOrder;

pub fn make<O: SegmentOrder>(order: &mut O, call: Call) -> Result<u16, OrderCause>
    ensures answers { result ≡ answer O.limit (O.meaning order.old) call }
    ensures means { O.meaning order.new ≡ after O.limit (O.meaning order.old) call }
{
    match call {
        Call::Fork(x) => order.fork(x),
        Call::Meet(x, y) => order.meet(x, y),
    }
}

// A fresh order on which the calls were made one after another. Those that it refuses change nothing.
pub fn replay<O: SegmentOrder>(calls: &[Call]) -> O
    ensures means { O.meaning result ≡ (replayed O.limit start calls.now).order }
    ensures paths { Told (O.meaning result) (replayed O.limit start calls.now).arrows }
{
    let mut order = O::fresh();
    for call in calls {
        let _ = make(&mut order, *call);
    }
    order
}

// The law for every list of calls, however long.
pub fn order_is_paths<O: SegmentOrder>()
    ensures { (calls : List Made) → Told (replayed O.limit start calls).order (replayed O.limit start calls).arrows }
{}
