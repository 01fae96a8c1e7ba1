// Every refusal once, and full orders.
use order::{Clocks, Matrix, OrderCause, SegmentOrder};
use std::process::Abort;
use std::test::Fail;

// As many forks in a row, each at the first of the two segments that the last one added.
fn fork_in_a_row<O: SegmentOrder>(order: &mut O, forks: u16) -> Result<(), Fail> {
    let mut x = 0;
    for _ in 0..forks {
        x = order.fork(x)?;
    }
    Ok(())
}

#[test]
fn a_full_order_refuses_a_meet(rt: HostRuntime) -> Result<(), Fail> {
    let mut clocks = Clocks::fresh();
    let mut matrix = Matrix::fresh();
    fork_in_a_row(&mut clocks, 63)?;
    fork_in_a_row(&mut matrix, 63)?;
    assert_eq!(rt; clocks.meet(125, 126), Err(OrderCause::Ceiling));
    assert_eq!(rt; clocks.fork(125), Err(OrderCause::Ceiling));
    assert_eq!(rt; matrix.meet(125, 126), Ok(127));
    Ok(())
}

fn refuses<O: SegmentOrder + Drop>(rt: &impl Abort) {
    let mut order = O::fresh();
    assert_eq!(rt; order.fork(1), Err(OrderCause::End), "not given out");
    assert_eq!(rt; order.fork(0), Ok(1));
    assert_eq!(rt; order.fork(0), Err(OrderCause::End), "closed by a fork");
    assert_eq!(rt; order.meet(1, 1), Err(OrderCause::End), "one segment twice");
    assert_eq!(rt;
        order.meet(0, 1),
        Err(OrderCause::End),
        "the first is closed"
    );
    assert_eq!(rt;
        order.meet(1, 0),
        Err(OrderCause::End),
        "the second is closed"
    );
    assert_eq!(rt; order.meet(1, 2), Ok(3));
    assert_eq!(rt; order.meet(1, 2), Err(OrderCause::End), "closed by a meet");
    assert_eq!(rt; order.meet(3, 2), Ok(4), "the second stays open");
    assert!(rt; order.precedes(2, 4) && !order.precedes(4, 2) && !order.precedes(4, 5));
}

#[test]
fn only_open_ends_grow(rt: HostRuntime) {
    refuses::<Clocks>(&rt);
    refuses::<Matrix>(&rt);
}

#[test]
fn causes_have_numbers(rt: HostRuntime) {
    assert_eq!(rt; OrderCause::End.number(), 8);
    assert_eq!(rt; OrderCause::Ceiling.number(), 9);
}
