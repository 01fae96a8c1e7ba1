// Reports over small edge lists, and the comparison of two of them.
use order::{Clocks, Matrix, SegmentOrder};
use recording::{Answer, SearchCause};
use rows::{CircleRow, Edge};
use search::{compare, report, report_rows};
use sorted_list::{Record, SortedList};

// As in `row_tests`: a crate that both use would be longer than the literal.
fn edge(thread: u8, held: u8, wanted: u8, guards: u64, segment: u16) -> Edge {
    Edge {
        thread,
        held,
        wanted,
        guards,
        segment,
    }
}

// The report over two edges and a row that is no edge, where segment 0 forks to 1 and 2.
fn two_edges<O: SegmentOrder + Drop>(
    segment: u16,
    budget: u32,
    circles: &mut SortedList<'_, CircleRow>,
) -> Result<Answer, SearchCause> {
    let mut places = [Edge::blank(); 4];
    let mut edges = SortedList::open(&mut places);
    let _ = edges.add(edge(0, 1, 2, 2, 1));
    let _ = edges.add(edge(1, 2, 1, 4, segment));
    let _ = edges.add(edge(2, 1, 2, 0, 1));
    let mut order = O::fresh();
    let _ = order.fork(0);
    report(&edges, &order, budget, circles)
}

fn answer(circles: u32, chains: u32) -> Result<Answer, SearchCause> {
    Ok(Answer { circles, chains })
}

#[test]
fn parallel_edges_close_and_ordered_ones_do_not(rt: HostRuntime) {
    let mut places = [CircleRow::blank(); 2];
    let mut circles = SortedList::open(&mut places);
    assert_eq!(rt; two_edges::<Matrix>(2, 10, &mut circles), answer(1, 3));
    assert_eq!(rt; circles.count(), 1);
    assert_eq!(rt; two_edges::<Clocks>(0, 10, &mut circles), answer(0, 2));
    assert_eq!(rt; circles.count(), 0);
}

// Later rows may come first, stand twice, and be no edges.
#[test]
fn rows_need_not_ascend(rt: HostRuntime) {
    let last = edge(1, 2, 1, 4, 0);
    let rows = [last, edge(2, 1, 2, 0, 0), last, edge(0, 1, 2, 2, 0)];
    let mut places = [CircleRow::blank(); 1];
    let mut circles = SortedList::open(&mut places);
    assert_eq!(rt;
        report_rows(&rows, &Matrix::fresh(), 10, &mut circles),
        answer(1, 5)
    );
    assert_eq!(rt; circles.count(), 1);
}

#[test]
fn a_refused_report_leaves_no_circle(rt: HostRuntime) {
    let mut places = [CircleRow::blank(); 1];
    let mut circles = SortedList::open(&mut places);
    assert_eq!(rt; two_edges::<Matrix>(2, 3, &mut circles), answer(1, 3));
    assert_eq!(rt;
        two_edges::<Matrix>(2, 2, &mut circles),
        Err(SearchCause::Budget)
    );
    assert_eq!(rt; circles.count(), 0);
}

#[test]
fn the_budget_is_judged_before_the_places(rt: HostRuntime) {
    let mut places = [CircleRow::blank(); 0];
    let mut circles = SortedList::open(&mut places);
    assert_eq!(rt;
        two_edges::<Matrix>(2, 3, &mut circles),
        Err(SearchCause::Places)
    );
    assert_eq!(rt;
        two_edges::<Matrix>(2, 2, &mut circles),
        Err(SearchCause::Budget)
    );
}

#[test]
fn reports_with_different_orders_are_compared(rt: HostRuntime) {
    let mut old_places = [CircleRow::blank(); 2];
    let mut new_places = [CircleRow::blank(); 2];
    let mut edge_places = [Edge::blank(); 2];
    let mut old = SortedList::open(&mut old_places);
    let mut new = SortedList::open(&mut new_places);
    let mut edges = SortedList::open(&mut edge_places);
    let _ = edges.add(edge(0, 1, 2, 2, 1));
    let _ = edges.add(edge(1, 2, 1, 4, 2));
    let mut matrix = Matrix::fresh();
    let mut clocks = Clocks::fresh();
    let _ = matrix.fork(0);
    let _ = clocks.fork(0);
    let same = compare(&edges, &matrix, &mut old, &edges, &clocks, &mut new, 3);
    assert_eq!(rt; same.old, answer(1, 3));
    assert_eq!(rt; same.new, answer(1, 3));
    assert!(rt; same.same);
    let _ = clocks.meet(2, 1);
    let refused = compare(&edges, &matrix, &mut old, &edges, &clocks, &mut new, 2);
    assert_eq!(rt; refused.old, Err(SearchCause::Budget));
    assert!(rt; !refused.same);
}
