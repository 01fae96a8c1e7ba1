// Random lists of calls, on which both implementations and a plain list of arrows agree. The two go side by side through all of it: a
// struct of them would only be taken apart.
use crate::arrows::{draw_call, past};
use order::{Call, Clocks, Matrix, OrderCause, SegmentOrder, make};
use std::alloc::AllocError;
use std::process::Abort;
use std::test::Fail;

fn next(state: u32) -> u32 {
    state.wrapping_mul(1664525).wrapping_add(1013904223)
}

// A number up to 127.
fn pick(state: u32) -> u16 {
    (state / 65536 % 128) as u16
}

fn random_call(state: u32) -> Call {
    let x = pick(state);
    if state / 256 % 2 == 0 {
        return Call::Fork(x);
    }
    Call::Meet(x, pick(next(state)))
}

// Makes random calls on both until the clocks are full, and draws their arrows.
fn grow(
    rt: &impl Abort,
    seed: u32,
    clocks: &mut Clocks,
    matrix: &mut Matrix,
    arrows: &mut Vec<(u16, u16)>,
) -> Result<(), AllocError> {
    let mut state = seed;
    for _ in 0..4000 {
        state = next(state);
        let call = random_call(state);
        let answer = make(clocks, call);
        if answer == Err(OrderCause::Ceiling) {
            break;
        }
        assert_eq!(rt; make(matrix, call), answer);
        if let Ok(n) = answer {
            draw_call(arrows, call, n)?;
        }
    }
    Ok(())
}

fn agree_on(rt: &impl Abort, clocks: &Clocks, matrix: &Matrix, y: u16, past: [bool; 130]) {
    for (x, told) in (0..130).zip(past) {
        assert_eq!(rt; clocks.precedes(x, y), told);
        assert_eq!(rt; matrix.precedes(x, y), told);
    }
}

fn agree(rt: &impl Abort, clocks: &Clocks, matrix: &Matrix, arrows: &[(u16, u16)]) {
    for y in 0..130 {
        agree_on(rt, clocks, matrix, y, past(arrows, y));
    }
}

#[test]
fn random_calls_agree(rt: HostRuntime) -> Result<(), Fail> {
    for seed in 1..5 {
        let mut clocks = Clocks::fresh();
        let mut matrix = Matrix::fresh();
        let mut arrows = Vec::new(rt.alloc());
        grow(&rt, seed, &mut clocks, &mut matrix, &mut arrows)?;
        assert!(rt; arrows.len() > 120 && arrows.len() <= 256);
        agree(&rt, &clocks, &matrix, &arrows);
    }
    Ok(())
}
