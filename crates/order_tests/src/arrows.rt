// A plain list of arrows, in the order in which they were drawn.
use order::Call;
use std::alloc::AllocError;

// Draws the arrows of a call that answered n.
pub(crate) fn draw_call(
    arrows: &mut Vec<(u16, u16)>,
    call: Call,
    n: u16,
) -> Result<(), AllocError> {
    let drawn = match call {
        Call::Fork(x) => [(x, n), (x, n.wrapping_add(1))],
        Call::Meet(x, y) => [(x, n), (y, n)],
    };
    arrows.extend_from_slice(&drawn)
}

// What a path leads from to y, by walking the arrows from the last to the first.
pub(crate) fn past(arrows: &[(u16, u16)], y: u16) -> [bool; 130] {
    let mut past = [false; 130];
    for (from, to) in arrows.iter().rev() {
        if *to == y || past.get(usize::from(*to)) == Some(&true) {
            if let Some(mark) = past.get_mut(usize::from(*from)) {
                *mark = true;
            }
        }
    }
    past
}
