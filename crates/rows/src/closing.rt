// Whether steps make a circle.
ghost use Rattle.std.specs.Prelude.{◌≡◌};
ghost use Rattle.std.specs.List.{list_all};
ghost use Rattle.rows.specs.Circles.{closes, apart, smallest_first, is_circle, is_zero};

use crate::step::Step;

// Each step wants what the next one holds, and the last step what the first one holds.
fn closes_up(steps: &[Step]) -> bool
    ensures { result ≡ closes steps.now }
{
    let next = steps.iter().skip(1).chain(steps.iter().take(1));
    steps.iter().zip(next).all(|(s, z)| s.waits_for(z))
}

fn threads_differ(steps: &[Step]) -> bool
    ensures { result ≡ apart steps.now }
{
    let Some((first, rest)) = steps.split_first() else {
        return true;
    };
    let thread = first.thread;
    rest.iter().all(|z| thread != z.thread) && threads_differ(rest)
}

fn is_smallest_first(steps: &[Step]) -> bool
    ensures { result ≡ smallest_first steps.now }
{
    let Some((first, rest)) = steps.split_first() else {
        return true;
    };
    rest.iter().all(|z| first.thread < z.thread)
}

// Whether they do: no step, or two and more.
pub(crate) fn make_circle(steps: &[Step]) -> bool
    ensures { result ≡ is_circle steps.now }
{
    steps.len() != 1 && closes_up(steps) && threads_differ(steps) && is_smallest_first(steps)
}

// Nothing stands in these places.
pub(crate) fn are_zero(steps: &[Step]) -> bool
    ensures { result ≡ list_all is_zero steps.now }
{
    steps.iter().all(|z| *z == Step::ZERO)
}
