// What a report has counted so far.
ghost use Rattle.std.specs.Prelude.{◌≡◌, ◌^◌, ◌<◌, ◌≤◌, false, length, is_err, if◌then◌else◌, nat_eq};
ghost use Rattle.sorted_list.specs.Lists.{held};
ghost use Rattle.search.specs.Stacks.{steps};
ghost use Rattle.search.specs.Tallies.{entered, with_circle, taken, over_budget, tallied};

use crate::stack::Stack;
use recording::{Answer, SearchCause};
use rows::CircleRow;
use sorted_list::{ListCause, SortedList};

// The number of chains, and whether each of their circles found a place.
#[derive(Clone, Copy)]
pub(crate) struct Tally {
    pub(crate) chains: u32,
    pub(crate) listed: Result<(), ListCause>,
}

// Adds the circle of a chain that closes.
fn enter(stack: &Stack, circles: &mut SortedList<'_, CircleRow>) -> Result<(), ListCause>
    ensures answers { result ≡ entered (held circles.old) (steps stack.now) }
    ensures holds { held circles.new ≡ with_circle (held circles.old) (steps stack.now) }
    ensures lent { circles.new.places.ghost_name ≡ circles.old.places.ghost_name }
{
    if !stack.closes() {
        return Ok(());
    }
    circles.add(stack.circle())
}

impl Tally {
    // Nothing yet.
    pub(crate) fn start() -> Tally
        ensures { result ≡ record { chains = 0; listed = Ok tt } }
    {
        Tally {
            chains: 0,
            listed: Ok(()),
        }
    }

    // Counts the chain of the stack, and adds its circle. Refused where the budget is spent.
    pub(crate) fn take(
        &mut self,
        stack: &Stack,
        budget: u32,
        circles: &mut SortedList<'_, CircleRow>,
    ) -> Result<(), SearchCause>
        requires { self.old.chains ≤ budget }
        ensures answers { result ≡ over_budget self.old budget }
        ensures counts { self.new ≡ (if nat_eq self.old.chains budget then self.old else taken self.old (entered (held circles.old) (steps stack.now))) }
        ensures holds { held circles.new ≡ (if nat_eq self.old.chains budget then held circles.old else with_circle (held circles.old) (steps stack.now)) }
        ensures lent { circles.new.places.ghost_name ≡ circles.old.places.ghost_name }
    {
        if self.chains == budget {
            return Err(SearchCause::Budget);
        }
        self.chains += 1;
        self.listed = self.listed.and(enter(stack, circles));
        Ok(())
    }

    // The answer once all the chains were counted.
    pub(crate) fn answer(&self, circles: &SortedList<'_, CircleRow>) -> Result<Answer, SearchCause>
        requires { is_err self.now.listed ≡ false → length (held circles.now).records < 2 ^ 32 }
        ensures { result ≡ tallied self.now (length (held circles.now).records) }
    {
        self.listed.map_err(|_| SearchCause::Places)?;
        Ok(Answer {
            circles: circles.count() as u32,
            chains: self.chains,
        })
    }
}
