// Feeding a whole file.
ghost use Rattle.std.specs.Prelude.{◌≡◌, ◌≤◌, length, Err, ◌≢◌};
ghost use Rattle.order.specs.declared.cause.OrderCause.TheVariants.{End};
ghost use Rattle.rules.specs.States.{after_all};
ghost use Rattle.ledger.specs.Ledgers.{state_with};
ghost use Rattle.recording.specs.Recording.{Recording, followed};
ghost use Rattle.rules.specs.Behind.{Behind};
ghost use Rattle.feeding.specs.Files.{fed, taken, file_answer, events_taken, after_file, Feeds};
ghost use Rattle.feeding.specs.Lent.{state_of, SameLoans};
ghost use Rattle.feed.specs.Lines.{lines};
ghost use Rattle.feeding.specs.Stops.{line_answer, line_after};
ghost use Rattle.feed.specs.declared.fault.Cause.TheVariants.{Order};

use crate::fault::Stop;
use feed::{Fault, LONGEST, Lines};
use ledger::Ledger;
use order::SegmentOrder;
use rows::{Edge, Event};
use sorted_list::SortedList;
use text::read_line;

// A ledger, its edge list and its order, lent together.
#[derive(Drop)]
struct Lent<'l, 'e, 'm, 'o, O> {
    ledger: &'l mut Ledger,
    edges: &'e mut SortedList<'m, Edge>,
    order: &'o mut O,
}

impl<O: SegmentOrder> Lent<'_, '_, '_, '_, O> {
    // Reads a line, and then gives its event to the ledger.
    fn take_line(&mut self, bytes: &[u8]) -> Result<Event, Stop>
        ensures answers { result ≡ line_answer O.limit (state_of O.meaning self.old) bytes.now }
        ensures leaves { state_of O.meaning self.new ≡ line_after O.limit (state_of O.meaning self.old) bytes.now }
        ensures lent { SameLoans self.old self.new }
    {
        let event = read_line(bytes)?;
        self.ledger.enter(self.edges, self.order, event)?;
        Ok(event)
    }

    // Takes every line, up to the first fault, and answers how many there are. The loop of `feed::feed` over another step: a shared one
    // would take the step as a closure and say in clauses what each call leaves, which is longer than the loop.
    fn feed_lines(&mut self, file: &[u8]) -> Result<u32, Fault>
        requires { length file.now ≤ 60000 }
        ensures answers { result ≡ fed O.limit (state_of O.meaning self.old) 0 (lines file.now) }
        ensures leaves { state_of O.meaning self.new ≡ after_all O.limit (state_of O.meaning self.old)
            (taken O.limit (state_of O.meaning self.old) (lines file.now)) }
        ensures lent { SameLoans self.old self.new }
    {
        // Counted here, and not by `enumerate`: after the last line the count is the answer.
        let mut line: u32 = 0;
        for bytes in Lines::of(file) {
            line += 1;
            self.take_line(bytes).map_err(|stop| stop.at_line(line))?;
        }
        Ok(line)
    }
}

// Feeds a whole file, line by line, up to the first fault, and answers how many lines were taken. The lines before a fault stay
// taken, in every layer.
pub fn feed<O: SegmentOrder>(
    ledger: &mut Ledger,
    edges: &mut SortedList<'_, Edge>,
    order: &mut O,
    file: &[u8],
) -> Result<u32, Fault>
    ensures answers { result ≡ file_answer O.limit (state_with ledger.old edges.old (O.meaning order.old)) file.now }
    ensures leaves { state_with ledger.new edges.new (O.meaning order.new) ≡ after_file O.limit (state_with ledger.old edges.old (O.meaning order.old)) file.now }
    ensures lent { edges.new.places.ghost_name ≡ edges.old.places.ghost_name }
    ensures feeds { Feeds O.limit (state_with ledger.old edges.old (O.meaning order.old)) file.now result }
    ensures behind { (ρ : Recording) → Behind ρ (state_with ledger.old edges.old (O.meaning order.old))
        → Behind (followed ρ (events_taken O.limit (state_with ledger.old edges.old (O.meaning order.old)) file.now))
        (state_with ledger.new edges.new (O.meaning order.new)) }
    ensures ends { (ρ : Recording) → Behind ρ (state_with ledger.old edges.old (O.meaning order.old))
        → (f : Fault) → result ≡ Err f → f.cause ≢ Order End }
{
    if file.len() > LONGEST {
        return Err(Fault::TOO_LONG);
    }
    let mut lent = Lent {
        ledger,
        edges,
        order,
    };
    lent.feed_lines(file)
}
