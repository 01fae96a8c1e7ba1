// What a caller of another crate knows of every ledger by its type, however the ledger came to its rows.
ghost use Rattle.std.specs.Prelude.{◌≡◌, true};

use ledger::Ledger;

// The first lock that thread 0 holds, if it holds any, is at most 63.
pub fn is_first_small(ledger: &Ledger) -> bool
    ensures { result ≡ true }
{
    match ledger.held(0, 0) {
        Some(lock) => lock <= 63,
        None => true,
    }
}
