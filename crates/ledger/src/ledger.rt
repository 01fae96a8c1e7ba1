// The ledger.
ghost use Rattle.ledger.specs.Tables.{Counted, Tidy};

use crate::table::Table;

mod calls;
mod checks;
mod questions;

// What is kept of the threads 0 to 63.
// `counted` and `kept` say of all rows what each keeps: outside this crate a ledger's rows are seen, and not their type.
#[derive(Drop)]
pub struct Ledger {
    table: Table,
    pub ghost counted: { Counted table },
    pub ghost kept: { Tidy table },
}
