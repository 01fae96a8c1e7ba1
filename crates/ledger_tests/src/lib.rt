// The ledger's events by example, with both orders.
#![tactic(auto)]

#[cfg(test)]
mod accepted;
#[cfg(test)]
mod bench;
mod kept;
#[cfg(test)]
mod refused;

pub use kept::is_first_small;
