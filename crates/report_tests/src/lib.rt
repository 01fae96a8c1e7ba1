// Reports by example.
#![tactic(auto)]

#[cfg(test)]
mod reports;
