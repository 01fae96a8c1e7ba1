// Files fed to a ledger, and printed lines, by example.
#![tactic(auto)]

#[cfg(test)]
mod files;
#[cfg(test)]
mod prints;
