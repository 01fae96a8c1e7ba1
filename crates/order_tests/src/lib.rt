// Orders of segments by example, and beside plain lists of arrows.
#![tactic(auto)]

#[cfg(test)]
mod agreement;
#[cfg(test)]
mod arrows;
#[cfg(test)]
mod ceilings;
