// Edges, circles and lists of them by example.
#![tactic(auto)]

#[cfg(test)]
mod circles;
#[cfg(test)]
mod edges;
