// What a report answers.

// The number of circles and the number of chains.
#[derive(Clone, Copy, PartialEq, Eq, Debug)]
pub struct Answer {
    pub circles: u32,
    pub chains: u32,
}
