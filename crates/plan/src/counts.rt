// How much a plan holds.

#[derive(Clone, Copy, PartialEq, Eq)]
pub struct Counts {
    pub piers: usize,
    pub legs: usize,
    pub walks: usize,
}
