// The search for a window's answer by its counts and guide sums of each level, for kind 2: two lists and the coefficients of the window's weights,
// whatever way keeps the lists.
#![tactic(auto)]

pub mod block;
pub mod search;

// A count of pixels and the sum of their guides.
#[derive(Clone, Copy)]
pub struct Tally {
    pub count: usize,
    pub sum: usize,
}
