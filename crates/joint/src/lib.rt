// The stores of way 1, joint, for lists of pixels and for a window: the joint histogram of levels and guides, its occupancy words, the balance box.
#![tactic(auto)]

pub mod list;
pub mod start;
