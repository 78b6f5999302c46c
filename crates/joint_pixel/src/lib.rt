// One pixel more or less in the stores of way 1, joint: its count, its bit of the occupancy words, and its cell of the balance box.
#![tactic(auto)]

pub mod bits;
pub mod cell;
pub mod side;
