// A window of the picture, as every way of counting needs it: its pixels, the lines that enter and leave as it moves, and its sums.
#![tactic(auto)]

pub mod line;
pub mod pixel;
pub mod sums;
