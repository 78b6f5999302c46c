// Ways 1 and 4, level by level: a level's occupied guides, what it weighs by a row of weights, the balance box with a level's pixels on the other
// side; and blocks of levels without a pixel.
#![tactic(auto)]

pub mod level;
pub mod raise;
pub mod scan;
pub mod shift;
pub mod vacant;
