// The weights of a window in kind 1 as a row of numbers: the built-in ones as a part of mirrored constants, a file's own made anew for the centre's
// guide; and a single weight of a table.
#![tactic(auto)]

pub mod rows;
pub mod table;
