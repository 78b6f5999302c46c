// The weights of a window in kind 2, as every way of counting needs them.
#![tactic(auto)]

pub mod coefficients;
