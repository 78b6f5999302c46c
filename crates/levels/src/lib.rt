// A window's answer by its counts and guide sums of each level, for kind 2, and the tally that a walk carries: what the ways that keep these two
// lists have in common.
#![tactic(auto)]

pub mod answer;
pub mod blocks;
pub mod tally;
