// The public calls: walk, filter, balance and explain.
#![tactic(auto)]

pub mod calls;
