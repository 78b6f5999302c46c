// The frame, read: checks 1 to 7, the plan that every later call begins from, and the opened frame with its parts.
// Every public function takes any input, and its contract gives the result by an equation.
#![tactic(auto)]

pub mod check;
pub mod open;
pub mod plan;
