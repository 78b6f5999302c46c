// Way 3, chain: the window's levels in a linked list, ascending, each once with its count and guide sum, in nodes of a lent store of 32-bit numbers.
// Crate chain_nodes has the nodes, chain_list the list with one pixel more or less; here are lines of pixels, and windows.
#![tactic(auto)]

pub mod keys;
pub mod line;
pub mod moves;
