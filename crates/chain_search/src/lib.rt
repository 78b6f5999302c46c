// Way 3's search: the median of a window from its linked list.
#![tactic(auto)]

pub mod climb;
