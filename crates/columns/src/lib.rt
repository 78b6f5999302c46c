// Way 2's store: column counts, for kind 2 (source 000's constant-time method).
#![tactic(auto)]

pub mod store;
