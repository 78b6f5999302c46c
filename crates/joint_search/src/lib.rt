// Way 1, joint, in kind 1: the search over joint counts, occupancy words and a row of weights, from a cut point up or down, with the balance box. No
// file and no frame: proofs/WindowLaws.antt says that a window's stores give the frame's own answer.
#![tactic(auto)]

pub mod find;
pub mod pass;

// How many levels and guides the counts are for.
#[derive(Clone, Copy)]
pub struct Sizes {
    pub levels: usize,
    pub guides: usize,
}
