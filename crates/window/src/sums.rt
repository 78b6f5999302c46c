// Document 01's n, S and Q of a window: crate pixels makes them at a start and carries them from move to move.
#[derive(Clone, Copy)]
pub struct Sums {
    pub count: usize,
    pub sum: usize,
    pub squares: usize,
}
