// A walk at a window: one record for every way. A way takes it, moves its own store, and hands it on; the loops above read the state from it and know
// no way.
#![tactic(auto)]

ghost use Rattle.std.specs.Prelude.{◌≡◌};
ghost use Rattle.visit.specs.Visit.{answered, unread};

use chain_nodes::FreeList;
use level_search::Tally;
use spec::{Answer, Level};
use window::sums::Sums;

// What runs along from window to window by value, beside the store: the window's sums, the tally of its pixels up to the cut point, and the store's
// free list. A way leaves 0 in what it does not use.
#[derive(Clone, Copy)]
pub struct Running {
    pub sums: Sums,
    pub below: Tally,
    pub free: FreeList,
}

// A walk at a window: its pixel, its cut point, its shift count, its last answer, and what runs along.
#[derive(Clone, Copy)]
pub struct Visit {
    pub column: usize,
    pub row: usize,
    pub cut: Level,
    pub shifts: u64,
    pub answer: Answer,
    pub running: Running,
}

// The visit of a window with a reading: its level is the answer and the new cut point.
pub fn answered(column: usize, row: usize, level: Level, shifts: u64, running: Running) -> Visit
    ensures { result ≡ answered column row level shifts running }
{
    Visit {
        column,
        row,
        cut: level,
        shifts,
        answer: Answer::Level(level),
        running,
    }
}

// The visit of a window with no reading: the cut point and the shift count stay, and the tally of its pixels is 0.
pub fn unread(
    column: usize,
    row: usize,
    cut: Level,
    shifts: u64,
    sums: Sums,
    free: FreeList,
) -> Visit
    ensures { result ≡ unread column row cut shifts sums free }
{
    let below = Tally { count: 0, sum: 0 };
    let running = Running { sums, below, free };
    Visit {
        answer: Answer::NoReading,
        ..answered(column, row, cut, shifts, running)
    }
}
