// The answer by blocks of 16 levels: where the window is monotone, the cumulative weight never falls, so that the first block whose end reaches half
// has the answer. No cut point enters the search.
ghost use Rattle.std.specs.Prelude.{◌≡◌, true, ◌+◌, if◌then◌else◌};
ghost use Rattle.spec.specs.Walk.{shifts_to};
ghost use Rattle.level_search.specs.Search.{ListsSearchable, Rising, FoundAt};
ghost use Rattle.levels.specs.Answer.{Answerable};
ghost use Rattle.levels.specs.Blocks.{FirstBlock};

use level_search::block::BLOCK;
use level_search::search::Found;
use level_search::{Tally, block, search};
use spec::{Level, shifts_to};
use window_weights::coefficients::{Coefficients, reached};

// The first level of the first block whose end reaches half, and the tally of the levels below it. The last block, which may be short, is not tested:
// where no other's end reaches half, the answer is in it.
pub fn first_block(counts: &[u32], sums: &[u32], coefficients: Coefficients) -> Found
    requires { (ListsSearchable coefficients counts.now sums.now) × (Rising coefficients counts.now sums.now) }
    ensures { FirstBlock coefficients counts.now sums.now result }
{
    let mut tally = Tally { count: 0, sum: 0 };
    let last = (counts.len() - 1) / BLOCK;
    for b in 0..last {
        let level = Level((b * BLOCK) as u16);
        let through = Tally {
            count: tally.count + block::total(counts, level),
            sum: tally.sum + block::total(sums, level),
        };
        if reached(coefficients, through.count, through.sum) {
            return Found {
                level,
                tally,
                shifts: 0,
            };
        }
        tally = through;
    }
    Found {
        level: Level((last * BLOCK) as u16),
        tally,
        shifts: 0,
    }
}

// By the coefficients over so many guides; a window that is not monotone is climbed from level 0.
pub fn answer(
    counts: &[u32],
    sums: &[u32],
    coefficients: Coefficients,
    guides: usize,
    monotone: bool,
    shifts: u64,
) -> Found
    requires { Answerable coefficients guides monotone shifts counts.now sums.now }
    ensures { (FoundAt coefficients counts.now sums.now result)
        × (result.shifts ≡ shifts + (if monotone then shifts_to true result.level.0 0 else result.level.0)) }
{
    let heaviest = block::heaviest(coefficients, guides);
    if !monotone {
        return search::from_lowest(counts, sums, coefficients, heaviest, shifts);
    }
    let near = first_block(counts, sums, coefficients);
    let found = search::ascend(
        counts,
        sums,
        coefficients,
        heaviest,
        near.level,
        near.tally,
        0,
    );
    Found {
        shifts: shifts + shifts_to(true, found.level, Level(0)),
        ..found
    }
}
