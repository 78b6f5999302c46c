// Way 1, kind 1: levels looked through one by one, a shift counted for each, and the box's cut point moved along with the search, because a level's
// counts are at hand then.
ghost use Rattle.std.specs.Prelude.{◌≡◌, ◌+◌, ◌<◌, ◌≤◌, pos, nat_abs, ◌+ℤ◌, ◌*ℤ◌, ◌≤ℤ◌};
ghost use Rattle.joint_cells.specs.Scan.{RowFits};
ghost use Rattle.spec.specs.Base.{distance};
ghost use Rattle.joint_search.specs.Search.{balance_in, median_in, box_in, Searchable, Climbed, Descended};

use crate::Sizes;
use crate::pass::{OneByOne, Passing};
use joint_cells::level::level_weight;
use joint_cells::raise::raise_level;
use joint_cells::shift::shift_level;
use spec::Level;

// The level at which a search ends, and the shifts counted up to it.
#[derive(Clone, Copy)]
pub struct SearchEnd {
    pub level: Level,
    pub shifts: u64,
}

// A balance with a level's weight more or less on both sides: by is 2 or -2.
pub fn step_balance(x: i32, by: i32, y: i32) -> i32
    requires { (nat_abs x ≤ 62979135) × (nat_abs by ≤ 2) × (nat_abs y ≤ 62979135) }
    ensures { result ≡ x +ℤ by *ℤ y }
{
    x + by * y
}

// Up to the first level from the given one on whose balance is not negative, a shift for each level; bal is the balance at the given one. Where there
// is no pixel, neither balance nor box changes.
pub fn climb<P: Passing>(
    sizes: Sizes,
    row: &[u16],
    from: Level,
    bal: i32,
    shifts: u64,
    balance_box: &mut [i16; 256],
    counts: &[u16],
    words: &[u64],
) -> SearchEnd
    requires searchable { (Searchable sizes counts.now words.now) × (RowFits sizes.guides row.now) }
    requires from_lt_levels { (from.0 < sizes.levels) × (bal ≡ balance_in sizes counts.now row.now from.0) × (shifts < 1099511627776)
        × (balance_box.old ≡ box_in sizes counts.now from.0) }
    ensures { (Climbed (balance_in sizes counts.now row.now) sizes.levels from.0 result.level.0)
        × (result.shifts + from.0 ≡ shifts + result.level.0) × (balance_box.new ≡ box_in sizes counts.now result.level.0) }
{
    let mut i = from.0;
    let mut b = bal;
    // no `for`, since the step is what may be passed at once, or a level
    while b < 0 {
        if let Some(n) = P::above(sizes, Level(i), words) {
            i += n;
        } else {
            i += 1;
            b = step_balance(
                b,
                2,
                raise_level(row, Level(i), sizes.guides, balance_box, counts, words),
            );
        }
    }
    SearchEnd {
        level: Level(i),
        shifts: shifts + u64::from(i - from.0),
    }
}

// Down from the given level while the balance below is not negative, a shift for each level.
pub fn descend<P: Passing>(
    sizes: Sizes,
    row: &[u16],
    from: Level,
    bal: i32,
    shifts: u64,
    balance_box: &mut [i16; 256],
    counts: &[u16],
    words: &[u64],
) -> SearchEnd
    requires searchable { (Searchable sizes counts.now words.now) × (RowFits sizes.guides row.now) }
    requires from_lt_levels { (from.0 < sizes.levels) × (bal ≡ balance_in sizes counts.now row.now from.0) × (shifts < 1099511627776)
        × (pos 0 ≤ℤ bal) × (balance_box.old ≡ box_in sizes counts.now from.0) }
    ensures { (Descended (balance_in sizes counts.now row.now) from.0 result.level.0)
        × (result.shifts + result.level.0 ≡ shifts + from.0) × (balance_box.new ≡ box_in sizes counts.now result.level.0) }
{
    let mut i = from.0;
    let mut b = bal;
    // no `for`, since the step is what may be passed at once, or a level
    while 0 < i {
        let here = Level(i);
        if let Some(n) = P::below(sizes, here, words) {
            i -= n;
        } else {
            let lower = step_balance(b, -2, level_weight(row, here, sizes.guides, counts, words));
            let short = lower < 0;
            if short {
                return SearchEnd {
                    level: here,
                    shifts: shifts + u64::from(from.0 - i),
                };
            }
            shift_level(here, sizes.guides, -2, balance_box, counts, words);
            b = lower;
            i -= 1;
        }
    }
    SearchEnd {
        level: Level(0),
        shifts: shifts + u64::from(from.0),
    }
}

// From the cut point, where the balance is bal, up or down.
pub fn from_cut(
    sizes: Sizes,
    row: &[u16],
    cut: Level,
    bal: i32,
    shifts: u64,
    balance_box: &mut [i16; 256],
    counts: &[u16],
    words: &[u64],
) -> SearchEnd
    requires searchable { (Searchable sizes counts.now words.now) × (RowFits sizes.guides row.now) }
    requires cut_lt_levels { (cut.0 < sizes.levels) × (bal ≡ balance_in sizes counts.now row.now cut.0) × (shifts < 1099511627776) }
    requires balance_box_value { balance_box.old ≡ box_in sizes counts.now cut.0 }
    ensures { (result.level.0 ≡ median_in sizes counts.now row.now) × (result.shifts ≡ shifts + distance result.level.0 cut.0)
        × (balance_box.new ≡ box_in sizes counts.now result.level.0) }
{
    let short = bal < 0;
    if short {
        climb::<OneByOne>(sizes, row, cut, bal, shifts, balance_box, counts, words)
    } else {
        descend::<OneByOne>(sizes, row, cut, bal, shifts, balance_box, counts, words)
    }
}
