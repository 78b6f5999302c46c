// Way 4: the search of kind 1 by blocks of 16 levels, from the cut point. A block without a pixel is passed at once; the others are looked through
// level by level, the box's cut point moved along.
#![tactic(auto)]

ghost use Rattle.std.specs.Prelude.{◌≡◌, ◌<◌};
ghost use Rattle.joint_cells.specs.Scan.{RowFits};
ghost use Rattle.joint_search.specs.Search.{balance_in, median_in, box_in, Searchable};

use joint_cells::vacant::{vacant_above, vacant_below};
use joint_search::Sizes;
use joint_search::find::{climb, descend};
use joint_search::pass::Passing;
use spec::{BLOCK, Level};

// A block at a time.
pub struct ByBlocks;

impl Passing for ByBlocks {
    fn above(sizes: Sizes, i: Level, words: &[u64]) -> Option<u16> {
        vacant_above(sizes.levels, sizes.guides, i.0, words).then_some(BLOCK)
    }

    fn below(sizes: Sizes, i: Level, words: &[u64]) -> Option<u16> {
        vacant_below(sizes.levels, sizes.guides, i.0, words).then_some(BLOCK)
    }
}

// From the cut point, where the balance is bal, up or down. It stands beside way 1's, which asks for the shifts too, because
// must-fail/blocks_strict_half is tried here: way 4 counts by a rule of its own.
pub fn from_cut(
    sizes: Sizes,
    row: &[u16],
    cut: Level,
    bal: i32,
    balance_box: &mut [i16; 256],
    counts: &[u16],
    words: &[u64],
) -> Level
    requires searchable { (Searchable sizes counts.now words.now) × (RowFits sizes.guides row.now) }
    requires cut_lt_levels { (cut.0 < sizes.levels) × (bal ≡ balance_in sizes counts.now row.now cut.0)
        × (balance_box.old ≡ box_in sizes counts.now cut.0) }
    ensures { (result.0 ≡ median_in sizes counts.now row.now)
        × (balance_box.new ≡ box_in sizes counts.now result.0) }
{
    let short = bal < 0;
    if short {
        climb::<ByBlocks>(sizes, row, cut, bal, 0, balance_box, counts, words).level
    } else {
        descend::<ByBlocks>(sizes, row, cut, bal, 0, balance_box, counts, words).level
    }
}
