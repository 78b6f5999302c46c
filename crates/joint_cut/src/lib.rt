// The box's cut point moved to a level that is known, as kind 2 asks, whose search goes by another store.
#![tactic(auto)]

ghost use Rattle.std.specs.Prelude.{◌≡◌, ◌<◌, ◌≤◌};
ghost use Rattle.joint_search.specs.Search.{box_in, Searchable};

use joint_cells::shift::shift_level;
use joint_search::Sizes;
use spec::Level;

// The box's cut point raised, level by level.
pub fn raise_to(
    sizes: Sizes,
    from: Level,
    to: Level,
    balance_box: &mut [i16; 256],
    counts: &[u16],
    words: &[u64],
)
    requires searchable { Searchable sizes counts.now words.now }
    requires from_le_to { (from.0 ≤ to.0) × (to.0 < sizes.levels) × (balance_box.old ≡ box_in sizes counts.now from.0) }
    ensures { balance_box.new ≡ box_in sizes counts.now to.0 }
{
    for i in from.0 + 1..=to.0 {
        shift_level(Level(i), sizes.guides, 2, balance_box, counts, words);
    }
}

// The box's cut point lowered, level by level.
pub fn lower_to(
    sizes: Sizes,
    from: Level,
    to: Level,
    balance_box: &mut [i16; 256],
    counts: &[u16],
    words: &[u64],
)
    requires searchable { Searchable sizes counts.now words.now }
    requires to_le_from { (to.0 ≤ from.0) × (from.0 < sizes.levels) × (balance_box.old ≡ box_in sizes counts.now from.0) }
    ensures { balance_box.new ≡ box_in sizes counts.now to.0 }
{
    for i in (to.0 + 1..=from.0).rev() {
        shift_level(Level(i), sizes.guides, -2, balance_box, counts, words);
    }
}

// The box's cut point moved, whichever way the answer lies.
pub fn move_to(
    sizes: Sizes,
    from: Level,
    to: Level,
    balance_box: &mut [i16; 256],
    counts: &[u16],
    words: &[u64],
)
    requires searchable { Searchable sizes counts.now words.now }
    requires from_lt_levels { (from.0 < sizes.levels) × (to.0 < sizes.levels) × (balance_box.old ≡ box_in sizes counts.now from.0) }
    ensures { balance_box.new ≡ box_in sizes counts.now to.0 }
{
    if from <= to {
        raise_to(sizes, from, to, balance_box, counts, words);
    } else {
        lower_to(sizes, from, to, balance_box, counts, words);
    }
}
