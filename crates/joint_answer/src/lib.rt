// Ways 1 and 4, joint and coarse, in kind 1: what the window that the counts hold answers by a row of weights, and the box moved to it; and whether
// nothing weighs anything by a row.
#![tactic(auto)]

ghost use Rattle.std.specs.Prelude.{◌≡◌, true, false, ◌<◌, length};
ghost use Rattle.spec.specs.Walk.{by_blocks};
ghost use Rattle.joint_cells.specs.Scan.{RowFits};
ghost use Rattle.joint_search.specs.Search.{weightless_in, box_in, Searchable};
ghost use Rattle.joint_answer.specs.Answer.{AnsweredBy, counted_row};

use joint_box::box_dot;
use joint_cells::level::level_weight;
use joint_search::find::SearchEnd;
use joint_search::{Sizes, find};
use spec::{Level, Way, by_blocks, shifts_to};

// Whether no level weighs anything. The cut point's is looked at first: it is the likeliest to weigh.
pub fn none_weighs(sizes: Sizes, row: &[u16], cut: Level, counts: &[u16], words: &[u64]) -> bool
    requires { (Searchable sizes counts.now words.now) × (RowFits sizes.guides row.now) × (cut.0 < sizes.levels) }
    ensures { result ≡ weightless_in sizes counts.now row.now }
{
    if level_weight(row, cut, sizes.guides, counts, words) > 0 {
        return false;
    }
    for i in 0..sizes.levels as u16 {
        if level_weight(row, Level(i), sizes.guides, counts, words) > 0 {
            return false;
        }
    }
    true
}

// A row of the window's own weights turned into ones where no pixel weighs anything (document 01: hollow), because each is counted as 1 there
// (document 02). Where a pixel of the window is known to weigh something, no level is looked at.
pub fn ones_if_hollow(
    sizes: Sizes,
    weighs: bool,
    cut: Level,
    counts: &[u16],
    words: &[u64],
    row: &mut [u16; 256],
)
    requires searchable { (Searchable sizes counts.now words.now) × (RowFits sizes.guides row.old) × (length row.old ≡ 256) }
    requires cut_lt_levels { (cut.0 < sizes.levels) × (weighs ≡ true → weightless_in sizes counts.now row.old ≡ false) }
    ensures { (row.new ≡ counted_row sizes counts.now row.old) × (length row.new ≡ 256) }
{
    if !weighs && none_weighs(sizes, row, cut, counts, words) {
        *row = [1; 256];
    }
}

// By the way's own search, from the cut point, where the box gives the balance.
pub fn arrive(
    sizes: Sizes,
    row: &[u16],
    way: Way,
    cut: Level,
    shifts: u64,
    balance_box: &mut [i16; 256],
    counts: &[u16],
    words: &[u64],
) -> SearchEnd
    requires searchable { (Searchable sizes counts.now words.now) × (RowFits sizes.guides row.now) }
    requires cut_lt_levels { (cut.0 < sizes.levels) × (shifts < 1099511627776) × (balance_box.old ≡ box_in sizes counts.now cut.0) }
    ensures { AnsweredBy (by_blocks way) sizes counts.now row.now cut.0 shifts result balance_box.new }
{
    let bal = box_dot(balance_box, row, sizes.guides);
    if by_blocks(way) {
        let level = joint_blocks::from_cut(sizes, row, cut, bal, balance_box, counts, words);
        SearchEnd {
            level,
            shifts: shifts + shifts_to(true, level, cut),
        }
    } else {
        find::from_cut(sizes, row, cut, bal, shifts, balance_box, counts, words)
    }
}
