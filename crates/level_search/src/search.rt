// The search for a window's answer among its levels, by the cumulative count and guide sum: counts and sums are the window's, level by level.
ghost use Rattle.std.specs.Prelude.{◌≡◌, true, ◌+◌, ◌<◌, ◌≤◌, length};
ghost use Rattle.spec.specs.Base.{distance};
ghost use Rattle.level_search.specs.Block.{Heaviest};
ghost use Rattle.level_search.specs.Search.{TallyTo, passes, LevelCells, ListsSearchable, Rising, FoundAt, FailTo};

use crate::block::BLOCK;
use crate::{Tally, block};
use spec::Level;
use window_weights::coefficients::{Coefficients, reached};

// The answer, the tally of the levels up to it, and the shift count.
#[derive(Clone, Copy)]
pub struct Found {
    pub level: Level,
    pub tally: Tally,
    pub shifts: u64,
}

// The tally of the levels below the end.
pub fn gather(counts: &[u32], sums: &[u32], end: usize) -> Tally
    requires level_cells { LevelCells counts.now sums.now }
    requires end_in_bounds { end ≤ length counts.now }
    ensures { TallyTo counts.now sums.now end result }
{
    Tally {
        count: block::sum_of(&counts[..end]),
        sum: block::sum_of(&sums[..end]),
    }
}

// Upward from a level below which none passes; a is the tally of the levels below it. Each level that falls short is a shift, also in a block that is
// passed over: no pixel outweighs the heaviest. Some level passes: where none below the last does, the last is the answer.
pub fn ascend(
    counts: &[u32],
    sums: &[u32],
    coefficients: Coefficients,
    heaviest: i64,
    from: Level,
    a: Tally,
    shifts: u64,
) -> Found
    requires lists_searchable { (ListsSearchable coefficients counts.now sums.now) × (Heaviest coefficients counts.now sums.now heaviest) }
    requires from_in_bounds { (from.0 < length counts.now) × (shifts ≤ 8589934592) }
    requires tally_to { TallyTo counts.now sums.now from.0 a }
    requires fail_to { FailTo coefficients counts.now sums.now from.0 }
    ensures { (FoundAt coefficients counts.now sums.now result) × (result.shifts + from.0 ≡ shifts + result.level.0)
        × (from.0 ≤ result.level.0) }
{
    let last = counts.len() - 1;
    let first = from.0 as usize;
    let mut tally = a;
    let mut i = first;
    // no `for`, since the step is a block or a level
    while i < last {
        let level = Level(i as u16);
        if i.is_multiple_of(BLOCK) && block::light(counts, coefficients, heaviest, level, tally) {
            tally.count += block::total(counts, level);
            tally.sum += block::total(sums, level);
            i += BLOCK;
        } else {
            tally.count += counts[i] as usize;
            tally.sum += sums[i] as usize;
            if reached(coefficients, tally.count, tally.sum) {
                return Found {
                    level,
                    tally,
                    shifts: shifts + (i - first) as u64,
                };
            }
            i += 1;
        }
    }
    tally.count += counts[i] as usize;
    tally.sum += sums[i] as usize;
    Found {
        level: Level(i as u16),
        tally,
        shifts: shifts + (i - first) as u64,
    }
}

// Downward from a cut point that passes, where the cumulative weight never falls; a is the tally of the levels up to it. Each level that still passes
// below it is a shift.
pub fn descend(
    counts: &[u32],
    sums: &[u32],
    coefficients: Coefficients,
    cut: Level,
    a: Tally,
    shifts: u64,
) -> Found
    requires lists_searchable { ListsSearchable coefficients counts.now sums.now }
    requires cut_in_bounds { (cut.0 < length counts.now) × (shifts ≤ 4294967296) }
    requires tally_to { TallyTo counts.now sums.now (cut.0 + 1) a }
    requires rising { Rising coefficients counts.now sums.now }
    requires cut_value { passes coefficients counts.now sums.now cut.0 ≡ true }
    ensures { (FoundAt coefficients counts.now sums.now result) × (result.shifts + result.level.0 ≡ shifts + cut.0)
        × (result.level.0 ≤ cut.0) }
{
    let top = cut.0 as usize;
    let mut tally = a;
    for c in (1..=top).rev() {
        let below = Tally {
            count: tally.count - counts[c] as usize,
            sum: tally.sum - sums[c] as usize,
        };
        if !reached(coefficients, below.count, below.sum) {
            return Found {
                level: Level(c as u16),
                tally,
                shifts: shifts + (top - c) as u64,
            };
        }
        tally = below;
    }
    Found {
        level: Level(0),
        tally,
        shifts: shifts + top as u64,
    }
}

// From the cut point, where the cumulative weight never falls: one level a shift.
pub fn from_cut(
    counts: &[u32],
    sums: &[u32],
    coefficients: Coefficients,
    heaviest: i64,
    cut: Level,
    a: Tally,
    shifts: u64,
) -> Found
    requires lists_searchable { (ListsSearchable coefficients counts.now sums.now) × (Heaviest coefficients counts.now sums.now heaviest) }
    requires cut_in_bounds { (cut.0 < length counts.now) × (shifts ≤ 4294967296) }
    requires tally_to { TallyTo counts.now sums.now (cut.0 + 1) a }
    requires rising { Rising coefficients counts.now sums.now }
    ensures { (FoundAt coefficients counts.now sums.now result) × (result.shifts ≡ shifts + distance result.level.0 cut.0) }
{
    if reached(coefficients, a.count, a.sum) {
        return descend(counts, sums, coefficients, cut, a, shifts);
    }
    ascend(
        counts,
        sums,
        coefficients,
        heaviest,
        Level(cut.0 + 1),
        a,
        shifts + 1,
    )
}

// From level 0, where no tally is asked for.
#[tactic(auto, using(crate::proofs::SearchLaws::tally_none))]
pub fn from_lowest(
    counts: &[u32],
    sums: &[u32],
    coefficients: Coefficients,
    heaviest: i64,
    shifts: u64,
) -> Found
    requires lists_searchable { (ListsSearchable coefficients counts.now sums.now) × (Heaviest coefficients counts.now sums.now heaviest) }
    requires shifts_bound { shifts ≤ 8589934592 }
    ensures { (FoundAt coefficients counts.now sums.now result) × (result.shifts ≡ shifts + result.level.0) }
{
    let none = Tally { count: 0, sum: 0 };
    ascend(counts, sums, coefficients, heaviest, Level(0), none, shifts)
}
