// Ways 1 and 4, joint and coarse, in kind 2: a window's part in a walk. Its weights can be negative, so that most windows are searched from level 0:
// the search goes by the window's histogram of levels, two numbers a level. Way 1's box is moved to the answer once that is known; way 4 has no use
// for one.
#![tactic(auto)]

ghost use Rattle.std.specs.Prelude.{◌≡◌, [], ◌+◌, ◌<◌, ◌≤◌, length};
ghost use Rattle.spec.specs.Frame.{frame_of};
ghost use Rattle.spec.specs.Checks.{Planned};
ghost use Rattle.spec.specs.Joint.{balance_box_at};
ghost use Rattle.window.specs.Sums.{SumsAt};
ghost use Rattle.level_search.specs.Search.{LevelCells, TallyTo};
ghost use Rattle.levels.specs.ListTally.{Carries};
ghost use Rattle.histogram.specs.Histogram.{Blank, Histogram};
ghost use Rattle.joint_search.specs.Window.{Counted};
ghost use Rattle.joint_guided.specs.Guided.{counts_in, guide_sums_in, GuidedVisited, BlocksVisited};

use chain_nodes::FreeList;
use joint_search::Sizes;
use level_search::{Tally, search};
use levels::{answer, blocks, tally};
use pixels::{Pixel, sums};
use spec::{Level, Plan};
use visit::{Running, Visit};
use window::sums::Sums;
use window_weights::coefficients;

// The tally of the levels below the end, by a histogram: the counts of its levels, and behind them the guide sums.
pub fn tally_below(histogram: &[u32], levels: usize, end: usize) -> Tally
    requires { (levels + levels ≤ length histogram.now) × (LevelCells (counts_in levels histogram.now) (guide_sums_in levels histogram.now))
        × (end ≤ levels) }
    ensures { TallyTo (counts_in levels histogram.now) (guide_sums_in levels histogram.now) end result }
{
    search::gather(&histogram[..levels], &histogram[levels..2 * levels], end)
}

// Way 1: the window's answer, and the box moved to it; both stay where there is no reading. before is the tally of the window that the two lists
// lead from. Only a monotone window needs it, and it is carried there alone.
pub fn arrive(
    file: &[u8],
    plan: Plan,
    a: Sums,
    before: Tally,
    entering: &[Pixel],
    leaving: &[Pixel],
    s: usize,
    t: usize,
    cut: Level,
    shifts: u64,
    balance_box: &mut [i16; 256],
    counts: &[u16],
    words: &[u64],
    histogram: &[u32],
) -> Visit
    requires counted { (Counted file.now [] plan s t counts.now words.now) × (plan.kind ≡ 2)
        × (Histogram (frame_of file.now) s t histogram.now) }
    requires sums_at { (SumsAt (frame_of file.now) s t a) × (Carries (frame_of file.now) entering.now leaving.now s t (cut.0 + 1) before) }
    requires cut_lt_levels { (cut.0 < plan.levels) × (shifts ≤ 4294967296) × (balance_box.old ≡ balance_box_at (frame_of file.now) s t cut.0) }
    ensures { GuidedVisited (frame_of file.now) s t cut.0 shifts result balance_box.new histogram.now }
{
    let free = FreeList { head: 0, count: 0 };
    if a.count == 0 {
        return visit::unread(s, t, cut, shifts, a, free);
    }
    let coefficients = coefficients::of_window(file, plan, a, s, t);
    let monotone = coefficients::monotone(plan, coefficients);
    let below = tally::carried_where(monotone, before, entering, leaving, cut.0 as usize + 1);
    let found = answer::answer(
        &histogram[..plan.levels],
        &histogram[plan.levels..2 * plan.levels],
        coefficients,
        plan.guides,
        monotone,
        below,
        cut,
        shifts,
    );
    let sizes = Sizes {
        levels: plan.levels,
        guides: plan.guides,
    };
    joint_cut::move_to(sizes, cut, found.level, balance_box, counts, words);
    let running = Running {
        sums: a,
        below: found.tally,
        free,
    };
    visit::answered(s, t, found.level, found.shifts, running)
}

// Way 4: the window's answer, which no cut point enters; it is kept where there is no reading.
pub fn arrive_by_blocks(
    file: &[u8],
    plan: Plan,
    a: Sums,
    s: usize,
    t: usize,
    cut: Level,
    shifts: u64,
    histogram: &[u32],
) -> Visit
    requires planned { (Planned file.now plan) × (plan.kind ≡ 2) × (s < plan.width) × (t < plan.height) }
    requires sums_at { (SumsAt (frame_of file.now) s t a) × (Histogram (frame_of file.now) s t histogram.now) × (shifts ≤ 4294967296) }
    ensures { BlocksVisited (frame_of file.now) s t cut.0 shifts result histogram.now }
{
    let free = FreeList { head: 0, count: 0 };
    if a.count == 0 {
        return visit::unread(s, t, cut, shifts, a, free);
    }
    let coefficients = coefficients::of_window(file, plan, a, s, t);
    let monotone = coefficients::monotone(plan, coefficients);
    let found = blocks::answer(
        &histogram[..plan.levels],
        &histogram[plan.levels..2 * plan.levels],
        coefficients,
        plan.guides,
        monotone,
        shifts,
    );
    let running = Running {
        sums: a,
        below: found.tally,
        free,
    };
    visit::answered(s, t, found.level, found.shifts, running)
}

// Way 4's first window at (s, t).
pub fn enter_by_blocks(file: &[u8], plan: Plan, s: usize, t: usize, histogram: &mut [u32]) -> Visit
    requires planned { (Planned file.now plan) × (plan.kind ≡ 2) × (s < plan.width) × (t < plan.height) }
    requires blank { Blank plan.levels histogram.old }
    ensures { BlocksVisited (frame_of file.now) s t 0 0 result histogram.new }
{
    histogram::start(file, plan, s, t, histogram);
    let a = sums::start(file, plan, s, t);
    arrive_by_blocks(file, plan, a, s, t, Level(0), 0, histogram)
}

// Way 1's first window at (s, t), its stores and its box being made.
pub fn enter(
    file: &[u8],
    plan: Plan,
    s: usize,
    t: usize,
    balance_box: &mut [i16; 256],
    counts: &[u16],
    words: &[u64],
    histogram: &mut [u32],
) -> Visit
    requires counted { (Counted file.now [] plan s t counts.now words.now) × (plan.kind ≡ 2) × (Blank plan.levels histogram.old) }
    requires balance_box_value { balance_box.old ≡ balance_box_at (frame_of file.now) s t 0 }
    ensures { GuidedVisited (frame_of file.now) s t 0 0 result balance_box.new histogram.new }
{
    histogram::start(file, plan, s, t, histogram);
    let a = sums::start(file, plan, s, t);
    let below = tally_below(histogram, plan.levels, 1);
    arrive(
        file,
        plan,
        a,
        below,
        &[],
        &[],
        s,
        t,
        Level(0),
        0,
        balance_box,
        counts,
        words,
        histogram,
    )
}
