// Way 2 at a window of a walk: its store and its sums made or moved, its answer, the cut point after it, and the shift count.
#![tactic(auto)]

ghost use Rattle.std.specs.Prelude.{◌≡◌, ◌+◌, ◌*◌, ◌<◌, ◌≤◌, length, if◌then◌else◌};
ghost use Rattle.spec.specs.Base.{distance};
ghost use Rattle.spec.specs.Calls.{room_of};
ghost use Rattle.spec.specs.Checks.{Planned};
ghost use Rattle.spec.specs.Frame.{frame_of};
ghost use Rattle.spec.specs.declared.Way.TheVariants.{Columns};
ghost use Rattle.spec.specs.Walk.{arrive};
ghost use Rattle.window.specs.Line.{Adjacent};
ghost use Rattle.levels.specs.Answer.{Answerable, FromCut};
ghost use Rattle.level_search.specs.Search.{FoundAt};
ghost use Rattle.visit.specs.Visit.{Within};
ghost use Rattle.columns_visit.specs.Visit.{window_counts, window_guides, ColumnsAt, ColumnsVisited};

use chain_nodes::FreeList;
use columns::store;
use level_search::Tally;
use level_search::search::Found;
use levels::{answer, tally};
use pixels::{Pixel, sums};
use spec::{Level, Plan};
use visit::{Running, Visit};
use window::line;
use window_weights::coefficients;
use window_weights::coefficients::Coefficients;

// The answer by the window's counts and guide sums of each level, the last two blocks of the store.
pub fn answer_from(
    plan: Plan,
    blocks: &[u32],
    coefficients: Coefficients,
    monotone: bool,
    below: Tally,
    cut: Level,
    shifts: u64,
) -> Found
    requires width_bound { (plan.width ≤ 1024) × (plan.levels ≤ 1024)
        × (2 * (plan.width * plan.levels) + 2 * plan.levels ≤ length blocks.now) }
    requires answerable { (Answerable coefficients plan.guides monotone shifts (window_counts plan blocks.now) (window_guides plan blocks.now))
        × (FromCut monotone cut.0 below (window_counts plan blocks.now) (window_guides plan blocks.now)) }
    ensures { (FoundAt coefficients (window_counts plan blocks.now) (window_guides plan blocks.now) result)
        × (result.shifts ≡ shifts + (if monotone then distance result.level.0 cut.0 else result.level.0)) }
{
    let l = plan.levels;
    let at = 2 * plan.width * l;
    answer::answer(
        &blocks[at..][..l],
        &blocks[at + l..][..l],
        coefficients,
        plan.guides,
        monotone,
        below,
        cut,
        shifts,
    )
}

// A walk comes to its first window, whatever the store held. From cut point 0 a monotone window is searched like any other, and one with no reading
// not at all.
pub fn enter(file: &[u8], plan: Plan, column: usize, row: usize, blocks: &mut [u32]) -> Visit
    requires planned { (Planned file.now plan) × (plan.kind ≡ 2) }
    requires column_lt_width { (column < plan.width) × (row < plan.height) }
    requires file_in_bounds { (room_of Columns (frame_of file.now).set).numbers ≤ length blocks.old }
    ensures { ColumnsVisited (frame_of file.now) (arrive Columns (frame_of file.now) column row 0 0)
        blocks.old result blocks.new }
{
    store::start(file, plan, blocks, column, row);
    let sums = sums::start(file, plan, column, row);
    let free = FreeList { head: 0, count: 0 };
    if sums.count == 0 {
        return visit::unread(column, row, Level(0), 0, sums, free);
    }
    let coefficients = coefficients::of_window(file, plan, sums, column, row);
    let none = Tally { count: 0, sum: 0 };
    let found = answer_from(plan, blocks, coefficients, false, none, Level(0), 0);
    let running = Running {
        sums,
        below: found.tally,
        free,
    };
    visit::answered(column, row, found.level, found.shifts, running)
}

// It goes on to the neighbouring window at (column, row). The store and the sums move also where there is no reading.
pub fn slide(
    file: &[u8],
    plan: Plan,
    from: Visit,
    column: usize,
    row: usize,
    blocks: &mut [u32],
) -> Visit
    requires planned { (Planned file.now plan) × (plan.kind ≡ 2) }
    requires within { (Within plan from) × (Adjacent plan from.column from.row column row) }
    requires columns_at { ColumnsAt (frame_of file.now) from blocks.old }
    ensures { ColumnsVisited (frame_of file.now)
        (arrive Columns (frame_of file.now) column row from.cut.0 from.shifts) blocks.old result blocks.new }
{
    let step = line::step_to(plan, from.column, from.row, column, row);
    let mut entering = [Pixel::NONE; 31];
    let mut leaving = [Pixel::NONE; 31];
    let n = pixels::read(file, plan, step.entering, &mut entering);
    let k = pixels::read(file, plan, step.leaving, &mut leaving);
    let present = sums::moved(from.running.sums, &entering[..n], &leaving[..k]);
    store::slide(file, plan, blocks, from.column, from.row, column, row);
    let free = FreeList { head: 0, count: 0 };
    if present.count == 0 {
        return visit::unread(column, row, from.cut, from.shifts, present, free);
    }
    let coefficients = coefficients::of_window(file, plan, present, column, row);
    let monotone = coefficients::monotone(plan, coefficients);
    let end = usize::from(from.cut.0) + 1;
    let below = from.running.below;
    let tally = tally::carried_where(monotone, below, &entering[..n], &leaving[..k], end);
    let found = answer_from(
        plan,
        blocks,
        coefficients,
        monotone,
        tally,
        from.cut,
        from.shifts,
    );
    let running = Running {
        sums: present,
        below: found.tally,
        free,
    };
    visit::answered(column, row, found.level, found.shifts, running)
}
