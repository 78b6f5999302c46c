// Way 3 at a window of a walk: its list and its sums made or moved, its answer, the cut point after it, and the shift count.
#![tactic(auto)]

ghost use Rattle.std.specs.Prelude.{◌≡◌, ◌<◌, ◌≤◌, length, if◌then◌else◌};
ghost use Rattle.spec.specs.Base.{distance};
ghost use Rattle.spec.specs.Checks.{Planned};
ghost use Rattle.spec.specs.Frame.{frame_of};
ghost use Rattle.spec.specs.declared.Way.TheVariants.{Chain};
ghost use Rattle.spec.specs.Walk.{arrive};
ghost use Rattle.window.specs.Line.{Adjacent};
ghost use Rattle.window.specs.Sums.{SumsAt};
ghost use Rattle.chain.specs.Moves.{Listed, store_size};
ghost use Rattle.visit.specs.Visit.{state_of, Within};
ghost use Rattle.chain_visit.specs.Visit.{ChainAt, ChainVisited};

use chain::moves;
use chain_search::climb;
use level_search::Tally;
use pixels::{Pixel, sums};
use spec::{Level, Plan};
use visit::{Running, Visit};
use window::line;
use window_weights::coefficients;

// What a window adds to the shift count: the answer's distance from the cut point before it where the window is monotone (document 01: steady), else
// the answer.
pub fn added(monotone: bool, cut: Level, answer: Level) -> u64
    ensures { (result ≡ (if monotone then distance answer.0 cut.0 else answer.0)) × (result ≤ 65535) }
{
    if monotone {
        u64::from(answer.0.abs_diff(cut.0))
    } else {
        u64::from(answer.0)
    }
}

// The answer at the window at (column, row), whose sums run along and whose list is in the numbers. One of no pixels has no reading.
pub fn answer_at(
    file: &[u8],
    plan: Plan,
    column: usize,
    row: usize,
    cut: Level,
    shifts: u64,
    running: Running,
    numbers: &[u32],
) -> Visit
    requires planned { (Planned file.now plan) × (plan.kind ≡ 2) }
    requires column_lt_width { (column < plan.width) × (row < plan.height) × (shifts ≤ 4294967295) }
    requires sums_at { (SumsAt (frame_of file.now) column row running.sums) × (Listed file.now plan column row running.free numbers.now) }
    ensures { (state_of Chain result ≡ arrive Chain (frame_of file.now) column row cut.0 shifts) × (result.running.sums ≡ running.sums)
        × (result.running.free ≡ running.free) }
{
    let sums = running.sums;
    if sums.count == 0 {
        return visit::unread(column, row, cut, shifts, sums, running.free);
    }
    let coefficients = coefficients::of_window(file, plan, sums, column, row);
    let level = climb::climb(numbers, coefficients);
    let monotone = coefficients::monotone(plan, coefficients);
    let shifts = shifts + added(monotone, cut, level);
    visit::answered(column, row, level, shifts, running)
}

// A walk comes to its first window, whatever the store held.
pub fn enter(file: &[u8], plan: Plan, column: usize, row: usize, numbers: &mut [u32]) -> Visit
    requires planned { (Planned file.now plan) × (plan.kind ≡ 2) }
    requires column_lt_width { (column < plan.width) × (row < plan.height) }
    requires file_in_bounds { store_size file.now ≤ length numbers.old }
    ensures { ChainVisited file.now plan (arrive Chain (frame_of file.now) column row 0 0) numbers.old result
        numbers.new }
{
    let sums = sums::start(file, plan, column, row);
    let free = moves::start(file, plan, column, row, numbers);
    let below = Tally { count: 0, sum: 0 };
    let running = Running { sums, below, free };
    answer_at(file, plan, column, row, Level(0), 0, running, numbers)
}

// It goes on to the neighbouring window at (column, row).
pub fn slide(
    file: &[u8],
    plan: Plan,
    from: Visit,
    column: usize,
    row: usize,
    numbers: &mut [u32],
) -> Visit
    requires planned { (Planned file.now plan) × (plan.kind ≡ 2) }
    requires within { (Within plan from) × (Adjacent plan from.column from.row column row) }
    requires chain_at { ChainAt file.now plan from numbers.old }
    ensures { ChainVisited file.now plan (arrive Chain (frame_of file.now) column row from.cut.0 from.shifts)
        numbers.old result numbers.new }
{
    let step = line::step_to(plan, from.column, from.row, column, row);
    let mut entering = [Pixel::NONE; 31];
    let mut leaving = [Pixel::NONE; 31];
    let n = pixels::read(file, plan, step.entering, &mut entering);
    let k = pixels::read(file, plan, step.leaving, &mut leaving);
    let sums = sums::moved(from.running.sums, &entering[..n], &leaving[..k]);
    let free = moves::slide(&entering[..n], &leaving[..k], from.running.free, numbers);
    let below = Tally { count: 0, sum: 0 };
    let running = Running { sums, below, free };
    answer_at(
        file,
        plan,
        column,
        row,
        from.cut,
        from.shifts,
        running,
        numbers,
    )
}
