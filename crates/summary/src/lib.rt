// Way 4's summary of a window: its weight sums over blocks of 16 levels, from the file alone.
#![tactic(auto)]

ghost use Rattle.std.specs.Prelude.{◌≡◌, ◌++◌, ◌<◌, ◌≤◌, length, drop};
ghost use Rattle.spec.specs.Frame.{frame_of};
ghost use Rattle.spec.specs.Checks.{Planned};
ghost use Rattle.spec.specs.Coarse as definitions;

use balance::is_empty;
use pixels::sums;
use spec::Plan;
use weight_sums::{add_window, weights_of};

const BLOCK: usize = spec::BLOCK as usize;

// The summary of the window at (s, t), whatever its numbers held: 0 in each block where it has no reading.
pub fn fill(file: &[u8], plan: Plan, s: usize, t: usize, summary: &mut [i64])
    requires planned { (Planned file.now plan) × (s < plan.width) × (t < plan.height) }
    requires file_in_bounds { definitions.block_count (frame_of file.now).set ≤ length summary.old }
    ensures { summary.new ≡ definitions.summary (frame_of file.now) s t
        ++ drop (definitions.block_count (frame_of file.now).set) summary.old }
{
    let n = plan.levels.div_ceil(BLOCK);
    let blocks = &mut summary[..n];
    blocks.fill(0);
    let a = sums::start(file, plan, s, t);
    if is_empty(a) {
        return;
    }
    let mut row = [0; 256];
    let counted = weights_of(file, plan, a, s, t, &mut row);
    add_window(
        file,
        plan,
        &row,
        counted.formula,
        s,
        t,
        spec::BLOCK_BITS,
        blocks,
    );
}
