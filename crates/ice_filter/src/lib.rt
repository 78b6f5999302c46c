// The filter: the walk through the whole picture, each answer at its pixel's place. It comes after every check.
#![tactic(auto)]

ghost use Rattle.std.specs.Prelude.{◌≡◌, ◌++◌, ℕ, ◌+◌, ◌*◌, ◌<◌, ◌≤◌, length, drop};
ghost use Rattle.spec.specs.Frame.{frame_of, frame_with, pixels, settings_in};
ghost use Rattle.spec.specs.Checks.{Pictured};
ghost use Rattle.spec.specs.Filter.{filtered, filter_end};
ghost use Rattle.ways.specs.Visit.{Serves};
ghost use Rattle.ice_step.specs.Finished.{lent, LentFits, Finished};

use ice_moves::turn_at;
use ice_step::{Walked, finish, step};
use joint_rows::rows;
use spec::{Plan, Way};
use ways::dispatch;

// The filter's work, after the checks. The built-in weights, the box and the histogram are its own, and made once. For way 1 in kind 1 a plane may be
// given in place of the file's values; an empty one is none.
pub fn sweep(
    file: &[u8],
    plane: &[u16],
    plan: Plan,
    way: Way,
    counts: &mut [u16],
    words: &mut [u64],
    numbers: &mut [u32],
    summary: &mut [i64],
    output: &mut [u16],
) -> Walked
    requires pictured { (Pictured file.now plane.now plan) × (Serves way plan plane.now) }
    requires lent_fits { LentFits way (settings_in plan) (lent counts.old words.old numbers.old summary.old) }
    requires height_in_bounds { plan.width * plan.height ≤ length output.old }
    ensures finished { Finished way (frame_with file.now plane.now)
        (filter_end way (frame_with file.now plane.now))
        (lent counts.old words.old numbers.old summary.old)
        (lent counts.new words.new numbers.new summary.new) result }
    ensures output_after { output.new ≡ filtered (frame_with file.now plane.now)
        ++ drop (pixels (frame_of file.now).set) output.old }
{
    let width = plan.width;
    let n = width * plan.height;
    let mut weights = [0u16; 511];
    rows::built_rows(plan, &mut weights);
    let mut balance_box = [0i16; 256];
    let mut histogram = [0u32; 2048];
    let mut visit = dispatch::enter(
        file,
        plane,
        plan,
        way,
        &weights,
        0,
        0,
        &mut balance_box,
        &mut histogram,
        counts,
        words,
        numbers,
    );
    output[0] = u16::from(visit.answer);
    for i in 0..n - 1 {
        visit = step(
            file,
            plane,
            plan,
            way,
            &weights,
            visit,
            turn_at(width, i),
            &mut balance_box,
            &mut histogram,
            counts,
            words,
            numbers,
        );
        output[visit.row * width + visit.column] = u16::from(visit.answer);
    }
    finish(file, plan, way, visit, &mut balance_box, summary);
    Walked {
        shifts: visit.shifts,
        cut: visit.cut,
        balance_box,
    }
}
