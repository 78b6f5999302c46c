// The walk: the loop along a list of moves. It comes after every check.
#![tactic(auto)]

ghost use Rattle.std.specs.Prelude.{◌≡◌, [], ◌++◌, ℕ, ◌+◌, ◌<◌, ◌≤◌, length, drop};
ghost use Rattle.spec.specs.Frame.{frame_of, settings_in};
ghost use Rattle.spec.specs.Checks.{Planned};
ghost use Rattle.spec.specs.Walk as definitions;
ghost use Rattle.ways.specs.Visit.{Serves};
ghost use Rattle.ice_step.specs.Finished.{lent, LentFits, Finished};

use ice_step::{Walked, finish, step};
use joint_rows::rows;
use spec::{Plan, Way};
use ways::dispatch;

// The walk's work, after the checks. The built-in weights, the box and the histogram are its own, and made once; no plane is given in place of the
// file's values.
pub fn travel(
    file: &[u8],
    plan: Plan,
    way: Way,
    column: usize,
    row: usize,
    moves: &[u8],
    counts: &mut [u16],
    words: &mut [u64],
    numbers: &mut [u32],
    summary: &mut [i64],
    answers: &mut [u16],
) -> Walked
    requires planned { (Planned file.now plan) × (Serves way plan []) }
    requires column_lt_width { (column < plan.width) × (row < plan.height) }
    requires moves_len_bound { length moves.now ≤ 1048576 }
    requires lent_fits { LentFits way (settings_in plan) (lent counts.old words.old numbers.old summary.old) }
    requires moves_in_bounds { length moves.now + 1 ≤ length answers.old }
    ensures finished { Finished way (frame_of file.now)
        (definitions.walk_end way (frame_of file.now) column row moves.now)
        (lent counts.old words.old numbers.old summary.old)
        (lent counts.new words.new numbers.new summary.new) result }
    ensures answers_after { answers.new ≡ definitions.walk_answers (frame_of file.now) column row moves.now
        ++ drop (length moves.now + 1) answers.old }
{
    let none: [u16; 0] = [];
    let mut weights = [0u16; 511];
    rows::built_rows(plan, &mut weights);
    let mut balance_box = [0i16; 256];
    let mut histogram = [0u32; 2048];
    let mut visit = dispatch::enter(
        file,
        &none,
        plan,
        way,
        &weights,
        column,
        row,
        &mut balance_box,
        &mut histogram,
        counts,
        words,
        numbers,
    );
    answers[0] = u16::from(visit.answer);
    for (i, byte) in moves.iter().enumerate() {
        let then = step(
            file,
            &none,
            plan,
            way,
            &weights,
            visit,
            *byte,
            &mut balance_box,
            &mut histogram,
            counts,
            words,
            numbers,
        );
        answers[i + 1] = u16::from(then.answer);
        visit = then;
    }
    finish(file, plan, way, visit, &mut balance_box, summary);
    Walked {
        shifts: visit.shifts,
        cut: visit.cut,
        balance_box,
    }
}
