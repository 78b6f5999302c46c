// The filter's walk by way 1 so far: its first pixels, each answer at its place in the walk. It comes after every check.
#![tactic(auto)]

ghost use Rattle.std.specs.Prelude.{[], ◌*◌, ◌≤◌, length};
ghost use Rattle.spec.specs.Frame.{settings_in};
ghost use Rattle.spec.specs.Checks.{Planned};
ghost use Rattle.spec.specs.declared.Way.TheVariants.{Joint};
ghost use Rattle.ways.specs.Visit.{stores, StoresFit};
ghost use Rattle.ice_prefix.specs.Prefix.{parts, Begun};

use ice_moves::turn_at;
use ice_step::step;
use joint_rows::rows;
use spec::{Plan, Way};
use ways::dispatch;

// The first n pixels, of which there is at least one. The built-in weights, the box and the histogram are the walk's own, and made once.
pub fn begin(
    file: &[u8],
    plan: Plan,
    n: usize,
    counts: &mut [u16],
    words: &mut [u64],
    answers: &mut [u16],
)
    requires planned { Planned file.now plan }
    requires le_n { (1 ≤ n) × (n ≤ plan.width * plan.height) × (n ≤ length answers.old) }
    requires stores_fit { StoresFit Joint (settings_in plan) (stores counts.old words.old []) }
    ensures { Begun file.now n (parts counts.old words.old answers.old)
        (parts counts.new words.new answers.new) }
{
    let mut weights = [0u16; 511];
    rows::built_rows(plan, &mut weights);
    let mut balance_box = [0i16; 256];
    let mut histogram = [0u32; 2048];
    let mut visit = dispatch::enter(
        file,
        &[],
        plan,
        Way::Joint,
        &weights,
        0,
        0,
        &mut balance_box,
        &mut histogram,
        counts,
        words,
        &mut [],
    );
    answers[0] = u16::from(visit.answer);
    for i in 0..n - 1 {
        let then = step(
            file,
            &[],
            plan,
            Way::Joint,
            &weights,
            visit,
            turn_at(plan.width, i),
            &mut balance_box,
            &mut histogram,
            counts,
            words,
            &mut [],
        );
        answers[i + 1] = u16::from(then.answer);
        visit = then;
    }
}
