// Why a window has its answer (document 02), from the file alone: its weights gathered by level in one pass, then the levels from 0 on until they
// reach half. No store is lent: the sums of 1,024 levels are in an array here.
#![tactic(auto)]

ghost use Rattle.std.specs.Prelude.{◌≡◌, false, ◌<◌};
ghost use Rattle.spec.specs.Frame.{frame_of};
ghost use Rattle.spec.specs.Checks.{Planned};
ghost use Rattle.spec.specs.Window.{empty};
ghost use Rattle.spec.specs.Explain.{Grounded};
ghost use Rattle.balance.specs.Formula.{Weighs};
ghost use Rattle.balance.specs.Balance.{Weighed};
ghost use Rattle.explain.specs.Answer.{AnswerReached};

use balance::formula::Formula;
use balance::is_empty;
use explain_cause::cause_of;
use explain_half::{Half, reach_half};
use pixels::sums;
use spec::{Answer, Cause, Grounds, Plan};
use weight_sums::{add_window, weights_of};

// The answer of a window with a reading: the total, and where half of it is reached.
#[derive(Clone, Copy)]
pub struct Answered {
    pub total: i64,
    pub half: Half,
}

// Of the window at (s, t), by a row of weights.
pub fn answer_half(
    file: &[u8],
    plan: Plan,
    weights: &[u16],
    formula: Formula,
    s: usize,
    t: usize,
) -> Answered
    requires weighed { (Weighed file.now plan s t weights.now formula) × (Weighs (frame_of file.now) s t weights.now formula) }
    requires t_value { empty (frame_of file.now) s t ≡ false }
    ensures { AnswerReached (frame_of file.now) s t result }
{
    let mut sums = [0; 1024];
    let total = add_window(file, plan, weights, formula, s, t, 0, &mut sums);
    let half = reach_half(&sums, total);
    Answered { total, half }
}

// The grounds of the answer at (s, t).
pub fn grounds(file: &[u8], plan: Plan, s: usize, t: usize) -> Grounds
    requires { (Planned file.now plan) × (s < plan.width) × (t < plan.height) }
    ensures { Grounded (frame_of file.now) s t result }
{
    let a = sums::start(file, plan, s, t);
    if is_empty(a) {
        return Grounds {
            pixels: 0,
            total: 0,
            answer: Answer::NoReading,
            below: 0,
            reached: 0,
            cause: Cause::Empty,
        };
    }
    let mut row = [0; 256];
    let counted = weights_of(file, plan, a, s, t, &mut row);
    let Answered { total, half } = answer_half(file, plan, &row, counted.formula, s, t);
    Grounds {
        pixels: a.count,
        total,
        answer: Answer::Level(half.level),
        below: half.below,
        reached: half.reached,
        cause: cause_of(&row, counted, plan.guides),
    }
}
