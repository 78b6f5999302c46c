// The cause of a window with a reading (document 02): from how it is counted, and the signs of what the two ends of the guides weigh.
#![tactic(auto)]

ghost use Rattle.std.specs.Prelude.{◌≡◌, ◌-◌, ◌<◌, ◌≤◌, length};
ghost use Rattle.balance.specs.Formula.{FormulaInBounds, FormulaFits, weight_by};
ghost use Rattle.explain_cause.specs.Cause.{cause_by};

use balance::formula::Formula;
use spec::{Cause, Guide};
use weight_sums::Counting;

// What a guide weighs, by a row of weights.
pub fn weight_of(row: &[u16], formula: Formula, g: Guide) -> i64
    requires { (FormulaInBounds formula) × (g.0 < length row.now) }
    ensures { result ≡ weight_by row.now formula g.0 }
{
    formula.weigh(row[g.0 as usize])
}

// The cause, from what the two ends of m guides weigh.
#[tactic(auto, unfolding(crate::specs::Cause::cause_by))]
pub fn cause_of(row: &[u16], counted: Counting, m: usize) -> Cause
    requires { (FormulaFits m row.now counted.formula) × (2 ≤ m) × (m ≤ 256) }
    ensures { result ≡ cause_by counted.hollow (weight_by row.now counted.formula 0)
        (weight_by row.now counted.formula (m - 1)) }
{
    if counted.hollow {
        Cause::Hollow
    } else if weight_of(row, counted.formula, Guide(0)) < 0 {
        Cause::NegativeAtZero
    } else if weight_of(row, counted.formula, Guide((m - 1) as u16)) < 0 {
        Cause::NegativeAtLast
    } else {
        Cause::Ordinary
    }
}
