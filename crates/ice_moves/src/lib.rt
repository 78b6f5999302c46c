// The moves of a walk and of the filter, by pixel and byte alone.
#![tactic(auto)]

ghost use Rattle.std.specs.Prelude.{◌≡◌, ◌<◌};
ghost use Rattle.spec.specs.Frame.{settings_in};
ghost use Rattle.spec.specs.Checks.{SettingsLimits};
ghost use Rattle.spec.specs.Walk.{move};
ghost use Rattle.spec.specs.Filter.{turn};

use spec::{Move, Plan};

// Where a byte leads.
#[tactic(auto, using(crate::proofs::Laws::moves))]
pub fn next(plan: Plan, column: usize, row: usize, byte: u8) -> Move
    requires settings_limits { SettingsLimits (settings_in plan) }
    requires column_lt_width { (column < plan.width) × (row < plan.height) }
    ensures { result ≡ move (settings_in plan) column row byte }
{
    match byte {
        0 if column + 1 < plan.width => Move::To(column + 1, row),
        1 if 0 < column => Move::To(column - 1, row),
        2 if row + 1 < plan.height => Move::To(column, row + 1),
        3 if 0 < row => Move::To(column, row - 1),
        0..=3 => Move::Nowhere(65534),
        _ => Move::Nowhere(65533),
    }
}

// Byte i of the filter's list, in pictures w wide.
#[tactic(auto, unfolding(spec::specs::Filter::turn))]
pub fn turn_at(w: usize, i: usize) -> u8
    requires { (0 < w) × (i < 262144) }
    ensures { result ≡ turn w i }
{
    if (i + 1).is_multiple_of(w) {
        2
    } else if (i / w).is_multiple_of(2) {
        0
    } else {
        1
    }
}
