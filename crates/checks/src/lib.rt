// Checks 8 to 11, after those of the file, in document 01's order: what each call answers. They read settings alone, no file and no store.
#![tactic(auto)]

ghost use Rattle.std.specs.Prelude.{◌≡◌};
ghost use Rattle.spec.specs.Refusal.{numbered};
ghost use Rattle.spec.specs.Calls.{walk_checks, filter_checks, balance_checks, explain_checks};
ghost use Rattle.spec.specs.Checks.{SettingsLimits};
ghost use Rattle.spec.specs.Frame.{settings_in};

use checks_numbers::{bad_pixel, bad_way};
use checks_room::short;
use spec::{Plan, Refusal, Room};

#[tactic(auto, unfolding(spec::specs::Calls::walk_checks))]
pub fn walk_verdict(
    plan: Plan,
    way: u32,
    column: usize,
    row: usize,
    n: usize,
    have: Room,
    out: usize,
) -> Result<(), Refusal>
    requires { SettingsLimits (settings_in plan) }
    ensures { numbered result ≡ walk_checks (settings_in plan) way column row n have out }
{
    if bad_way(plan, way) {
        return Err(Refusal::Way);
    }
    if bad_pixel(plan, column, row) {
        return Err(Refusal::Start);
    }
    if 1048576 < n {
        return Err(Refusal::Moves);
    }
    if short(plan, way, have, out, n + 1) {
        return Err(Refusal::Room);
    }
    Ok(())
}

#[tactic(auto, unfolding(spec::specs::Calls::filter_checks))]
pub fn filter_verdict(plan: Plan, way: u32, have: Room, out: usize) -> Result<(), Refusal>
    requires { SettingsLimits (settings_in plan) }
    ensures { numbered result ≡ filter_checks (settings_in plan) way have out }
{
    if bad_way(plan, way) {
        return Err(Refusal::Way);
    }
    if short(plan, way, have, out, plan.width * plan.height) {
        return Err(Refusal::Room);
    }
    Ok(())
}

#[tactic(auto, unfolding(spec::specs::Calls::balance_checks))]
pub fn balance_verdict(plan: Plan, column: usize, row: usize, level: usize) -> Result<(), Refusal>
    ensures { numbered result ≡ balance_checks (settings_in plan) column row level }
{
    if bad_pixel(plan, column, row) || plan.levels <= level {
        return Err(Refusal::Start);
    }
    Ok(())
}

#[tactic(auto, unfolding(spec::specs::Calls::explain_checks))]
pub fn explain_verdict(plan: Plan, column: usize, row: usize) -> Result<(), Refusal>
    ensures { numbered result ≡ explain_checks (settings_in plan) column row }
{
    if bad_pixel(plan, column, row) {
        return Err(Refusal::Start);
    }
    Ok(())
}
