// The checks of the tolerance call, after those of the file: 8, 13 and 11, in document 02's order.
#![tactic(auto)]

ghost use Rattle.std.specs.Prelude.{◌≡◌};
ghost use Rattle.spec.specs.Refusal.{numbered};
ghost use Rattle.spec.specs.Checks.{Planned};
ghost use Rattle.spec.specs.Tolerance.{bad_span, bad_upper, tolerance_checks};

use checks_room::short;
use spec::{NO_READING, Plan, Refusal, Room};
use window::pixel;

// A reading and its upper level that do not go together.
#[tactic(auto, unfolding(spec::specs::Tolerance::bad_span))]
fn bad_span(levels: usize, reading: u16, upper: u16) -> bool
    ensures { result ≡ bad_span levels reading upper }
{
    if reading == NO_READING {
        return upper != NO_READING;
    }
    upper < reading || levels <= upper as usize
}

// Check 13: the plane of upper levels, against the file's readings.
pub fn bad_upper(file: &[u8], plan: Plan, upper: &[u16]) -> bool
    requires { Planned file.now plan }
    ensures { result ≡ bad_upper file.now upper.now }
{
    if upper.len() != plan.width * plan.height {
        return true;
    }
    for (q, most) in upper.iter().enumerate() {
        if bad_span(plan.levels, pixel::value_at(file, plan, q), *most) {
            return true;
        }
    }
    false
}

// Whether the call is refused, where it is lent so much of way 1's stores and two outputs of so many numbers.
#[tactic(auto, unfolding(spec::specs::Tolerance::tolerance_checks, spec::specs::Frame::plan_of))]
pub fn tolerance_verdict(
    file: &[u8],
    plan: Plan,
    upper: &[u16],
    have: Room,
    least: usize,
    greatest: usize,
) -> Result<(), Refusal>
    requires { Planned file.now plan }
    ensures { numbered result ≡ tolerance_checks file.now upper.now have least greatest }
{
    if plan.kind == 2 {
        return Err(Refusal::Way);
    }
    if bad_upper(file, plan, upper) {
        return Err(Refusal::Upper);
    }
    let n = plan.width * plan.height;
    if short(plan, 1, have, least, n) || greatest < n {
        return Err(Refusal::Room);
    }
    Ok(())
}
