// The program's checks: 12 by the input's length first, then 1 to 7, then 12 by width, levels and guides.
#![tactic(auto)]

ghost use Rattle.std.specs.Prelude.{◌≡◌, ◌||◌, ltb, IfOk};
ghost use Rattle.spec.specs.Refusal.{numbered, refuse};
ghost use Rattle.spec.specs.Program.{program_outcome};
ghost use Rattle.program_checks.specs.Admitted.{Admitted};

use frame::plan::open_plan;
use spec::{Plan, Refusal};

// Document 01's bound on the program's input, in bytes, and on width, levels and guides.
const INPUT_LIMIT: usize = 16384;

const COUNT_LIMIT: usize = 64;

// Check 12 of the input's length.
fn check_length(length: usize) -> Result<(), Refusal>
    ensures { numbered result ≡ refuse 12 (ltb 16384 length) }
{
    if INPUT_LIMIT < length {
        return Err(Refusal::Program);
    }
    Ok(())
}

// Check 12 of width, levels and guides.
fn check_counts(plan: Plan) -> Result<(), Refusal>
    ensures { numbered result ≡ refuse 12 (ltb 64 plan.width || ltb 64 plan.levels || ltb 64 plan.guides) }
{
    if COUNT_LIMIT < plan.width || COUNT_LIMIT < plan.levels || COUNT_LIMIT < plan.guides {
        return Err(Refusal::Program);
    }
    Ok(())
}

// The plan of an input that all checks accept.
#[tactic(auto, unfolding(spec::specs::Program::program_outcome, spec::specs::Program::too_large, spec::specs::Frame::plan_of))]
pub fn judge(input: &[u8]) -> Result<Plan, Refusal>
    ensures outcome { numbered result ≡ program_outcome input.now }
    ensures plan { IfOk result (Admitted input.now) }
{
    check_length(input.len())?;
    let plan = open_plan(input)?;
    check_counts(plan)?;
    Ok(plan)
}
