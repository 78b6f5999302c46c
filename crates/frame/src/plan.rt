// The plan of a file: its settings as indices and where its parts begin. Every call on a file opens it here first and passes the plan on by value.
ghost use Rattle.std.specs.Prelude.{◌≡◌, IfOk};
ghost use Rattle.spec.specs.Refusal.{numbered};
ghost use Rattle.spec.specs.Checks.{verdict, Planned};

use crate::check::check;
use frame_trailer::plan_of;
use spec::{Plan, Refusal};

// Checks 1 to 7, and the plan of a file that they accept.
pub fn open_plan(file: &[u8]) -> Result<Plan, Refusal>
    ensures outcome { numbered result ≡ verdict file.now }
    ensures plan { IfOk result (Planned file.now) }
{
    check(file)?;
    Ok(plan_of(file))
}
