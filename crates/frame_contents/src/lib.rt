// Check 7: every value and guide of a file below its limit, but for the value that says there is no reading. A weight may be any number.
#![tactic(auto)]

ghost use Rattle.std.specs.Prelude.{◌≡◌, ◌+◌, ◌*◌, ◌≤◌, length};
ghost use Rattle.spec.specs.Refusal.{numbered};
ghost use Rattle.spec.specs.Checks.{scan_file, contents};
ghost use Rattle.frame_contents.specs.Planes.{PlanesInFile};

use big_endian::be16;
use frame_below::file_below;
use spec::{Plan, Refusal, judged};

// Check 7 of n numbers, values or not, from an offset on: those that are surely below the limit are passed over.
fn scan(file: &[u8], values: bool, offset: usize, n: usize, limit: usize) -> Result<(), Refusal>
    requires { offset + 2 * n ≤ length file.now }
    ensures { numbered result ≡ scan_file file.now values offset n limit }
{
    for k in file_below(file, values, offset, n, limit)..n {
        let at = offset + 2 * k;
        if limit <= judged(values, be16(file, at)) as usize {
            return Err(Refusal::Contents(at));
        }
    }
    Ok(())
}

// Check 7: value plane, then guide plane.
#[tactic(auto, unfolding(spec::specs::Checks::contents, spec::specs::Checks::value_scan, spec::specs::Checks::guide_scan))]
pub fn contents(file: &[u8], plan: Plan) -> Result<(), Refusal>
    requires { PlanesInFile file.now plan }
    ensures { numbered result ≡ contents file.now plan }
{
    let n = plan.width * plan.height;
    scan(file, true, plan.value, n, plan.levels)?;
    scan(file, false, plan.guide, n, plan.guides)
}
