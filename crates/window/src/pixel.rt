// The value and the guide of a pixel, by its number: row by row from the top left. The file is accepted, so the bytes are there.
ghost use Rattle.std.specs.Prelude.{◌≡◌, ◌*◌, ◌<◌};
ghost use Rattle.spec.specs.Checks.{Planned, Pictured};
ghost use Rattle.spec.specs.Frame.{pixel_level, pixel_guide, value_of};

use big_endian::{be16, guide};
use spec::{Guide, Plan};

// The value: a level, or no reading.
pub fn value_at(file: &[u8], plan: Plan, q: usize) -> u16
    requires planned { Planned file.now plan }
    requires q_bound { q < plan.width * plan.height }
    ensures { result ≡ pixel_level file.now q }
{
    be16(file, plan.value + 2 * q)
}

// The value in a plane that is given in place of the file's own; an empty one is none.
pub fn value_in(file: &[u8], plane: &[u16], plan: Plan, q: usize) -> u16
    requires pictured { Pictured file.now plane.now plan }
    requires q_bound { q < plan.width * plan.height }
    ensures { result ≡ value_of file.now plane.now q }
{
    if plane.is_empty() {
        value_at(file, plan, q)
    } else {
        plane[q]
    }
}

pub fn guide_at(file: &[u8], plan: Plan, q: usize) -> Guide
    requires planned { Planned file.now plan }
    requires q_bound { q < plan.width * plan.height }
    ensures { result.0 ≡ pixel_guide file.now q }
{
    guide(file, plan.guide + 2 * q)
}
