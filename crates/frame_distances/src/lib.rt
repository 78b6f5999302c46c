// Check 6 of a trailer's numbers: whether the planes and the table lie before it. No bytes are read here.
#![tactic(auto)]

ghost use Rattle.std.specs.Prelude.{◌≡◌, ◌*◌, ◌<◌};
ghost use Rattle.spec.specs.Frame.{pixels, table_size};
ghost use Rattle.spec.specs.Checks.{bad_distance};

use frame_limits::{outside, product};
use spec::{Settings, Trailer};

// The bytes of a plane, of a table.
pub fn plane_bytes(settings: Settings) -> usize
    ensures { (result ≡ 2 * pixels settings) × (result < 8589934592) }
{
    2 * product(settings.width, settings.height)
}

fn table_bytes(settings: Settings) -> usize
    ensures { (result ≡ 2 * table_size settings) × (result < 8589934592) }
{
    2 * product(settings.guides, settings.guides)
}

// Check 6, of a trailer that begins at byte at.
#[tactic(auto, unfolding(spec::specs::Checks::bad_distance))]
pub fn bad_distance(at: usize, t: Trailer) -> bool
    ensures { result ≡ bad_distance at t }
{
    let plane = plane_bytes(t.settings);
    let table = table_bytes(t.settings);
    outside(plane, at, t.value)
        || outside(plane, at, t.guide)
        || t.table != 0 && (outside(table, at, t.table) || t.settings.kind == 2)
}
