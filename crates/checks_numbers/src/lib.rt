// Checks 8 and 9, of plain numbers: a way's, and a pixel's. They read settings alone, no file and no store.
#![tactic(auto)]

ghost use Rattle.std.specs.Prelude.{◌≡◌};
ghost use Rattle.spec.specs.Calls.{bad_way, bad_pixel};
ghost use Rattle.spec.specs.Frame.{settings_in};

use spec::Plan;

#[tactic(auto, unfolding(spec::specs::Calls::bad_way))]
pub fn bad_way(plan: Plan, way: u32) -> bool
    ensures { result ≡ bad_way (settings_in plan) way }
{
    match way {
        1 | 4 => false,
        2 | 3 => plan.kind != 2,
        _ => true,
    }
}

#[tactic(auto, unfolding(spec::specs::Calls::bad_pixel))]
pub fn bad_pixel(plan: Plan, column: usize, row: usize) -> bool
    ensures { result ≡ bad_pixel (settings_in plan) column row }
{
    plan.width <= column || plan.height <= row
}
