// Checks 1 to 7, in the order of specs/Checks of crate spec: the first that fires decides. Any bytes are taken.
ghost use Rattle.std.specs.Prelude.{◌≡◌};
ghost use Rattle.spec.specs.Refusal.{numbered};
ghost use Rattle.spec.specs.Checks.{verdict};

use frame_contents::contents;
pub use frame_trailer::check_trailer;
use frame_trailer::plan_of;
use spec::Refusal;

// Checks 1 to 7.
#[tactic(auto, unfolding(spec::specs::Checks::verdict))]
pub fn check(file: &[u8]) -> Result<(), Refusal>
    ensures { numbered result ≡ verdict file.now }
{
    check_trailer(file)?;
    contents(file, plan_of(file))
}
