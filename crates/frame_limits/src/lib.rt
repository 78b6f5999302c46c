// Checks 2 to 5 of a trailer's numbers: no bytes are read here.
#![tactic(auto)]

ghost use Rattle.std.specs.Prelude.{◌≡◌, ◌*◌, ◌<◌};
ghost use Rattle.spec.specs.Refusal.{numbered};
ghost use Rattle.spec.specs.Checks.{outside, bad_size, bad_counts, bad_kind, settings_outcome};

use spec::{Refusal, Settings};

pub fn product(a: u16, b: u16) -> usize
    ensures { (result ≡ a * b) × (result < 4294967296) }
{
    (a as usize) * (b as usize)
}

pub fn outside(low: usize, high: usize, n: usize) -> bool
    ensures { result ≡ outside low high n }
{
    n < low || high < n
}

#[tactic(auto, unfolding(spec::specs::Checks::bad_size))]
fn bad_size(settings: Settings) -> bool
    ensures { result ≡ bad_size settings }
{
    outside(1, 1024, settings.width as usize)
        || outside(1, 1024, settings.height as usize)
        || 262144 < product(settings.width, settings.height)
}

#[tactic(auto, unfolding(spec::specs::Checks::bad_counts))]
fn bad_counts(settings: Settings) -> bool
    ensures { result ≡ bad_counts settings }
{
    outside(2, 1024, settings.levels as usize) || outside(2, 256, settings.guides as usize)
}

#[tactic(auto, unfolding(spec::specs::Checks::bad_kind))]
fn bad_kind(settings: Settings) -> bool
    ensures { result ≡ bad_kind settings }
{
    match settings.kind {
        1 => settings.smoothing != 0,
        2 => outside(1, 65025, settings.smoothing as usize),
        _ => true,
    }
}

// Checks 2 to 5, which the writer shares.
#[tactic(auto, unfolding(spec::specs::Checks::settings_outcome, spec::specs::Checks::bad_radius))]
pub fn check_settings(settings: Settings) -> Result<(), Refusal>
    ensures { numbered result ≡ settings_outcome settings }
{
    if bad_size(settings) {
        return Err(Refusal::Size);
    }
    if bad_counts(settings) {
        return Err(Refusal::Counts);
    }
    if bad_kind(settings) {
        return Err(Refusal::Kind);
    }
    if 15 < settings.radius {
        return Err(Refusal::Radius);
    }
    Ok(())
}
