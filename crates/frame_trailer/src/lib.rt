// The trailer of a file: its 28 bytes read, checks 1 to 6 of them, and the plan of the file that they give.
#![tactic(auto)]

ghost use Rattle.std.specs.Prelude.{◌≡◌, ◌-◌, ◌<◌, ◌≤◌, false, length};
ghost use Rattle.spec.specs.Refusal.{numbered};
ghost use Rattle.spec.specs.Frame.{settings_of, trailer_of, own_weights, plan_of};
ghost use Rattle.spec.specs.Checks.{bad_mark, trailer_outcome};

use big_endian::{be16, be32};
use frame_distances::bad_distance;
use frame_limits::{check_settings, product};
use spec::{MARK, Plan, Refusal, Settings, TRAILER, Trailer};

#[tactic(auto, unfolding(spec::specs::Frame::settings_of, spec::specs::Frame::trailer_at))]
fn settings_of(b: &[u8]) -> Settings
    requires { 28 ≤ length b.now }
    ensures { result ≡ settings_of b.now }
{
    let t = b.len() - TRAILER;
    Settings {
        width: be16(b, t),
        height: be16(b, t + 2),
        levels: be16(b, t + 4),
        guides: be16(b, t + 6),
        kind: b[t + 8],
        radius: b[t + 9],
        smoothing: be16(b, t + 10),
    }
}

#[tactic(auto, unfolding(spec::specs::Frame::trailer_of, spec::specs::Frame::trailer_at))]
pub fn trailer_of(b: &[u8]) -> Trailer
    requires { 28 ≤ length b.now }
    ensures { result ≡ trailer_of b.now }
{
    let t = b.len() - TRAILER;
    Trailer {
        settings: settings_of(b),
        value: be32(b, t + 12),
        guide: be32(b, t + 16),
        table: be32(b, t + 20),
    }
}

#[tactic(auto, unfolding(spec::specs::Checks::bad_mark, spec::specs::Frame::trailer_at))]
fn bad_mark(file: &[u8]) -> bool
    ensures test { result ≡ bad_mark file.now }
    ensures long { result ≡ false → 28 ≤ length file.now }
{
    file.len() < TRAILER || be32(file, file.len() - TRAILER + 24) != MARK
}

// Checks 1 to 6: of the trailer and its distances, without the planes' contents.
#[tactic(auto, unfolding(spec::specs::Checks::trailer_outcome, spec::specs::Frame::trailer_of, spec::specs::Frame::trailer_at))]
pub fn check_trailer(file: &[u8]) -> Result<(), Refusal>
    ensures { numbered result ≡ trailer_outcome file.now }
{
    if bad_mark(file) {
        return Err(Refusal::Mark);
    }
    let t = trailer_of(file);
    check_settings(t.settings)?;
    if bad_distance(file.len() - TRAILER, t) {
        return Err(Refusal::Distance);
    }
    Ok(())
}

// How many weights the file itself has.
#[tactic(auto, unfolding(spec::specs::Frame::own_weights, spec::specs::Frame::table_size))]
pub fn own_weights(t: Trailer) -> usize
    ensures { (result ≡ own_weights t) × (result < 4294967296) }
{
    if t.table == 0 {
        return 0;
    }
    product(t.settings.guides, t.settings.guides)
}

// The byte that is so far before another; 0 where the file doesn't reach so far.
pub fn back_from(at: usize, back: usize) -> usize
    ensures { result ≡ at - back }
{
    at.saturating_sub(back)
}

// The plan of a file that is long enough for a trailer.
pub fn plan_of(file: &[u8]) -> Plan
    requires { 28 ≤ length file.now }
    ensures { result ≡ plan_of file.now }
{
    let at = file.len() - TRAILER;
    let t = trailer_of(file);
    let k = t.settings;
    Plan {
        width: k.width as usize,
        height: k.height as usize,
        levels: k.levels as usize,
        guides: k.guides as usize,
        kind: k.kind as usize,
        radius: k.radius as usize,
        smoothing: k.smoothing as usize,
        value: back_from(at, t.value),
        guide: back_from(at, t.guide),
        table: back_from(at, t.table),
        weights: own_weights(t),
    }
}
