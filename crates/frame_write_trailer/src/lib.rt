// The trailer of a file that is written: each of its numbers goes straight to its own place, at the byte that document 01 names.
#![tactic(auto, unfolding(spec::specs::Bytes::to16, spec::specs::Bytes::to32, spec::specs::Writer::field_bytes, spec::specs::Writer::distance_bytes))]

ghost use Rattle.std.specs.Prelude.{◌≡◌, ◌++◌, ◌≤◌, length};
ghost use Rattle.std.proofs.lemmas.List.Edits.{sets};
ghost use Rattle.spec.specs.Writer.{field_bytes, distance_bytes};

use frame_bytes::{put8, put16, put32};
use spec::{MARK, Settings};

// Bytes 0 to 11: the settings.
fn put_settings(trailer: &mut [u8], settings: Settings)
    requires { 28 ≤ length trailer.old }
    ensures { trailer.new ≡ sets trailer.old 0 (field_bytes settings) }
{
    put16(trailer, 0, settings.width);
    put16(trailer, 2, settings.height);
    put16(trailer, 4, settings.levels);
    put16(trailer, 6, settings.guides);
    put8(trailer, 8, settings.kind);
    put8(trailer, 9, settings.radius);
    put16(trailer, 10, settings.smoothing);
}

// Bytes 12 to 27: the distances back to the planes and the table, and the mark.
fn put_distances(trailer: &mut [u8], n: usize, p: usize)
    requires { (28 ≤ length trailer.old) × (n ≤ 65536) × (p ≤ 262144) }
    ensures { trailer.new ≡ sets trailer.old 12 (distance_bytes n p) }
{
    put32(trailer, 12, 2 * n + 4 * p);
    put32(trailer, 16, 2 * n + 2 * p);
    put32(trailer, 20, 2 * n);
    put32(trailer, 24, MARK);
}

// The first 28 bytes of what is lent, for a file with a table of n weights and planes of p pixels.
pub fn put_trailer(trailer: &mut [u8], settings: Settings, n: usize, p: usize)
    requires { (28 ≤ length trailer.old) × (n ≤ 65536) × (p ≤ 262144) }
    ensures { trailer.new ≡ sets trailer.old 0 (field_bytes settings ++ distance_bytes n p) }
{
    put_settings(trailer, settings);
    put_distances(trailer, n, p);
}
