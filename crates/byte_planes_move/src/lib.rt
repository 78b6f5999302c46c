// The bytes of a file moved into an output: those of a plane split into byte planes, or joined again, the others copied to where they stand. The
// caller makes sure that there is room.
#![tactic(auto)]

ghost use Rattle.std.specs.Prelude.{◌≡◌, ◌++◌, ◌+◌, ◌*◌, ◌-◌, ◌<◌, ◌≤◌, length, take, drop};
ghost use Rattle.std.proofs.lemmas.List.Edits.{sets};
ghost use Rattle.spec.specs.BytePlanes.{split_plane, joined_plane};
ghost use Rattle.byte_planes_move.specs.EveryOther.{every_other};

use big_endian_part::copy_low_first;

// The bytes from one to another, which it ends before, as they are.
fn copy(file: &[u8], from: usize, to: usize, output: &mut [u8])
    requires { (from ≤ to) × (to ≤ length file.now) × (to ≤ length output.old) }
    ensures { output.new ≡ sets output.old from (take (to - from) (drop from file.now)) }
{
    // No copy_from_slice: the archive for C would then ask for memmove.
    for i in from..to {
        output[i] = file[i];
    }
}

// The bytes that are taken together, out of a short array: the compiler takes bytes that are two apart one by one, but two-byte numbers many at a
// time.
const RUN: usize = 64;

// 64 bytes, two apart: the low bytes of 64 numbers that are read low byte first.
fn put_run(file: &[u8], from: usize, at: usize, output: &mut [u8])
    requires { (from + 2 * 64 ≤ length file.now) × (at + 64 ≤ length output.old) }
    ensures { output.new ≡ sets output.old at (every_other file.now from 64) }
{
    let mut part = [0; RUN];
    copy_low_first(file, from, RUN, &mut part);
    // By place, which the edit run_to_one_place changes.
    for j in 0..RUN {
        output[at + j] = (part[j] % 256) as u8;
    }
}

// n bytes of the file, two apart, stored side by side: whole runs, and the rest one by one.
fn put_every_other(file: &[u8], from: usize, n: usize, at: usize, output: &mut [u8])
    requires { (from + 2 * n ≤ length file.now) × (at + n ≤ length output.old) }
    ensures { output.new ≡ sets output.old at (every_other file.now from n) }
{
    let runs = n / RUN;
    for run in 0..runs {
        let k = RUN * run;
        put_run(file, from + 2 * k, at + k, output);
    }
    for q in RUN * runs..n {
        output[at + q] = file[from + 2 * q];
    }
}

// A plane of n numbers from a byte on, behind which the file has another byte: the high bytes of all, then the low bytes of all.
fn split_plane(file: &[u8], at: usize, n: usize, output: &mut [u8])
    requires { (at + 2 * n < length file.now) × (at + 2 * n ≤ length output.old) }
    ensures { output.new ≡ sets output.old at (split_plane (take (2 * n) (drop at file.now))) }
{
    put_every_other(file, at, n, at, output);
    put_every_other(file, at + 1, n, at + n, output);
}

// Such a plane joined: of each number its high byte and then its low byte.
fn join_plane(file: &[u8], at: usize, n: usize, output: &mut [u8])
    requires { (at + 2 * n ≤ length file.now) × (at + 2 * n ≤ length output.old) }
    ensures { output.new ≡ sets output.old at (joined_plane n (take (2 * n) (drop at file.now))) }
{
    let low = at + n;
    for q in 0..n {
        let number = at + 2 * q;
        output[number] = file[at + q];
        output[number + 1] = file[low + q];
    }
}

// A whole file whose plane of n numbers begins at a byte, and ends before the file does: that plane split.
pub fn split_file(file: &[u8], at: usize, n: usize, output: &mut [u8])
    requires { (at + 2 * n < length file.now) × (length file.now ≤ length output.old) }
    ensures { output.new ≡ sets output.old 0
        (take at file.now ++ split_plane (take (2 * n) (drop at file.now)) ++ drop (at + 2 * n) file.now) }
{
    copy(file, 0, at, output);
    split_plane(file, at, n, output);
    copy(file, at + 2 * n, file.len(), output);
}

// And that plane joined.
pub fn join_file(file: &[u8], at: usize, n: usize, output: &mut [u8])
    requires { (at + 2 * n < length file.now) × (length file.now ≤ length output.old) }
    ensures { output.new ≡ sets output.old 0
        (take at file.now ++ joined_plane n (take (2 * n) (drop at file.now)) ++ drop (at + 2 * n) file.now) }
{
    copy(file, 0, at, output);
    join_plane(file, at, n, output);
    copy(file, at + 2 * n, file.len(), output);
}
