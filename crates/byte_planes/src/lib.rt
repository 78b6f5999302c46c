// Document 02, ask 8: a frame's value plane with its high bytes first and its low bytes after, which an archive packs better; and back. Every other
// byte is copied. Any bytes are taken; a refusal changes no byte of the output.
#![tactic(auto)]

ghost use Rattle.std.specs.Prelude.{◌≡◌, ◌+◌, ◌≤◌, ltb, length, OnOk};
ghost use Rattle.spec.specs.Refusal.{numbered, ◌▷◌, refuse};
ghost use Rattle.spec.specs.Frame.{plan_of};
ghost use Rattle.spec.specs.Checks.{trailer_outcome};
ghost use Rattle.spec.specs.BytePlanes.{overlap, bad_overlap};
ghost use Rattle.byte_planes.specs.Contract.{Splits, Joins};

use byte_planes_move::{join_file, split_file};
use frame_contents::contents;
use frame_trailer::{check_trailer, plan_of};
use spec::Refusal;

// Whether m bytes from byte a on and n bytes from byte c on have one in common.
#[tactic(auto, unfolding(spec::specs::BytePlanes::overlap))]
fn overlap(a: usize, m: usize, c: usize, n: usize) -> bool
    requires { (a + m ≤ 18446744073709551615) × (c + n ≤ 18446744073709551615) }
    ensures { result ≡ overlap a m c n }
{
    c < a + m && a < c + n && m != 0 && n != 0
}

// Checks 1 to 6, and 14: the guide plane and the table lie apart from the value plane. Whoever goes on makes the plan again, because a plan in the
// result takes more stack.
#[tactic(auto, unfolding(spec::specs::BytePlanes::bad_overlap))]
fn check_parts(file: &[u8]) -> Result<(), Refusal>
    ensures { numbered result ≡ (trailer_outcome file.now ▷ refuse 14 (bad_overlap (plan_of file.now))) }
{
    check_trailer(file)?;
    let plan = plan_of(file);
    let n = 2 * (plan.width * plan.height);
    if overlap(plan.value, n, plan.guide, n)
        || overlap(plan.value, n, plan.table, 2 * plan.weights)
    {
        return Err(Refusal::Overlap);
    }
    Ok(())
}

// Check 11: the output has room for a file.
fn check_room(file: &[u8], room: usize) -> Result<(), Refusal>
    ensures outcome { numbered result ≡ refuse 11 (ltb room (length file.now)) }
    ensures fits { OnOk result (length file.now ≤ room) }
{
    if room < file.len() {
        return Err(Refusal::Room);
    }
    Ok(())
}

// The file with its value plane split, in the output's first bytes, as many as the file has.
pub fn split(file: &[u8], output: &mut [u8]) -> Result<(), Refusal>
    ensures { Splits file.now output.old result output.new }
{
    check_parts(file)?;
    let plan = plan_of(file);
    contents(file, plan)?;
    check_room(file, output.len())?;
    split_file(file, plan.value, plan.width * plan.height, output);
    Ok(())
}

// The file with its value plane joined. It reads the trailer and the distances alone: a split plane holds no levels.
pub fn join(file: &[u8], output: &mut [u8]) -> Result<(), Refusal>
    ensures { Joins file.now output.old result output.new }
{
    check_parts(file)?;
    let room = output.len();
    check_room(file, room)?;
    let plan = plan_of(file);
    join_file(file, plan.value, plan.width * plan.height, output);
    Ok(())
}
