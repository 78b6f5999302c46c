// The writer of a frame: checks first, then every byte straight to its place in the lent output. Any arguments are taken; a refusal changes no byte.
#![tactic(auto)]

ghost use Rattle.std.specs.Prelude.{◌≡◌, ◌<◌, length};
ghost use Rattle.std.proofs.lemmas.List.Edits.{sets};
ghost use Rattle.spec.specs.Refusal.{numbered};
ghost use Rattle.spec.specs.Writer.{written, bad_length, scan_list, writer_outcome};
ghost use Rattle.frame_write.specs.Write.{WritingFits, Writes};

use frame_below::list_below;
use frame_bytes::put_all;
use frame_limits::{check_settings, product};
use frame_write_trailer::put_trailer;
use spec::{Refusal, Settings, TRAILER, judged};

// Check 6: a plane of the wrong length, or a table that is neither empty nor, in kind 1, M·M.
#[tactic(auto, unfolding(spec::specs::Writer::bad_length))]
fn bad_length(settings: Settings, v: usize, g: usize, a: usize) -> bool
    ensures { result ≡ bad_length settings v g a }
{
    let p = product(settings.width, settings.height);
    v != p
        || g != p
        || a != 0 && !(settings.kind == 1 && a == product(settings.guides, settings.guides))
}

// Check 7 of numbers, values or not, that would begin at an offset: those that are surely below the limit are passed over.
fn scan_list(list: &[u16], values: bool, limit: u16, offset: usize) -> Result<(), Refusal>
    requires { offset < 1099511627776 }
    ensures { numbered result ≡ scan_list list.now values limit offset }
{
    for k in list_below(list, values, limit)..list.len() {
        if limit <= judged(values, list[k]) {
            return Err(Refusal::Contents(offset + 2 * k));
        }
    }
    Ok(())
}

// Checks 2 to 7 and 11 of what is to be written into an output of room bytes.
#[tactic(auto, unfolding(spec::specs::Writer::writer_outcome, spec::specs::Writer::written_size))]
fn check_writing(
    settings: Settings,
    values: &[u16],
    guides: &[u16],
    table: &[u16],
    room: usize,
) -> Result<(), Refusal>
    ensures { numbered result ≡ writer_outcome settings values.now guides.now table.now room }
{
    check_settings(settings)?;
    if bad_length(settings, values.len(), guides.len(), table.len()) {
        return Err(Refusal::Distance);
    }
    let p = product(settings.width, settings.height);
    scan_list(values, true, settings.levels, 0)?;
    scan_list(guides, false, settings.guides, 2 * p)?;
    if room < 4 * p + 2 * table.len() + TRAILER {
        return Err(Refusal::Room);
    }
    Ok(())
}

// The whole file, each part straight to its place in the output.
#[tactic(auto, unfolding(spec::specs::Writer::written_size))]
fn put_file(out: &mut [u8], settings: Settings, values: &[u16], guides: &[u16], table: &[u16])
    requires { WritingFits settings values.now guides.now table.now (length out.old) }
    ensures { out.new
        ≡ sets out.old 0 (written settings values.now guides.now table.now) }
{
    let p = values.len();
    let n = table.len();
    put_all(out, 0, values);
    put_all(out, 2 * p, guides);
    put_all(out, 4 * p, table);
    let at = 4 * p + 2 * n;
    put_trailer(&mut out[at..], settings, n, p);
}

// Writes value plane, guide plane, table and trailer without gaps from the output's first byte; an empty table means the built-in weights. It gives
// the file's length, or why nothing was written.
#[tactic(auto, using(crate::proofs::Writing::fit), unfolding(spec::specs::Writer::written_size))]
pub fn write(
    settings: Settings,
    values: &[u16],
    guides: &[u16],
    table: &[u16],
    output: &mut [u8],
) -> Result<usize, Refusal>
    ensures { Writes settings values.now guides.now table.now
        output.old result output.new }
{
    let room = output.len();
    check_writing(settings, values, guides, table, room)?;
    put_file(output, settings, values, guides, table);
    Ok(4 * values.len() + 2 * table.len() + TRAILER)
}
