// The calls for C and Rust: numbers and slices as pointer and length, a status out (0, or the documents' number), every other result through a lent
// number. A refused call writes nothing but the offset of number 7. include/icemedian.h documents them. Each takes any arguments; the work and the
// promises are those of frame, frame_write, byte_planes, ice, tolerance and cameras.
#![tactic(auto)]

ghost use Rattle.spec.specs.Checks.{verdict};
ghost use Rattle.ice_step.specs.Finished.{lent};
ghost use Rattle.tolerance.specs.Contract.{buffers};
ghost use Rattle.ice_prefix.specs.Prefix.{parts};
ghost use Rattle.c_values.specs.Results.{Reported, lent_grounds};
ghost use Rattle.c_values.specs.Settings.{settings_from};
ghost use Rattle.icemedian_c.specs.Exports.{WalkCall, FilterCall, ToleranceCall, BalanceCall, ExplainCall, WriteCall, SplitCall, JoinCall};
ghost use Rattle.icemedian_c.specs.Exports.{CamerasCall};

use c_values::{give_grounds, give_walk, report, settings_from};
use ice::calls;

// Checks 1 to 7.
#[unsafe(no_mangle)]
pub extern "C" fn icemedian_check(file: &[u8], offset: &mut u64) -> u32
    ensures { Reported (verdict file.now) result offset.old offset.new }
{
    report(&frame::check::check(file), offset)
}

// Walks from a pixel along a list of moves.
#[unsafe(no_mangle)]
pub extern "C" fn icemedian_walk(
    file: &[u8],
    way: u32,
    column: usize,
    row: usize,
    moves: &[u8],
    counts: &mut [u16],
    words: &mut [u64],
    numbers: &mut [u32],
    summary: &mut [i64],
    answers: &mut [u16],
    shifts: &mut u64,
    cut: &mut u16,
    balance_box: &mut [i16; 256],
    offset: &mut u64,
) -> u32
    ensures { WalkCall file.now way column row moves.now
        (lent counts.old words.old numbers.old summary.old)
        (lent counts.new words.new numbers.new summary.new)
        answers.old answers.new result shifts.old shifts.new cut.old cut.new
        balance_box.old balance_box.new offset.old offset.new }
{
    let walked = calls::walk(
        file, way, column, row, moves, counts, words, numbers, summary, answers,
    );
    give_walk(walked, shifts, cut, balance_box);
    report(&walked, offset)
}

// Filters a frame into an output plane.
#[unsafe(no_mangle)]
pub extern "C" fn icemedian_filter(
    file: &[u8],
    way: u32,
    counts: &mut [u16],
    words: &mut [u64],
    numbers: &mut [u32],
    summary: &mut [i64],
    output: &mut [u16],
    shifts: &mut u64,
    offset: &mut u64,
) -> u32
    ensures { FilterCall file.now way
        (lent counts.old words.old numbers.old summary.old)
        (lent counts.new words.new numbers.new summary.new)
        output.old output.new result shifts.old shifts.new offset.old offset.new }
{
    let filtered = calls::filter(file, way, counts, words, numbers, summary, output);
    if let Ok(end) = filtered {
        *shifts = end.shifts;
    }
    report(&filtered, offset)
}

// Filters a frame with its own values, and then with the upper levels in their place, into two output planes.
#[unsafe(no_mangle)]
pub extern "C" fn icemedian_tolerance(
    file: &[u8],
    upper: &[u16],
    counts: &mut [u16],
    words: &mut [u64],
    least: &mut [u16],
    greatest: &mut [u16],
    least_shifts: &mut u64,
    greatest_shifts: &mut u64,
    offset: &mut u64,
) -> u32
    ensures { ToleranceCall file.now upper.now
        (buffers counts.old words.old least.old greatest.old)
        (buffers counts.new words.new least.new greatest.new)
        result least_shifts.old least_shifts.new greatest_shifts.old greatest_shifts.new
        offset.old offset.new }
{
    let tolerated = tolerance::tolerance(file, upper, counts, words, least, greatest);
    if let Ok(found) = tolerated {
        *least_shifts = found.least_shifts;
        *greatest_shifts = found.greatest_shifts;
    }
    report(&tolerated, offset)
}

// The balance of a window at a level.
#[unsafe(no_mangle)]
pub extern "C" fn icemedian_balance(
    file: &[u8],
    column: usize,
    row: usize,
    level: u32,
    balance: &mut i64,
    offset: &mut u64,
) -> u32
    ensures { BalanceCall file.now column row level result balance.old balance.new
        offset.old offset.new }
{
    let balanced = calls::balance(file, column, row, level as usize);
    if let Ok(n) = balanced {
        *balance = n;
    }
    report(&balanced, offset)
}

// Why the window at a pixel has its level.
#[unsafe(no_mangle)]
pub extern "C" fn icemedian_explain(
    file: &[u8],
    column: usize,
    row: usize,
    pixels: &mut usize,
    total: &mut i64,
    level: &mut u16,
    below: &mut i64,
    reached: &mut i64,
    cause: &mut u32,
    offset: &mut u64,
) -> u32
    ensures { ExplainCall file.now column row result
        (lent_grounds pixels.old total.old level.old below.old reached.old cause.old)
        (lent_grounds pixels.new total.new level.new below.new reached.new cause.new)
        offset.old offset.new }
{
    let explained = calls::explain(file, column, row);
    give_grounds(explained, pixels, total, level, below, reached, cause);
    report(&explained, offset)
}

// Writes a frame into the output.
#[unsafe(no_mangle)]
pub extern "C" fn icemedian_write(
    width: u32,
    height: u32,
    levels: u32,
    guides: u32,
    kind: u32,
    radius: u32,
    smoothing: u32,
    values: &[u16],
    guide: &[u16],
    table: &[u16],
    output: &mut [u8],
    length: &mut usize,
    offset: &mut u64,
) -> u32
    ensures { WriteCall (settings_from width height levels guides kind radius smoothing)
        values.now guide.now table.now output.old output.new result
        length.old length.new offset.old offset.new }
{
    let settings = settings_from(width, height, levels, guides, kind, radius, smoothing);
    let written = frame_write::write(settings, values, guide, table, output);
    if let Ok(n) = written {
        *length = n;
    }
    report(&written, offset)
}

// The file with its value plane split into byte planes, into an output of the file's length.
#[unsafe(no_mangle)]
pub extern "C" fn icemedian_split(file: &[u8], output: &mut [u8], offset: &mut u64) -> u32
    ensures { SplitCall file.now output.old output.new result offset.old offset.new }
{
    report(&byte_planes::split(file, output), offset)
}

// The file that was split. No check of it has an offset, so what `report` writes one to is of no use.
#[unsafe(no_mangle)]
pub extern "C" fn icemedian_join(file: &[u8], output: &mut [u8]) -> u32
    ensures { JoinCall file.now output.old output.new result }
{
    let mut unused = 0u64;
    report(&byte_planes::join(file, output), &mut unused)
}

// Up to eight files, end to end in one buffer, filtered as far as the grants of the periods reach.
#[unsafe(no_mangle)]
pub extern "C" fn icemedian_cameras(
    files: &[u8],
    lengths: &[usize],
    limits: &[u32],
    counts: &mut [u16],
    words: &mut [u64],
    answers: &mut [u16],
    grants: &mut u64,
    offset: &mut u64,
) -> u32
    ensures { CamerasCall files.now lengths.now limits.now
        (parts counts.old words.old answers.old)
        (parts counts.new words.new answers.new)
        result grants.old grants.new offset.old offset.new }
{
    let granted = cameras::cameras(files, lengths, limits, counts, words, answers);
    if let Ok(n) = granted {
        *grants = n;
    }
    report(&granted, offset)
}
