// The text of an accepted frame: its size, its filtered rows, and each serving way with its shift count.
ghost use Rattle.std.specs.Prelude.{◌≤◌, length};
ghost use Rattle.spec.specs.Refusal.{accepted};
ghost use Rattle.spec.specs.Frame.{frame_of};
ghost use Rattle.spec.specs.declared.Way.TheVariants.{Joint};
ghost use Rattle.spec.specs.Filter.{filter_end};
ghost use Rattle.spec.specs.Program.{output_text};
ghost use Rattle.text.specs.Text.{TextRoom, Puts};
ghost use Rattle.program_checks.specs.Admitted.{Admitted};
ghost use Rattle.program.specs.Answer.{longest, Filterable, Filtered, guided_text};

use ice::calls::filter;
use spec::Plan;
use text_lines::{put_rows, put_size, put_way};

// The pixels that a file of 16,384 bytes can have: its planes may overlap, so that 28 bytes of trailer and 2 for each pixel are the least.
const PIXELS: usize = 8192;

// How many numbers each store has: counts, occupancy words, column or chain store, and summary, for 64 columns, levels and guides and radius 15.
const COUNTS: usize = 4096;

const WORDS: usize = 64;

const NUMBERS: usize = 8320;

const BLOCKS: usize = 4;

// Filters by a way, with stores of its own; gives the shift count.
fn filter_by(input: &[u8], way: u32, plane: &mut [u16; PIXELS]) -> u64
    requires { Filterable input.now way }
    ensures { Filtered input.now way plane.old plane.new result }
{
    let mut counts = [0u16; COUNTS];
    let mut words = [0u64; WORDS];
    let mut numbers = [0u32; NUMBERS];
    let mut summary = [0i64; BLOCKS];
    let filtered = filter(
        input,
        way,
        &mut counts,
        &mut words,
        &mut numbers,
        &mut summary,
        plane,
    );
    filtered.unwrap().shifts
}

// The lines of the ways that serve kind 2 alone.
fn put_guided(
    out: &mut [u8],
    at: usize,
    input: &[u8],
    plan: Plan,
    plane: &mut [u16; PIXELS],
) -> usize
    requires admitted { Admitted input.now plan }
    requires text_room { TextRoom out.old at (guided_text plan.kind (filter_end Joint (frame_of input.now)).shifts) }
    ensures { Puts out.old out.new at result
        (guided_text plan.kind (filter_end Joint (frame_of input.now)).shifts) }
{
    if plan.kind != 2 {
        return at;
    }
    let columns = filter_by(input, 2, plane);
    let next = put_way(out, at, b"columns ", columns);
    let chain = filter_by(input, 3, plane);
    put_way(out, next, b"chain ", chain)
}

// The text of an accepted frame.
pub fn put_answer(out: &mut [u8], input: &[u8], plan: Plan) -> usize
    requires admitted { Admitted input.now plan }
    requires longest_in_bounds { longest ≤ length out.old }
    ensures { Puts out.old out.new 0 result (output_text input.now accepted) }
{
    let mut plane = [0u16; PIXELS];
    let joint = filter_by(input, 1, &mut plane);
    let below = put_size(out, 0, plan.width as u64, plan.height as u64);
    let ways = put_rows(out, below, &plane, plan.width, plan.height);
    let next = put_way(out, ways, b"joint ", joint);
    let last = put_guided(out, next, input, plan, &mut plane);
    let coarse = filter_by(input, 4, &mut plane);
    put_way(out, last, b"coarse ", coarse)
}
