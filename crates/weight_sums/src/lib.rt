// A window's weights gathered by level, or by blocks of levels, from the file alone: how the window is counted, and one pass over its pixels.
#![tactic(auto)]

ghost use Rattle.std.specs.Prelude.{◌≡◌, false, ◌^◌, ◌<◌, length, pos, ◌+ℤ◌};
ghost use Rattle.spec.specs.Frame.{frame_of};
ghost use Rattle.spec.specs.Checks.{Planned};
ghost use Rattle.spec.specs.Window.{empty};
ghost use Rattle.window.specs.Sums.{SumsAt};
ghost use Rattle.pixels.specs.Pixels.{count_of, pixel_fold};
ghost use Rattle.balance.specs.Formula.{Weighs};
ghost use Rattle.balance.specs.Balance.{signed_by, balance_by, PixelsWeighed, Weighed};
ghost use Rattle.weight_sums.specs.Sums.{CountedBy, LineBlocks, BlocksAdded, Zeros, BlocksFit, Gathered};

use balance::formula::Formula;
use balance::{guided_formula, ones_if_hollow, table_row};
use pixels::Pixel;
use spec::Plan;
use window::line::{column_line, span_of};
use window::pixel;
use window::sums::Sums;

// How a window is counted: the formula over a row of numbers, and whether it is hollow.
#[derive(Clone, Copy)]
pub struct Counting {
    pub formula: Formula,
    pub hollow: bool,
}

// The row and the formula of the window at (s, t), whose sums are a and which has a reading, whatever the row held. Each pixel of a hollow window
// weighs 1; kind 2 has none.
pub fn weights_of(
    file: &[u8],
    plan: Plan,
    a: Sums,
    s: usize,
    t: usize,
    row: &mut [u16; 256],
) -> Counting
    requires planned { (Planned file.now plan) × (s < plan.width) × (t < plan.height) }
    requires sums_at { (SumsAt (frame_of file.now) s t a) × (empty (frame_of file.now) s t ≡ false) }
    ensures { CountedBy (frame_of file.now) s t row.new result }
{
    if plan.kind == 2 {
        return Counting {
            formula: guided_formula(file, plan, a, s, t, row),
            hollow: false,
        };
    }
    let centre = pixel::guide_at(file, plan, t * plan.width + s);
    table_row(file, plan, centre, row);
    let hollow = ones_if_hollow(file, plan, s, t, row);
    Counting {
        formula: Formula::TABLE,
        hollow,
    }
}

// A list's pixels, each added to its block of 2 ^ bits levels; and what they weigh together, which is their balance at a level that none is above.
pub fn add_pixels(
    pixels: &[Pixel],
    weights: &[u16],
    formula: Formula,
    bits: u32,
    sums: &mut [i64],
) -> i64
    requires { (PixelsWeighed pixels.now weights.now formula) × (LineBlocks (2 ^ bits) pixels.now sums.old) × (bits < 16) }
    ensures { (BlocksAdded (2 ^ bits) pixels.now weights.now formula (count_of pixels.now)
        sums.old sums.new)
        × (result ≡ pixel_fold ◌+ℤ◌ (pos 0) pixels.now (signed_by weights.now formula 65535)) }
{
    let mut total = 0;
    for pixel in pixels {
        let block = (pixel.value >> bits) as usize;
        let weight = formula.weigh(weights[pixel.guide.0 as usize]);
        sums[block] += weight;
        total += weight;
    }
    total
}

// The window's columns, one after the other; and what they weigh together.
pub fn add_window(
    file: &[u8],
    plan: Plan,
    weights: &[u16],
    formula: Formula,
    s: usize,
    t: usize,
    bits: u32,
    sums: &mut [i64],
) -> i64
    requires weighed { (Weighed file.now plan s t weights.now formula) × (Weighs (frame_of file.now) s t weights.now formula) }
    requires zeros { (Zeros sums.old) × (BlocksFit (2 ^ bits) plan.levels sums.old) × (bits < 16) }
    ensures { (Gathered (2 ^ bits) (frame_of file.now) s t sums.old sums.new)
        × (result ≡ balance_by (frame_of file.now) s t weights.now formula 65535) }
{
    let x = s.saturating_sub(plan.radius);
    let n = span_of(s, plan.radius, plan.width);
    let mut total = 0;
    for k in 0..n {
        let mut pixels = [Pixel::NONE; 31];
        let line = column_line(plan, x + k, t);
        let m = pixels::read(file, plan, line, &mut pixels);
        total += add_pixels(&pixels[..m], weights, formula, bits, sums);
    }
    total
}
