// Document 01's balance of a window at any level, 2U(i) - T, from the file alone: no stores, one pass over the window's pixels in 64 bits.
#![tactic(auto)]

pub mod formula;

ghost use Rattle.std.specs.Prelude.{◌≡◌, false, ◌<◌, eqb, pos, ◌+ℤ◌, length};
ghost use Rattle.spec.specs.Frame.{frame_of};
ghost use Rattle.spec.specs.Checks.{Planned};
ghost use Rattle.spec.specs.Window.{empty};
ghost use Rattle.spec.specs.Weight.{weightless};
ghost use Rattle.spec.specs.Median.{balance};
ghost use Rattle.window.specs.Sums.{SumsAt};
ghost use Rattle.pixels.specs.Pixels.{pixel_fold};
ghost use Rattle.joint_search.specs.Window.{RowOwn, RowWeighs};
ghost use Rattle.joint_rows.specs.Rows.{TableRow};
ghost use Rattle.balance.specs.Formula.{Weighs};
ghost use Rattle.balance.specs.Balance.{signed_by, balance_by, PixelsWeighed, Weighed};

use formula::Formula;
use joint_rows::table;
use pixels::{Pixel, sums};
use spec::{Guide, Level, Plan};
use window::line::{column_line, span_of};
use window::pixel;
use window::sums::Sums;
use window_weights::coefficients;

// Whether a window with these sums has no reading (document 02).
pub fn is_empty(a: Sums) -> bool
    ensures { result ≡ eqb a.count 0 }
{
    a.count == 0
}

// What a list's pixels add: each its weight, taken off where its level is above the given one.
pub fn line_balance(pixels: &[Pixel], weights: &[u16], formula: Formula, top: Level) -> i64
    requires { PixelsWeighed pixels.now weights.now formula }
    ensures { result ≡ pixel_fold ◌+ℤ◌ (pos 0) pixels.now (signed_by weights.now formula top.0) }
{
    let mut sum = 0;
    for pixel in pixels {
        let weight = formula.weigh(weights[pixel.guide.0 as usize]);
        if pixel.level() <= top {
            sum += weight;
        } else {
            sum -= weight;
        }
    }
    sum
}

// The window's columns, one after the other, by a row of weights.
pub fn window_balance(
    file: &[u8],
    plan: Plan,
    weights: &[u16],
    formula: Formula,
    s: usize,
    t: usize,
    top: Level,
) -> i64
    requires { Weighed file.now plan s t weights.now formula }
    ensures { result ≡ balance_by (frame_of file.now) s t weights.now formula top.0 }
{
    let x = s.saturating_sub(plan.radius);
    let n = span_of(s, plan.radius, plan.width);
    let mut sum = 0;
    for k in 0..n {
        let mut pixels = [Pixel::NONE; 31];
        let line = column_line(plan, x + k, t);
        let m = pixels::read(file, plan, line, &mut pixels);
        sum += line_balance(&pixels[..m], weights, formula, top);
    }
    sum
}

// The table's row of the centre's guide.
pub fn table_row(file: &[u8], plan: Plan, f: Guide, row: &mut [u16; 256])
    requires { (Planned file.now plan) × (f.0 < plan.guides) }
    ensures { TableRow (frame_of file.now) plan.guides f.0 row.new }
{
    let built = frame_weights::constants();
    for (k, weight) in row[..plan.guides].iter_mut().enumerate() {
        *weight = table::weight_at(&built, file, plan, f, Guide(k as u16));
    }
}

// A row of the window's own weights turned into ones where their sum over the window is 0 (document 01: hollow), because each pixel is counted as 1
// there (document 02); and whether it is. There is a reading: without one that sum is 0 too. The built-in weights are above 0.
pub fn ones_if_hollow(file: &[u8], plan: Plan, s: usize, t: usize, row: &mut [u16; 256]) -> bool
    requires planned { (Planned file.now plan) × (plan.kind ≡ 1) × (s < plan.width) × (t < plan.height) }
    requires row_own { (RowOwn (frame_of file.now) s t row.old) × (empty (frame_of file.now) s t ≡ false) }
    ensures { (result ≡ weightless (frame_of file.now) s t)
        × (RowWeighs (frame_of file.now) s t row.new) × (length row.new ≡ 256) }
{
    if plan.weights == 0 {
        return false;
    }
    let last = Level((plan.levels - 1) as u16);
    let total = window_balance(file, plan, row, Formula::TABLE, s, t, last);
    if total != 0 {
        return false;
    }
    *row = [1; 256];
    true
}

// Kind 1. The own weights of a hollow window balance at every level, so that only there the window is looked at once more.
pub fn table_balance(file: &[u8], plan: Plan, s: usize, t: usize, top: Level) -> i64
    requires planned { (Planned file.now plan) × (plan.kind ≡ 1) × (s < plan.width) × (t < plan.height) }
    requires t_value { empty (frame_of file.now) s t ≡ false }
    ensures { result ≡ balance (frame_of file.now) s t top.0 }
{
    let centre = pixel::guide_at(file, plan, t * plan.width + s);
    let mut row = [0; 256];
    table_row(file, plan, centre, &mut row);
    let own = window_balance(file, plan, &row, Formula::TABLE, s, t, top);
    if own == 0 && ones_if_hollow(file, plan, s, t, &mut row) {
        return window_balance(file, plan, &row, Formula::TABLE, s, t, top);
    }
    own
}

// Kind 2, of the window whose sums are a: the numbers 0 1 2 .. in the row, and the window's two coefficients.
pub fn guided_formula(
    file: &[u8],
    plan: Plan,
    a: Sums,
    s: usize,
    t: usize,
    row: &mut [u16; 256],
) -> Formula
    requires planned { (Planned file.now plan) × (plan.kind ≡ 2) × (s < plan.width) × (t < plan.height) }
    requires sums_at { SumsAt (frame_of file.now) s t a }
    ensures { (Weighs (frame_of file.now) s t row.new result) × (length row.new ≡ 256) }
{
    let coefficients = coefficients::of_window(file, plan, a, s, t);
    formula::ramp(row, plan.guides);
    Formula {
        slope: coefficients.slope,
        offset: coefficients.offset,
    }
}

pub fn guided_balance(file: &[u8], plan: Plan, a: Sums, s: usize, t: usize, top: Level) -> i64
    requires planned { (Planned file.now plan) × (plan.kind ≡ 2) × (s < plan.width) × (t < plan.height) }
    requires sums_at { SumsAt (frame_of file.now) s t a }
    ensures { result ≡ balance (frame_of file.now) s t top.0 }
{
    let mut row = [0; 256];
    let formula = guided_formula(file, plan, a, s, t, &mut row);
    window_balance(file, plan, &row, formula, s, t, top)
}

// The balance of the window at (s, t), at a level: 0 where it has no reading.
pub fn balance_at(file: &[u8], plan: Plan, s: usize, t: usize, top: Level) -> i64
    requires { (Planned file.now plan) × (s < plan.width) × (t < plan.height) }
    ensures { result ≡ balance (frame_of file.now) s t top.0 }
{
    let a = sums::start(file, plan, s, t);
    if is_empty(a) {
        return 0;
    }
    if plan.kind == 2 {
        return guided_balance(file, plan, a, s, t, top);
    }
    table_balance(file, plan, s, t, top)
}
