// The window's histogram of levels, with guide sums: for l levels, place i of a list is level i's count and place l + i its guide sum. Way 1 keeps
// it beside its store in kind 2, where a level's weight takes no more than these two numbers.
#![tactic(auto)]

ghost use Rattle.std.specs.Prelude.{◌+◌, ◌<◌, ◌≤◌, length, get_or};
ghost use Rattle.spec.specs.Frame.{frame_of};
ghost use Rattle.spec.specs.Checks.{Planned};
ghost use Rattle.pixels.specs.Pixels.{count_of, PixelsBelow};
ghost use Rattle.pixels.specs.Additive.{changed, Fits, PassedTo, Exchanged, SharesExchangeable};
ghost use Rattle.histogram.specs.Places.{share_at, number_at, RoomFor};
ghost use Rattle.histogram.specs.Histogram.{Changed, Blank, Histogram};

use pixels::store::change;
use pixels::{Pixel, read};
use spec::{Guide, Level, Plan};
use window::line::{column_line, span_of};

// A pixel that enters the window or leaves it.
pub fn change_pixel(histogram: &mut [u32], l: usize, level: Level, guide: Guide, enters: bool)
    requires level_lt_l { (level.0 < l) × (l ≤ 1024) × (l + l ≤ length histogram.old) }
    requires fits { (Fits 4294967296 enters (get_or histogram.old level.0 0) 1) × (Fits 4294967296 enters (get_or histogram.old (l + level.0) 0)
        guide.0) }
    ensures { Changed enters l level.0 guide.0 histogram.old histogram.new }
{
    let i = level.0 as usize;
    let g = guide.0 as u32;
    change(histogram, i, 1, enters);
    change(histogram, l + i, g, enters);
}

// A list's pixels enter the window, or leave it; l is the number of levels.
pub fn change_pixels(pixels: &[Pixel], l: usize, enters: bool, histogram: &mut [u32])
    requires l_bound { (l ≤ 1024) × (l + l ≤ length histogram.old) × (PixelsBelow l 256 pixels.now) }
    requires room_for { RoomFor enters l pixels.now histogram.old }
    ensures { PassedTo ◌+◌ 0 (share_at l) changed enters pixels.now (count_of pixels.now) (number_at l histogram.old)
        (number_at l histogram.new) }
{
    for pixel in pixels {
        change_pixel(histogram, l, pixel.level(), pixel.guide, enters);
    }
}

// One list in, another out. The entering one goes in first, so that no number lacks what it is to lose.
pub fn exchange(entering: &[Pixel], leaving: &[Pixel], l: usize, histogram: &mut [u32])
    requires l_bound { (l ≤ 1024) × (l + l ≤ length histogram.old) × (PixelsBelow l 256 entering.now) × (PixelsBelow l 256 leaving.now) }
    requires shares_exchangeable { SharesExchangeable (share_at l) 4294967296 entering.now leaving.now (number_at l histogram.old) }
    ensures { Exchanged ◌+◌ 0 (share_at l) entering.now leaving.now (number_at l histogram.old)
        (number_at l histogram.new) }
{
    change_pixels(entering, l, true, histogram);
    change_pixels(leaving, l, false, histogram);
}

// Of the window at (s, t), in a histogram that is all 0.
pub fn start(file: &[u8], plan: Plan, s: usize, t: usize, histogram: &mut [u32])
    requires planned { (Planned file.now plan) × (s < plan.width) × (t < plan.height) }
    requires blank { Blank plan.levels histogram.old }
    ensures { Histogram (frame_of file.now) s t histogram.new }
{
    let x = s.saturating_sub(plan.radius);
    for k in 0..span_of(s, plan.radius, plan.width) {
        let mut pixels = [Pixel::NONE; 31];
        let line = column_line(plan, x + k, t);
        let m = read(file, plan, line, &mut pixels);
        change_pixels(&pixels[..m], plan.levels, true, histogram);
    }
}
