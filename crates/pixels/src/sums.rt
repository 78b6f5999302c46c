// Document 01's n, S and Q of a list's pixels, of a window by the lists of its columns, and over a step: one list in, one list out.
ghost use Rattle.std.specs.Prelude.{◌<◌};
ghost use Rattle.spec.specs.Checks.{Planned};
ghost use Rattle.spec.specs.Frame.{frame_of};
ghost use Rattle.window.specs.Sums.{SumsAt};
ghost use Rattle.pixels.specs.Pixels.{count_of, PixelsBelow};
ghost use Rattle.pixels.specs.Sums.{ListSums, MovableByLists, MovedByLists};

use crate::{Pixel, read};
use spec::Plan;
use window::line::{column_line, span_of};
use window::sums::Sums;

// Of a list's pixels.
pub fn list_sums(pixels: &[Pixel]) -> Sums
    requires { PixelsBelow 1024 256 pixels.now }
    ensures { ListSums pixels.now (count_of pixels.now) result }
{
    let mut sum: usize = 0;
    let mut squares: usize = 0;
    for pixel in pixels {
        let guide = pixel.guide.0 as usize;
        sum += guide;
        squares += guide * guide;
    }
    Sums {
        count: pixels.len(),
        sum,
        squares,
    }
}

// Of the window at (s, t), from nothing.
pub fn start(file: &[u8], plan: Plan, s: usize, t: usize) -> Sums
    requires planned { Planned file.now plan }
    requires s_lt_width { (s < plan.width) × (t < plan.height) }
    ensures { SumsAt (frame_of file.now) s t result }
{
    let x = s.saturating_sub(plan.radius);
    let n = span_of(s, plan.radius, plan.width);
    let mut count: usize = 0;
    let mut sum: usize = 0;
    let mut squares: usize = 0;
    for k in 0..n {
        let mut pixels = [Pixel::NONE; 31];
        let line = column_line(plan, x + k, t);
        let m = read(file, plan, line, &mut pixels);
        let a = list_sums(&pixels[..m]);
        count += a.count;
        sum += a.sum;
        squares += a.squares;
    }
    Sums {
        count,
        sum,
        squares,
    }
}

// After a step.
pub fn moved(a: Sums, entering: &[Pixel], leaving: &[Pixel]) -> Sums
    requires pixels_below { (PixelsBelow 1024 256 entering.now) × (PixelsBelow 1024 256 leaving.now) }
    requires movable_by_lists { MovableByLists entering.now leaving.now a }
    ensures { MovedByLists entering.now leaving.now a result }
{
    let less = list_sums(leaving);
    let more = list_sums(entering);
    Sums {
        count: a.count + more.count - less.count,
        sum: a.sum + more.sum - less.sum,
        squares: a.squares + more.squares - less.squares,
    }
}
