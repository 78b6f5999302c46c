// The count and the guide sum of the window's pixels below a level, carried over a move by the pixels that leave and enter.
ghost use Rattle.std.specs.Prelude.{◌≡◌, true};
ghost use Rattle.pixels.specs.Pixels.{count_of, PixelsBelow};
ghost use Rattle.levels.specs.ListTally.{ListTally, Carriable, CarriedBy};

use level_search::Tally;
use pixels::Pixel;

// Of a list's pixels. Each adds to both sums, if only 0: with no branch the compiler takes two at a time.
pub fn list_tally(pixels: &[Pixel], end: usize) -> Tally
    requires { PixelsBelow 1024 256 pixels.now }
    ensures { ListTally pixels.now end (count_of pixels.now) result }
{
    let mut count = 0;
    let mut sum = 0;
    for pixel in pixels {
        let guide = pixel.guide.0 as usize;
        let below = (pixel.value as usize) < end;
        count += if below { 1 } else { 0 };
        sum += if below { guide } else { 0 };
    }
    Tally { count, sum }
}

// After a step: one list in, one list out.
pub fn carried(a: Tally, entering: &[Pixel], leaving: &[Pixel], end: usize) -> Tally
    requires pixels_below { (PixelsBelow 1024 256 entering.now) × (PixelsBelow 1024 256 leaving.now) }
    requires carriable { Carriable entering.now leaving.now end a }
    ensures { CarriedBy entering.now leaving.now end a result }
{
    let less = list_tally(leaving, end);
    let more = list_tally(entering, end);
    Tally {
        count: a.count + more.count - less.count,
        sum: a.sum + more.sum - less.sum,
    }
}

// After a step where that is asked for, else as it was: only a monotone window needs its tally.
pub fn carried_where(
    asked: bool,
    a: Tally,
    entering: &[Pixel],
    leaving: &[Pixel],
    end: usize,
) -> Tally
    requires pixels_below { (PixelsBelow 1024 256 entering.now) × (PixelsBelow 1024 256 leaving.now) }
    requires carriable { Carriable entering.now leaving.now end a }
    ensures { asked ≡ true → CarriedBy entering.now leaving.now end a result }
{
    if asked {
        carried(a, entering, leaving, end)
    } else {
        a
    }
}
