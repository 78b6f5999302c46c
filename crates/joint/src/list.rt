// A list of pixels that enters the window or leaves it: counts and occupancy words, and the balance box at the cut point. One loop does both,
// because a move in kind 2 takes 3 % longer with two.
ghost use Rattle.std.specs.Prelude.{◌+◌};
ghost use Rattle.pixels.specs.Pixels.{count_of};
ghost use Rattle.joint.specs.List.{Countable, BoxRoom, CountsPassed, BoxPassed, Exchangeable, CountsExchanged, BoxExchanged};

use joint_pixel::cell;
use joint_pixel::side::side_changed;
use pixels::Pixel;
use spec::Level;

// Counts, words and box; m is the number of guides.
pub fn change_pixels(
    pixels: &[Pixel],
    m: usize,
    enters: bool,
    cut: Level,
    balance_box: &mut [i16; 256],
    counts: &mut [u16],
    words: &mut [u64],
)
    requires { (Countable enters m pixels.now counts.old words.old) × (BoxRoom (count_of pixels.now) balance_box.old) }
    ensures counts_passed { (a : Countable enters m pixels.now counts.old words.old)
        → CountsPassed enters a.levels m pixels.now (count_of pixels.now) counts.old words.old counts.new words.new }
    ensures box_passed { BoxPassed enters cut.0 pixels.now (count_of pixels.now)
        balance_box.old balance_box.new }
{
    for pixel in pixels {
        let level = pixel.level();
        cell::change_pixel(level, pixel.guide, m, enters, counts, words);
        let f = pixel.guide.0 as usize;
        balance_box[f] = side_changed(balance_box[f], level, cut, enters);
    }
}

// One list in, another out. The entering one goes in first, so that no cell lacks what it is to lose.
pub fn exchange(
    entering: &[Pixel],
    leaving: &[Pixel],
    m: usize,
    cut: Level,
    balance_box: &mut [i16; 256],
    counts: &mut [u16],
    words: &mut [u64],
)
    requires { (Exchangeable m entering.now leaving.now counts.old words.old) × (BoxRoom (count_of entering.now + count_of
        leaving.now) balance_box.old) }
    ensures counts_exchanged { (a : Exchangeable m entering.now leaving.now counts.old words.old)
        → CountsExchanged a.entering.levels m entering.now leaving.now counts.old words.old counts.new words.new }
    ensures box_exchanged { BoxExchanged cut.0 entering.now leaving.now balance_box.old balance_box.new }
{
    change_pixels(entering, m, true, cut, balance_box, counts, words);
    change_pixels(leaving, m, false, cut, balance_box, counts, words);
}
