// The stores and the box made for a window, whatever they held. A plane given in place of the file's values has them; an empty one is none.
ghost use Rattle.spec.specs.Frame.{frame_with};
ghost use Rattle.spec.specs.Checks.{Pictured};
ghost use Rattle.joint.specs.Window.{JointAt, Fresh, Columns, Filled};

use crate::list;
use pixels::{Pixel, read_in};
use spec::{Level, Plan};
use window::line::{column_line, span_of};

// Adds n columns from column x of the windows of row t to stores and a box that hold no pixel.
pub fn fill(
    file: &[u8],
    plane: &[u16],
    plan: Plan,
    x: usize,
    n: usize,
    t: usize,
    cut: Level,
    balance_box: &mut [i16; 256],
    counts: &mut [u16],
    words: &mut [u64],
)
    requires pictured { (Pictured file.now plane.now plan) × (Columns plan x n t) }
    requires filled { Filled file.now plane.now plan x t cut.0 0 counts.old words.old counts.old words.old balance_box.old }
    ensures { Filled file.now plane.now plan x t cut.0 n counts.old words.old
        counts.new
        words.new balance_box.new }
{
    for k in 0..n {
        let mut pixels = [Pixel::NONE; 31];
        let line = column_line(plan, x + k, t);
        let m = read_in(file, plane, plan, line, &mut pixels);
        list::change_pixels(
            &pixels[..m],
            plan.guides,
            true,
            cut,
            balance_box,
            counts,
            words,
        );
    }
}

// The stores and the box of the window at (s, t), at the cut point.
pub fn build(
    file: &[u8],
    plane: &[u16],
    plan: Plan,
    s: usize,
    t: usize,
    cut: Level,
    balance_box: &mut [i16; 256],
    counts: &mut [u16],
    words: &mut [u64],
)
    requires { Fresh file.now plane.now plan s t counts.old words.old }
    ensures { JointAt (frame_with file.now plane.now) s t cut.0 counts.old words.old
        counts.new
        words.new balance_box.new }
{
    counts[..plan.levels * plan.guides].fill(0);
    words[..plan.levels * plan.guides.div_ceil(64)].fill(0);
    *balance_box = [0; 256];
    let x = s.saturating_sub(plan.radius);
    let n = span_of(s, plan.radius, plan.width);
    fill(file, plane, plan, x, n, t, cut, balance_box, counts, words);
}
