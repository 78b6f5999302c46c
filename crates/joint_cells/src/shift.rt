// The cut point moved by one level: the level's pixels change sides in the box, guide by guide.
ghost use Rattle.std.specs.Prelude.{◌≡◌, ◌≤◌, pos, nat_abs, ◌+ℤ◌, ◌*ℤ◌};
ghost use Rattle.joint_cells.specs.Scan.{Marked};
ghost use Rattle.joint_cells.specs.Box.{BoxInBounds, CountsAdded};

use crate::scan::Occupied;
use spec::Level;

// x and by times n.
pub fn plus_times(x: i16, by: i16, n: u16) -> i16
    requires { (nat_abs x ≤ 961) × (nat_abs by ≤ 2) × (n ≤ 961) }
    ensures { result ≡ x +ℤ by *ℤ pos n }
{
    x + by * n as i16
}

// By times the level's counts more, in each guide's cell: 2 as the cut point comes up to the level, -2 as it goes below.
pub fn shift_level(
    level: Level,
    m: usize,
    by: i16,
    balance_box: &mut [i16; 256],
    counts: &[u16],
    words: &[u64],
)
    requires marked { Marked m level.0 counts.now words.now }
    requires by_bound { (nat_abs by ≤ 2) × (BoxInBounds balance_box.old) }
    ensures { CountsAdded m level.0 by counts.now m balance_box.old balance_box.new }
{
    let base = level.0 as usize * m;
    for g in Occupied::of(level, m, words) {
        let g = g.0 as usize;
        balance_box[g] = plus_times(balance_box[g], by, counts[base + g]);
    }
}
