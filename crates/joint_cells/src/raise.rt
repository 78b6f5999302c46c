// A level that a search passes on its way up: what it weighs, and the cut point moved to it, in one pass over its occupied guides. In two passes the
// processor would guess twice how many there are.
ghost use Rattle.std.specs.Prelude.{◌≡◌, pos};
ghost use Rattle.joint_cells.specs.Scan.{Marked, RowFits, cell_dot};
ghost use Rattle.joint_cells.specs.Box.{BoxInBounds, CountsAdded};

use crate::scan::Occupied;
use crate::shift::plus_times;
use spec::Level;

// `level_weight`, and `shift_level` by 2.
pub fn raise_level(
    row: &[u16],
    level: Level,
    m: usize,
    balance_box: &mut [i16; 256],
    counts: &[u16],
    words: &[u64],
) -> i32
    requires { (Marked m level.0 counts.now words.now) × (RowFits m row.now) × (BoxInBounds balance_box.old) }
    ensures { (result ≡ pos (cell_dot m level.0 counts.now row.now m))
        × (CountsAdded m level.0 (pos 2) counts.now m balance_box.old balance_box.new) }
{
    let base = level.0 as usize * m;
    let mut dot: u32 = 0;
    for g in Occupied::of(level, m, words) {
        let g = g.0 as usize;
        let n = counts[base + g];
        balance_box[g] = plus_times(balance_box[g], 2, n);
        dot += n as u32 * row[g] as u32;
    }
    dot as i32
}
