// What a level weighs, by stepping through its occupied guides.
ghost use Rattle.std.specs.Prelude.{◌≡◌, pos};
ghost use Rattle.joint_cells.specs.Scan.{Marked, RowFits, cell_dot};

use crate::scan::Occupied;
use spec::Level;

// By a row of weights; m is the number of guides. Signed, because balances are.
pub fn level_weight(row: &[u16], level: Level, m: usize, counts: &[u16], words: &[u64]) -> i32
    requires { (Marked m level.0 counts.now words.now) × (RowFits m row.now) }
    ensures { result ≡ pos (cell_dot m level.0 counts.now row.now m) }
{
    let base = level.0 as usize * m;
    let mut dot: u32 = 0;
    for g in Occupied::of(level, m, words) {
        let g = g.0 as usize;
        dot += counts[base + g] as u32 * row[g] as u32;
    }
    dot as i32
}
