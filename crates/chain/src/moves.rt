// The list of a window: made at a start, whatever the store held, and carried to a neighbour by one line out and one line in. The line goes out
// first, so that a node is free for each level that comes in.
ghost use Rattle.std.specs.Prelude.{◌<◌, ◌≤◌, length};
ghost use Rattle.spec.specs.Checks.{Planned};
ghost use Rattle.chain.specs.Moves.{store_size, Stored, Slides, Slid};

use crate::line::{merge_line, node_count};
use chain_list::clear;
use chain_nodes::FreeList;
use pixels::{Pixel, read};
use spec::Plan;
use window::line;

// The list of the window at (s, t), column by column.
pub fn start(file: &[u8], plan: Plan, s: usize, t: usize, nodes: &mut [u32]) -> FreeList
    requires planned { Planned file.now plan }
    requires s_lt_width { (s < plan.width) × (t < plan.height) }
    requires file_in_bounds { store_size file.now ≤ length nodes.old }
    ensures { Stored file.now plan s t nodes.old result nodes.new }
{
    let cap = node_count(plan);
    let left = s.saturating_sub(plan.radius);
    let columns = line::span_of(s, plan.radius, plan.width);
    let mut free = clear(nodes, cap);
    for k in 0..columns {
        let mut pixels = [Pixel::NONE; 31];
        let column = line::column_line(plan, left + k, t);
        let n = read(file, plan, column, &mut pixels);
        free = merge_line(&pixels[..n], free, true, nodes);
    }
    free
}

// From a window to its neighbour: the leaving pixels out, then the entering ones in.
pub fn slide(entering: &[Pixel], leaving: &[Pixel], free: FreeList, nodes: &mut [u32]) -> FreeList
    requires { Slides entering.now leaving.now free nodes.old }
    ensures { Slid entering.now leaving.now free nodes.old result nodes.new }
{
    let kept = merge_line(leaving, free, false, nodes);
    merge_line(entering, kept, true, nodes)
}
