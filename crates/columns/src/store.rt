// The column store: its start, and its moves. Its length is store_size; what lies beyond stays as it was.
ghost use Rattle.std.specs.Prelude.{◌≡◌, ◌++◌, ℕ, ◌+◌, ◌*◌, ◌<◌, ◌≤◌, length, drop};
ghost use Rattle.std.specs.Option.{ForSome};
ghost use Rattle.spec.specs.Checks.{Planned};
ghost use Rattle.spec.specs.Columns.{column_store};
ghost use Rattle.spec.specs.Frame.{frame_of};
ghost use Rattle.window.specs.Line.{Adjacent};
ghost use Rattle.columns.specs.Blocks.{Put, Able, Swap, BlockReady, Neighbours, InWidth, SideReady};
ghost use Rattle.columns.specs.Blocks.{block, cell_of, pixel_d, strip_d, row_d, pair_d, when_some, guides_of, exchange_of, blocks_size};

use pixels::store::change;
use spec::{NO_READING, Plan};
use window::{line, pixel};

// Which column or row enters and which one leaves as the centre moves by one, where it is in the picture.
#[derive(Clone, Copy)]
pub struct Exchange {
    pub entering: Option<usize>,
    pub leaving: Option<usize>,
}

// One pixel, into or out of the counts of block a and the guide sums of block b; a dead one is passed over.
pub fn count_pixel(
    file: &[u8],
    plan: Plan,
    blocks: &mut [u32],
    a: usize,
    b: usize,
    x: usize,
    y: usize,
    add: bool,
)
    requires planned { Planned file.now plan }
    requires x_lt_width { (x < plan.width) × (y < plan.height) }
    requires a_bound { (a < 2 * plan.width + 2) × (b < 2 * plan.width + 2)
        × (2 * (plan.width * plan.levels) + 2 * plan.levels ≤ length blocks.old) }
    requires able { Able add plan.levels (pixel_d (frame_of file.now) a b x y) blocks.old }
    ensures { Put add plan.levels (pixel_d (frame_of file.now) a b x y) blocks.old blocks.new }
{
    let l = plan.levels;
    let q = y * plan.width + x;
    let value = pixel::value_at(file, plan, q);
    if value == NO_READING {
        return;
    }
    let g = pixel::guide_at(file, plan, q);
    let at = usize::from(value);
    change(blocks, a * l + at, 1, add);
    change(blocks, b * l + at, u32::from(g.0), add);
}

// Some pixels of row y, into or out of the blocks that lie so far apart from column to column.
pub fn count_strip(
    file: &[u8],
    plan: Plan,
    blocks: &mut [u32],
    y: usize,
    a: usize,
    b: usize,
    apart: usize,
    first: usize,
    count: usize,
    add: bool,
)
    requires planned { Planned file.now plan }
    requires y_lt_height { (y < plan.height) × (first + count ≤ plan.width)
        × (2 * (plan.width * plan.levels) + 2 * plan.levels ≤ length blocks.old) }
    requires by_index { (x : ℕ) → x < plan.width → (a + x * apart < 2 * plan.width + 2) × (b + x * apart < 2 * plan.width + 2) }
    requires able { Able add plan.levels (strip_d (frame_of file.now) y a b apart first count) blocks.old }
    ensures { Put add plan.levels (strip_d (frame_of file.now) y a b apart first count) blocks.old
        blocks.new }
{
    for x in first..first + count {
        let step = x * apart;
        count_pixel(file, plan, blocks, a + step, b + step, x, y, add);
    }
}

// Row y, into or out of the store of a window at column s.
pub fn count_row(file: &[u8], plan: Plan, blocks: &mut [u32], s: usize, y: usize, add: bool)
    requires planned { Planned file.now plan }
    requires s_lt_width { (s < plan.width) × (y < plan.height) × (2 * (plan.width * plan.levels) + 2 * plan.levels ≤ length blocks.old) }
    requires able { Able add plan.levels (row_d (frame_of file.now) s y) blocks.old }
    ensures { Put add plan.levels (row_d (frame_of file.now) s y) blocks.old blocks.new }
{
    let w = plan.width;
    let left = s.saturating_sub(plan.radius);
    let columns = line::span_of(s, plan.radius, w);
    count_strip(file, plan, blocks, y, 0, w, 1, 0, w, add);
    count_strip(
        file,
        plan,
        blocks,
        y,
        2 * w,
        2 * w + 1,
        0,
        left,
        columns,
        add,
    );
}

// The store of the window at (s, t), whatever was there before.
pub fn start(file: &[u8], plan: Plan, blocks: &mut [u32], s: usize, t: usize)
    requires planned { Planned file.now plan }
    requires s_lt_width { (s < plan.width) × (t < plan.height) × (blocks_size (frame_of file.now) ≤ length blocks.old) }
    ensures { blocks.new ≡ column_store (frame_of file.now) s t
        ++ drop (blocks_size (frame_of file.now)) blocks.old }
{
    let n = 2 * (plan.width * plan.levels) + 2 * plan.levels;
    blocks[..n].fill(0);
    let top = t.saturating_sub(plan.radius);
    let rows = line::span_of(t, plan.radius, plan.height);
    for y in top..top + rows {
        count_row(file, plan, blocks, s, y, true);
    }
}

// The centre goes from c to the neighbour c2 among size columns or rows.
pub fn exchange_of(c: usize, c2: usize, r: usize, size: usize) -> Exchange
    requires { (c < size) × (c2 < size) × (size ≤ 1024) × (r ≤ 15) }
    ensures { result ≡ exchange_of c c2 r size }
{
    let first = c.min(c2);
    let before = first.checked_sub(r);
    let after = first + r + 1;
    let after = (after < size).then_some(after);
    if c < c2 {
        Exchange {
            entering: after,
            leaving: before,
        }
    } else {
        Exchange {
            entering: before,
            leaving: after,
        }
    }
}

// Row y, if there is one.
pub fn count_row_if(
    file: &[u8],
    plan: Plan,
    blocks: &mut [u32],
    s: usize,
    y: Option<usize>,
    add: bool,
)
    requires planned { Planned file.now plan }
    requires s_lt_width { (s < plan.width) × (ForSome y (λ y. y < plan.height))
        × (2 * (plan.width * plan.levels) + 2 * plan.levels ≤ length blocks.old) }
    requires able { Able add plan.levels (λ m i. when_some y (λ y. row_d (frame_of file.now) s y m i)) blocks.old }
    ensures { Put add plan.levels (λ m i. when_some y (λ y. row_d (frame_of file.now) s y m i)) blocks.old
        blocks.new }
{
    if let Some(y) = y {
        count_row(file, plan, blocks, s, y, add);
    }
}

// From row t to the neighbour t2: one row in, one row out.
pub fn vertical(file: &[u8], plan: Plan, blocks: &mut [u32], s: usize, t: usize, t2: usize)
    requires planned { Planned file.now plan }
    requires s_lt_width { (s < plan.width) × Neighbours t t2 plan.height }
    requires blocks_value { blocks.old ≡ column_store (frame_of file.now) s t ++ drop (blocks_size (frame_of file.now)) blocks.old }
    ensures { blocks.new ≡ column_store (frame_of file.now) s t2
        ++ drop (blocks_size (frame_of file.now)) blocks.old }
{
    let d = exchange_of(t, t2, plan.radius, plan.height);
    count_row_if(file, plan, blocks, s, d.entering, true);
    count_row_if(file, plan, blocks, s, d.leaving, false);
}

// Number i of a block of l numbers, or 0 where there is no block.
pub fn pick(blocks: &[u32], l: usize, block: Option<usize>, i: usize) -> u32
    requires { ForSome block (λ m. m * l + i < length blocks.now) }
    ensures { result ≡ cell_of l block blocks.now i }
{
    block.map_or(0, |m| blocks[m * l + i])
}

// Block at gains block more and loses block less, where there are such, in one pass over the levels. Whether there are is the same at each level, so
// that the compiler can test it outside the loop.
pub fn update_block(
    blocks: &mut [u32],
    l: usize,
    at: usize,
    more: Option<usize>,
    less: Option<usize>,
)
    requires l_bound { (l ≤ 1024) × (at ≤ 4096) × (at * l + l ≤ length blocks.old) }
    requires more_lt_at { (ForSome more (λ m. m < at)) × (ForSome less (λ m. m < at)) }
    requires block_ready { BlockReady l at (cell_of l more blocks.old) (cell_of l less blocks.old) blocks.old }
    ensures { Swap l (block at (cell_of l more blocks.old)) (block at (cell_of l less blocks.old))
        blocks.old blocks.new }
{
    let first = at * l;
    for i in 0..l {
        let u = pick(blocks, l, more, i);
        let v = pick(blocks, l, less, i);
        blocks[first + i] = blocks[first + i] + u - v;
    }
}

// The block of a column's guide sums, if there is one.
fn guides_of(w: usize, column: Option<usize>) -> Option<usize>
    requires { (w ≤ 1024) × ForSome column (λ x. x < w) }
    ensures { result ≡ guides_of w column }
{
    column.map(|x| w + x)
}

// The window's two blocks gain the column that enters and lose the one that leaves; the columns stay. No pixel is read.
pub fn sideways(blocks: &mut [u32], w: usize, l: usize, d: Exchange)
    requires w_bound { (w ≤ 1024) × (l ≤ 1024) × (2 * (w * l) + 2 * l ≤ length blocks.old) × (InWidth w d) }
    requires side_ready { SideReady w l d blocks.old }
    ensures { Swap l (pair_d w l d.entering blocks.old) (pair_d w l d.leaving blocks.old)
        blocks.old blocks.new }
{
    update_block(blocks, l, 2 * w, d.entering, d.leaving);
    let entering = guides_of(w, d.entering);
    let leaving = guides_of(w, d.leaving);
    update_block(blocks, l, 2 * w + 1, entering, leaving);
}

// From (s, t) to the neighbour (s2, t2).
pub fn slide(file: &[u8], plan: Plan, blocks: &mut [u32], s: usize, t: usize, s2: usize, t2: usize)
    requires planned { Planned file.now plan }
    requires adjacent { Adjacent plan s t s2 t2 }
    requires blocks_value { blocks.old ≡ column_store (frame_of file.now) s t ++ drop (blocks_size (frame_of file.now)) blocks.old }
    ensures { blocks.new ≡ column_store (frame_of file.now) s2 t2
        ++ drop (blocks_size (frame_of file.now)) blocks.old }
{
    if s == s2 {
        vertical(file, plan, blocks, s, t, t2);
    } else {
        let d = exchange_of(s, s2, plan.radius, plan.width);
        sideways(blocks, plan.width, plan.levels, d);
    }
}
