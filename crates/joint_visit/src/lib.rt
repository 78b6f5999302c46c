// Ways 1 and 4, joint and coarse, at a window of a walk: the stores made or moved, its answer, the cut point moved to it, and the shifts counted.
// The walk lends file, rows, box, stores and histogram, and hands the visit on; in kind 1 also a plane in place of the file's values, or an empty one
// for none. Way 4's box is the walk's own: kind 1 searches by it, and in kind 2, which has no use for it, it stays at level 0.
#![tactic(auto)]

ghost use Rattle.std.specs.Prelude.{◌≡◌};
ghost use Rattle.spec.specs.Frame.{frame_with};
ghost use Rattle.spec.specs.Walk.{by_blocks, arrive};
ghost use Rattle.window.specs.Line.{Adjacent};
ghost use Rattle.joint.specs.Window.{Fresh, Held};
ghost use Rattle.histogram.specs.Histogram.{Blank};
ghost use Rattle.joint_rows.specs.Rows.{WeightRows};
ghost use Rattle.visit.specs.Visit.{Within};
ghost use Rattle.joint_visit.specs.Visit.{PlaneServes, box_cut, JointWay, JointCarried, JointVisited};

use joint::{list, start as store_start};
use pixels::{Pixel, read_in, sums};
use spec::{Level, Plan, Way, by_blocks};
use visit::Visit;
use window::line;

// The level that the box is kept at, with the walk's cut point.
#[tactic(auto, unfolding(crate::specs::Visit::box_cut))]
pub fn box_cut(blocks: bool, kind: usize, cut: Level) -> Level
    ensures { result.0 ≡ box_cut blocks kind cut.0 }
{
    if kind == 2 && blocks { Level(0) } else { cut }
}

// A walk comes to its first window, whatever the stores and the box held.
pub fn enter(
    file: &[u8],
    plane: &[u16],
    plan: Plan,
    way: Way,
    weights: &[u16],
    column: usize,
    row: usize,
    balance_box: &mut [i16; 256],
    counts: &mut [u16],
    words: &mut [u64],
    histogram: &mut [u32],
) -> Visit
    requires fresh { (Fresh file.now plane.now plan column row counts.old words.old) × (Blank plan.levels histogram.old) }
    requires weight_rows { (WeightRows plan weights.now) × (JointWay way) × (PlaneServes plan plane.now) }
    ensures { JointVisited way (frame_with file.now plane.now)
        (arrive way (frame_with file.now plane.now) column row 0 0) result
        counts.old words.old counts.new words.new
        balance_box.new histogram.new }
{
    store_start::build(
        file,
        plane,
        plan,
        column,
        row,
        Level(0),
        balance_box,
        counts,
        words,
    );
    if plan.kind == 2 {
        if by_blocks(way) {
            return joint_guided::enter_by_blocks(file, plan, column, row, histogram);
        }
        return joint_guided::enter(
            file,
            plan,
            column,
            row,
            balance_box,
            counts,
            words,
            histogram,
        );
    }
    let a = sums::start(file, plan, column, row);
    joint_table::visit(
        file,
        plane,
        plan,
        way,
        weights,
        column,
        row,
        a.count,
        Level(0),
        0,
        balance_box,
        counts,
        words,
    )
}

// It goes on to the neighbouring window at (column, row).
pub fn slide(
    file: &[u8],
    plane: &[u16],
    plan: Plan,
    way: Way,
    weights: &[u16],
    from: Visit,
    column: usize,
    row: usize,
    balance_box: &mut [i16; 256],
    counts: &mut [u16],
    words: &mut [u64],
    histogram: &mut [u32],
) -> Visit
    requires held { (Held file.now plane.now plan from.column from.row (box_cut (by_blocks way) plan.kind from.cut.0)
        counts.old words.old balance_box.old) × (Adjacent plan from.column from.row column row)
        × (JointCarried (frame_with file.now plane.now) from.column from.row from.cut.0 from.running.sums from.running.below
        histogram.old) }
    requires weight_rows { (WeightRows plan weights.now) × (Within plan from) × (JointWay way) × (PlaneServes plan plane.now) }
    ensures { JointVisited way (frame_with file.now plane.now)
        (arrive way (frame_with file.now plane.now) column row from.cut.0 from.shifts) result
        counts.old words.old counts.new words.new balance_box.new histogram.new }
{
    let step = line::step_to(plan, from.column, from.row, column, row);
    let mut entering = [Pixel::NONE; 31];
    let mut leaving = [Pixel::NONE; 31];
    let n = read_in(file, plane, plan, step.entering, &mut entering);
    let k = read_in(file, plane, plan, step.leaving, &mut leaving);
    let entering = &entering[..n];
    let leaving = &leaving[..k];
    let blocks = by_blocks(way);
    let kept = box_cut(blocks, plan.kind, from.cut);
    list::exchange(
        entering,
        leaving,
        plan.guides,
        kept,
        balance_box,
        counts,
        words,
    );
    if plan.kind == 2 {
        let a = sums::moved(from.running.sums, entering, leaving);
        histogram::exchange(entering, leaving, plan.levels, histogram);
        if blocks {
            return joint_guided::arrive_by_blocks(
                file,
                plan,
                a,
                column,
                row,
                from.cut,
                from.shifts,
                histogram,
            );
        }
        return joint_guided::arrive(
            file,
            plan,
            a,
            from.running.below,
            entering,
            leaving,
            column,
            row,
            from.cut,
            from.shifts,
            balance_box,
            counts,
            words,
            histogram,
        );
    }
    let count = from.running.sums.count + n - k;
    joint_table::visit(
        file,
        plane,
        plan,
        way,
        weights,
        column,
        row,
        count,
        from.cut,
        from.shifts,
        balance_box,
        counts,
        words,
    )
}
