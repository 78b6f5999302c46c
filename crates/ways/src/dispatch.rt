// Start and move by the way. For way 1 in kind 1 a plane may be given in place of the file's values; an empty one is none.
ghost use Rattle.std.specs.Prelude.{◌≡◌, ℕ, ◌<◌};
ghost use Rattle.spec.specs.Frame.{frame_with, settings_in};
ghost use Rattle.spec.specs.Checks.{Pictured};
ghost use Rattle.spec.specs.Walk.{arrive};
ghost use Rattle.spec.specs.Calls.{zeros};
ghost use Rattle.window.specs.Line.{Adjacent};
ghost use Rattle.histogram.specs.Histogram.{Blank};
ghost use Rattle.joint_rows.specs.Rows.{WeightRows};
ghost use Rattle.visit.specs.Visit.{Within};
ghost use Rattle.ways.specs.Visit.{stores, StoresFit, Serves, AtWindow, Visited};

use spec::{Plan, Way};
use visit::Visit;

// The start window at (column, row), whatever the stores held. The box and the histogram are the walk's own, and 0.
pub fn enter(
    file: &[u8],
    plane: &[u16],
    plan: Plan,
    way: Way,
    weights: &[u16],
    column: usize,
    row: usize,
    balance_box: &mut [i16; 256],
    histogram: &mut [u32; 2048],
    counts: &mut [u16],
    words: &mut [u64],
    numbers: &mut [u32],
) -> Visit
    requires pictured { (Pictured file.now plane.now plan) × (WeightRows plan weights.now) × (Serves way plan plane.now) }
    requires column_lt_width { (column < plan.width) × (row < plan.height) }
    requires stores_fit { StoresFit way (settings_in plan) (stores counts.old words.old numbers.old) }
    requires balance_box_value { (balance_box.old ≡ zeros) × (Blank plan.levels histogram.old) }
    ensures { Visited way file.now plane.now
        (arrive way (frame_with file.now plane.now) column row 0 0)
        (stores counts.old words.old numbers.old)
        (stores counts.new words.new numbers.new)
        histogram.new balance_box.new result }
{
    match way {
        Way::Joint | Way::Coarse => joint_visit::enter(
            file,
            plane,
            plan,
            way,
            weights,
            column,
            row,
            balance_box,
            counts,
            words,
            histogram,
        ),
        Way::Columns => columns_visit::enter(file, plan, column, row, numbers),
        Way::Chain => chain_visit::enter(file, plan, column, row, numbers),
    }
}

// The neighbouring window at (column, row).
pub fn slide(
    file: &[u8],
    plane: &[u16],
    plan: Plan,
    way: Way,
    weights: &[u16],
    from: Visit,
    column: usize,
    row: usize,
    balance_box: &mut [i16; 256],
    histogram: &mut [u32; 2048],
    counts: &mut [u16],
    words: &mut [u64],
    numbers: &mut [u32],
) -> Visit
    requires pictured { (Pictured file.now plane.now plan) × (WeightRows plan weights.now) × (Serves way plan plane.now) }
    requires within { Within plan from }
    requires adjacent { Adjacent plan from.column from.row column row }
    requires stores_fit { StoresFit way (settings_in plan) (stores counts.old words.old numbers.old) }
    requires at_window { AtWindow way file.now plane.now (stores counts.old words.old numbers.old) histogram.old balance_box.old from }
    ensures { Visited way file.now plane.now
        (arrive way (frame_with file.now plane.now) column row from.cut.0 from.shifts)
        (stores counts.old words.old numbers.old)
        (stores counts.new words.new numbers.new)
        histogram.new balance_box.new result }
{
    match way {
        Way::Joint | Way::Coarse => joint_visit::slide(
            file,
            plane,
            plan,
            way,
            weights,
            from,
            column,
            row,
            balance_box,
            counts,
            words,
            histogram,
        ),
        Way::Columns => columns_visit::slide(file, plan, from, column, row, numbers),
        Way::Chain => chain_visit::slide(file, plan, from, column, row, numbers),
    }
}
