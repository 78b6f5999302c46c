// What the two loops under the public calls share: one byte of a list of moves, the end, and the result.
#![tactic(auto)]

ghost use Rattle.std.specs.Prelude.{◌≡◌, ◌≤◌, length};
ghost use Rattle.spec.specs.Frame.{frame_of, frame_with, settings_in};
ghost use Rattle.spec.specs.Checks.{Planned, Pictured};
ghost use Rattle.spec.specs.Walk as definitions;
ghost use Rattle.spec.specs.Calls.{room_of};
ghost use Rattle.joint_rows.specs.Rows.{WeightRows};
ghost use Rattle.visit.specs.Visit.{state_of, Within};
ghost use Rattle.ways.specs.Visit.{stores, StoresFit, Serves, AtWindow, Visited};
ghost use Rattle.ice_step.specs.Finished.{EndMade};

use ice_moves::next;
use spec::{Answer, Level, Move, Plan, Way, by_blocks};
use visit::Visit;
use ways::dispatch;

// What walk and filter give back beside the buffers: the shift count, the last cut point and, for the joint way, the balance box (zeros for the other
// ways).
#[derive(Clone, Copy)]
pub struct Walked {
    pub shifts: u64,
    pub cut: Level,
    pub balance_box: [i16; 256],
}

// One byte of the list: the window that it leads to, or the mark. A plane may be given in place of the file's values, as for the ways.
pub fn step(
    file: &[u8],
    plane: &[u16],
    plan: Plan,
    way: Way,
    weights: &[u16],
    visit: Visit,
    byte: u8,
    balance_box: &mut [i16; 256],
    histogram: &mut [u32; 2048],
    counts: &mut [u16],
    words: &mut [u64],
    numbers: &mut [u32],
) -> Visit
    requires pictured { (Pictured file.now plane.now plan) × (WeightRows plan weights.now) × (Serves way plan plane.now) }
    requires within { Within plan visit }
    requires stores_fit { StoresFit way (settings_in plan) (stores counts.old words.old numbers.old) }
    requires at_window { AtWindow way file.now plane.now (stores counts.old words.old numbers.old) histogram.old balance_box.old visit }
    ensures { Visited way file.now plane.now
        (definitions.step (frame_with file.now plane.now) (state_of way visit) byte)
        (stores counts.old words.old numbers.old)
        (stores counts.new words.new numbers.new)
        histogram.new balance_box.new result }
{
    match next(plan, visit.column, visit.row, byte) {
        Move::To(column, row) => dispatch::slide(
            file,
            plane,
            plan,
            way,
            weights,
            visit,
            column,
            row,
            balance_box,
            histogram,
            counts,
            words,
            numbers,
        ),
        Move::Nowhere(mark) => Visit {
            answer: Answer::Mark(mark),
            ..visit
        },
    }
}

// The end of a loop, at its last window: way 4's summary. A pixel's weight depends on the window's centre, so that no sum of weights could be
// carried along. The box that way 4 searched by is the walk's own, and is handed back as zeros.
pub fn finish(
    file: &[u8],
    plan: Plan,
    way: Way,
    visit: Visit,
    balance_box: &mut [i16; 256],
    summary: &mut [i64],
)
    requires planned { (Planned file.now plan) × (Within plan visit) }
    requires plan_in_bounds { (room_of way (settings_in plan)).summary ≤ length summary.old }
    ensures { EndMade way (frame_of file.now) visit.column visit.row balance_box.old
        summary.old summary.new balance_box.new }
{
    if by_blocks(way) {
        summary::fill(file, plan, visit.column, visit.row, summary);
        *balance_box = [0i16; 256];
    }
}
