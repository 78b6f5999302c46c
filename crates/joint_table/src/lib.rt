// Ways 1 and 4, joint and coarse, in kind 1: a window's part in a walk, its stores and its box being made. The built-in weights are above 0, so that
// only a file's own can leave a window without weight (document 01: hollow). A plane given in place of the file's values has them; an empty one is
// none.
#![tactic(auto)]

ghost use Rattle.std.specs.Prelude.{◌≡◌, false, not, ◌&&◌, ◌*◌, ◌<◌, ◌≤◌, eqb};
ghost use Rattle.spec.specs.Frame.{no_reading, frame_with, value_of};
ghost use Rattle.spec.specs.Checks.{Pictured};
ghost use Rattle.spec.specs.Window.{pixel_count, empty};
ghost use Rattle.spec.specs.Joint.{balance_box_at};
ghost use Rattle.spec.specs.Walk.{arrive};
ghost use Rattle.joint_search.specs.Window.{Counted};
ghost use Rattle.joint_rows.specs.Rows.{WeightRows};
ghost use Rattle.visit.specs.Visit.{state_of};
ghost use Rattle.joint_table.specs.Arrive.{Arrives};

use chain_nodes::FreeList;
use joint_answer as search;
use joint_rows::rows;
use joint_search::Sizes;
use joint_search::find::SearchEnd;
use level_search::Tally;
use spec::{Level, NO_READING, Plan, Way};
use visit::{Running, Visit};
use window::pixel;
use window::sums::Sums;

// Whether the centre, which is the pixel at a place of the planes, is one of the window's pixels and weighs something: a dead one does not, whatever
// its weight.
pub fn centre_weighs(file: &[u8], plane: &[u16], plan: Plan, place: usize, weight: u16) -> bool
    requires { (Pictured file.now plane.now plan) × (place < plan.width * plan.height) }
    ensures { result ≡ (not (eqb weight 0) && not (eqb (value_of file.now plane.now place) no_reading)) }
{
    weight != 0 && pixel::value_in(file, plane, plan, place) != NO_READING
}

// A window with a reading, by the row of the centre's guide: a part of the built-in weights, or the file's own. In most tables the centre weighs
// something for itself, and then the window is not hollow.
pub fn arrive(
    file: &[u8],
    plane: &[u16],
    plan: Plan,
    way: Way,
    weights: &[u16],
    s: usize,
    t: usize,
    cut: Level,
    shifts: u64,
    balance_box: &mut [i16; 256],
    counts: &[u16],
    words: &[u64],
) -> SearchEnd
    requires counted { (Counted file.now plane.now plan s t counts.now words.now) × (WeightRows plan weights.now) × (plan.kind ≡ 1)
        × (empty (frame_with file.now plane.now) s t ≡ false) }
    requires cut_lt_levels { (cut.0 < plan.levels) × (shifts < 1099511627776)
        × (balance_box.old ≡ balance_box_at (frame_with file.now plane.now) s t cut.0) }
    ensures { Arrives way (frame_with file.now plane.now) s t cut.0 shifts result balance_box.new }
{
    let sizes = Sizes {
        levels: plan.levels,
        guides: plan.guides,
    };
    let place = t * plan.width + s;
    let centre = pixel::guide_at(file, plan, place);
    if plan.weights == 0 {
        let from = 255 - centre.0 as usize;
        return search::arrive(
            sizes,
            &weights[from..from + 256],
            way,
            cut,
            shifts,
            balance_box,
            counts,
            words,
        );
    }
    let mut row = [0; 256];
    rows::own_row(file, plan, centre, &mut row);
    let weighs = centre_weighs(file, plane, plan, place, row[centre.0 as usize]);
    search::ones_if_hollow(sizes, weighs, cut, counts, words, &mut row);
    search::arrive(sizes, &row, way, cut, shifts, balance_box, counts, words)
}

// The visit of a window of so many pixels: one of none has no reading. Nothing else runs along.
pub fn visit(
    file: &[u8],
    plane: &[u16],
    plan: Plan,
    way: Way,
    weights: &[u16],
    column: usize,
    row: usize,
    count: usize,
    cut: Level,
    shifts: u64,
    balance_box: &mut [i16; 256],
    counts: &[u16],
    words: &[u64],
) -> Visit
    requires counted { (Counted file.now plane.now plan column row counts.now words.now) × (WeightRows plan weights.now) × (plan.kind ≡ 1)
        × (count ≡ pixel_count (frame_with file.now plane.now) column row) }
    requires cut_lt_levels { (cut.0 < plan.levels) × (shifts ≤ 4294967296)
        × (balance_box.old ≡ balance_box_at (frame_with file.now plane.now) column row cut.0) }
    ensures { (state_of way result ≡ arrive way (frame_with file.now plane.now) column row cut.0 shifts)
        × (balance_box.new ≡ balance_box_at (frame_with file.now plane.now) column row result.cut.0)
        × (result.running.sums.count ≡ count) }
{
    let sums = Sums {
        count,
        sum: 0,
        squares: 0,
    };
    let free = FreeList { head: 0, count: 0 };
    if count == 0 {
        return visit::unread(column, row, cut, shifts, sums, free);
    }
    let below = Tally { count: 0, sum: 0 };
    let running = Running { sums, below, free };
    let r = arrive(
        file,
        plane,
        plan,
        way,
        weights,
        column,
        row,
        cut,
        shifts,
        balance_box,
        counts,
        words,
    );
    visit::answered(column, row, r.level, r.shifts, running)
}
