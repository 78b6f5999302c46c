// Document 02, ask 7: levels known within a tolerance. One call filters a frame by way 1 with its own values, and then with a plane of upper levels
// in their place: at each pixel the least and the greatest answer over every choice of levels between the two.
#![tactic(auto)]

ghost use Rattle.std.specs.Prelude.{◌≡◌, [], ◌*◌, ◌≤◌, length};
ghost use Rattle.spec.specs.Frame.{frame_of, frame_with, settings_in};
ghost use Rattle.spec.specs.Checks.{Planned, Pictured};
ghost use Rattle.ice_step.specs.Finished.{lent, LentFits};
ghost use Rattle.spec.specs.declared.Way.TheVariants.{Joint};
ghost use Rattle.tolerance.specs.Contract.{buffers, BothFiltered, Tolerates};

use frame::plan::open_plan;
use ice_filter::sweep;
use spec::{Plan, Refusal, Room, Way};
use tolerance_checks::tolerance_verdict;

// What the call gives back beside the buffers: the shift count of each of the two filters.
#[derive(Clone, Copy)]
pub struct Tolerated {
    pub least_shifts: u64,
    pub greatest_shifts: u64,
}

// The two filters, after the checks: the upper plane's comes last, so that the stores are as it leaves them.
fn filter_both(
    file: &[u8],
    plan: Plan,
    upper: &[u16],
    counts: &mut [u16],
    words: &mut [u64],
    least: &mut [u16],
    greatest: &mut [u16],
) -> Tolerated
    requires planned { (Planned file.now plan) × (Pictured file.now upper.now plan) × (plan.kind ≡ 1) }
    requires lent_fits { LentFits Joint (settings_in plan) (lent counts.old words.old [] []) }
    requires height_in_bounds { (plan.width * plan.height ≤ length least.old) × (plan.width * plan.height ≤ length greatest.old) }
    ensures { BothFiltered (frame_of file.now) (frame_with file.now upper.now)
        (buffers counts.old words.old least.old greatest.old)
        (buffers counts.new words.new least.new greatest.new) result }
{
    let lower = sweep(
        file,
        &[],
        plan,
        Way::Joint,
        counts,
        words,
        &mut [],
        &mut [],
        least,
    );
    let higher = sweep(
        file,
        upper,
        plan,
        Way::Joint,
        counts,
        words,
        &mut [],
        &mut [],
        greatest,
    );
    Tolerated {
        least_shifts: lower.shifts,
        greatest_shifts: higher.shifts,
    }
}

// The least and the greatest answers of a frame whose levels lie between its own and the upper ones; what it promises is one record, for refusals
// too.
#[tactic(auto, unfolding(spec::specs::Tolerance::tolerance_outcome))]
pub fn tolerance(
    file: &[u8],
    upper: &[u16],
    counts: &mut [u16],
    words: &mut [u64],
    least: &mut [u16],
    greatest: &mut [u16],
) -> Result<Tolerated, Refusal>
    ensures { Tolerates file.now upper.now
        (buffers counts.old words.old least.old greatest.old)
        (buffers counts.new words.new least.new greatest.new) result }
{
    let plan = open_plan(file)?;
    let have = Room {
        counts: counts.len(),
        words: words.len(),
        numbers: 0,
        summary: 0,
    };
    tolerance_verdict(file, plan, upper, have, least.len(), greatest.len())?;
    Ok(filter_both(file, plan, upper, counts, words, least, greatest))
}
