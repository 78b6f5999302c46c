// The checks of the call over up to eight files, in document 02's order: 15, then 1 to 7 file by file, then 11; and what they find on the way.
#![tactic(auto)]

ghost use Rattle.std.specs.Prelude.{◌≡◌, ◌≤◌, ◌<◌, eqb, length};
ghost use Rattle.spec.specs.Frame.{settings_in};
ghost use Rattle.spec.specs.Checks.{SettingsLimits};
ghost use Rattle.spec.specs.Cameras.{files_in, total, any_above, bad_batch};
ghost use Rattle.cameras_checks.specs.Totals.{TotalsLow, Added, FilesRead, BatchRead};

use checks_room::needed;
use frame::plan::open_plan;
use spec::{Plan, Refusal, Way};

// What the parts of the files read so far take together, and the pixels of each of eight files, none where there is no file.
#[derive(Clone, Copy, Default)]
pub struct Totals {
    pub counts: usize,
    pub words: usize,
    pub answers: usize,
    pub sizes: [usize; 8],
}

// Whether the lengths add up to a number of bytes. It takes them off, because a sum might be too large for a number.
#[tactic(auto, using(crate::proofs::Batch::total_left, crate::proofs::Batch::total_end))]
pub fn add_up(lengths: &[usize], bytes: usize) -> bool
    ensures { result ≡ eqb (total lengths.now) bytes }
{
    let mut left = bytes;
    for n in lengths {
        let Some(rest) = left.checked_sub(*n) else {
            return false;
        };
        left = rest;
    }
    left == 0
}

// Whether a number is above the most.
pub fn any_above(most: u32, numbers: &[u32]) -> bool
    ensures { result ≡ any_above most numbers.now }
{
    numbers.iter().any(|n| most < *n)
}

// Check 15.
#[tactic(auto, unfolding(spec::specs::Cameras::bad_batch))]
pub fn bad_batch(files: &[u8], lengths: &[usize], limits: &[u32]) -> bool
    ensures { result ≡ bad_batch files.now lengths.now limits.now }
{
    8 < lengths.len() || !add_up(lengths, files.len()) || any_above(4096, limits)
}

// The totals with file i more.
pub fn with_file(t: Totals, plan: Plan, i: usize) -> Totals
    requires { (SettingsLimits (settings_in plan)) × (TotalsLow i t) × (i < 8) }
    ensures { Added (settings_in plan) i t result }
{
    let room = needed(Way::Joint, plan);
    let n = plan.width * plan.height;
    let mut sizes = t.sizes;
    sizes[i] = n;
    Totals {
        counts: t.counts + room.counts,
        words: t.words + room.words,
        answers: t.answers + n,
        sizes,
    }
}

// Checks 1 to 7 of each file in turn, and the totals.
#[tactic(auto, using(crate::proofs::Batch::total_left))]
pub fn read_files(files: &[u8], lengths: &[usize]) -> Result<Totals, Refusal>
    requires { (length lengths.now ≤ 8) × (total lengths.now ≡ length files.now) }
    ensures { FilesRead (files_in lengths.now files.now) result }
{
    let mut totals = Totals::default();
    let mut at = 0;
    for (i, n) in lengths.iter().enumerate() {
        let end = at + *n;
        let plan = open_plan(&files[at..end])?;
        totals = with_file(totals, plan, i);
        at = end;
    }
    Ok(totals)
}

// All checks, where counts, words and answers have so many numbers; and the totals of all files.
#[tactic(auto, unfolding(spec::specs::Cameras::cameras_outcome, spec::specs::Cameras::short_of))]
pub fn check_batch(
    files: &[u8],
    lengths: &[usize],
    limits: &[u32],
    counts: usize,
    words: usize,
    answers: usize,
) -> Result<Totals, Refusal>
    ensures { BatchRead files.now lengths.now limits.now counts words answers result }
{
    if bad_batch(files, lengths, limits) {
        return Err(Refusal::Batch);
    }
    let totals = read_files(files, lengths)?;
    if counts < totals.counts || words < totals.words || answers < totals.answers {
        return Err(Refusal::Room);
    }
    Ok(totals)
}
