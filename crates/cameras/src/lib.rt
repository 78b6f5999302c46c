// Document 02, ask 9: one call over up to eight files, end to end in one buffer, which share the grants of control periods. Whose turn it is depends
// on the files' sizes and the limits alone, and a file's parts on the file and its tally alone. So the grants are counted first, and then each file
// is walked as far as its own grants reach: one walk's box and histogram serve all files, and no grant moves any state of a camera.
#![tactic(auto)]

ghost use Rattle.std.specs.Prelude.{◌≡◌, ◌≤◌};
ghost use Rattle.spec.specs.Refusal.{accepted};
ghost use Rattle.spec.specs.Checks.{verdict};
ghost use Rattle.spec.specs.Cameras.{files_in, pixels_in};
ghost use Rattle.ice_prefix.specs.Prefix.{parts};
ghost use Rattle.cameras.specs.Parts.{RoomFrom, PartMade, Servable, AllMade};
ghost use Rattle.cameras.specs.Contract.{Schedules};

use cameras_checks::check_batch;
use checks_room::needed;
use frame_trailer::plan_of;
use ice_prefix::begin;
use spec::{Refusal, Way};

// Where a file's parts of the three buffers begin.
#[derive(Clone, Copy, Default)]
pub struct Place {
    pub counts: usize,
    pub words: usize,
    pub answers: usize,
}

// The parts of one file, of which so many pixels are answered: as lent where there is none. Gives where the next file's parts begin.
fn serve_file(
    file: &[u8],
    tally: usize,
    from: Place,
    counts: &mut [u16],
    words: &mut [u64],
    answers: &mut [u16],
) -> Place
    requires file_value { (verdict file.now ≡ accepted) × (tally ≤ pixels_in file.now) }
    requires room_from { RoomFrom file.now from (parts counts.old words.old answers.old) }
    ensures { PartMade file.now tally from (parts counts.old words.old answers.old)
        (parts counts.new words.new answers.new) result }
{
    let plan = plan_of(file);
    let room = needed(Way::Joint, plan);
    let next = Place {
        counts: from.counts + room.counts,
        words: from.words + room.words,
        answers: from.answers + plan.width * plan.height,
    };
    if tally == 0 {
        return next;
    }
    begin(
        file,
        plan,
        tally,
        &mut counts[from.counts..],
        &mut words[from.words..],
        &mut answers[from.answers..],
    );
    next
}

// The parts of all files, end to end.
#[tactic(auto, using(cameras_checks::proofs::Batch::total_left))]
fn serve_files(
    files: &[u8],
    lengths: &[usize],
    tallies: [usize; 8],
    counts: &mut [u16],
    words: &mut [u64],
    answers: &mut [u16],
)
    requires { Servable files.now lengths.now tallies (parts counts.old words.old answers.old) }
    ensures { AllMade (files_in lengths.now files.now) tallies
        (parts counts.old words.old answers.old)
        (parts counts.new words.new answers.new) }
{
    let mut place = Place::default();
    let mut at = 0;
    for (i, n) in lengths.iter().enumerate() {
        let end = at + *n;
        place = serve_file(&files[at..end], tallies[i], place, counts, words, answers);
        at = end;
    }
}

// The files filtered by way 1 as far as the grants of the periods reach, and how many grants were made; what it promises is one record, for refusals
// too.
pub fn cameras(
    files: &[u8],
    lengths: &[usize],
    limits: &[u32],
    counts: &mut [u16],
    words: &mut [u64],
    answers: &mut [u16],
) -> Result<u64, Refusal>
    ensures { Schedules files.now lengths.now limits.now
        (parts counts.old words.old answers.old)
        (parts counts.new words.new answers.new) result }
{
    let totals = check_batch(
        files,
        lengths,
        limits,
        counts.len(),
        words.len(),
        answers.len(),
    )?;
    let round = schedule::run(totals.sizes, limits);
    serve_files(files, lengths, round.tallies, counts, words, answers);
    Ok(round.granted)
}
