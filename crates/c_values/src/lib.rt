// The numbers that the calls for C take and give: a status (0, or document 01's number), an offset with number 7 alone, results that a refusal leaves
// as they were, and settings of 32-bit numbers.
#![tactic(auto)]

ghost use Rattle.std.specs.Prelude.{◌≡◌, min};
ghost use Rattle.spec.specs.Refusal.{numbered};
ghost use Rattle.c_values.specs.Results.{given_by, Reported, cause_number, lent_grounds, GroundsGiven};
ghost use Rattle.c_values.specs.Settings.{Narrowed, settings_from};

use ice_step::Walked;
use spec::{Cause, Grounds, Refusal, Settings};

// A call's result as a status, and the offset of number 7.
pub fn report<T>(call: &Result<T, Refusal>, offset: &mut u64) -> u32
    ensures { Reported (numbered call.now) result offset.old offset.new }
{
    match call {
        Ok(_) => 0,
        Err(refusal) => {
            let number = u8::from(*refusal) as u32;
            if number == 7 {
                *offset = spec::offset_of(*refusal) as u64;
            }
            number
        }
    }
}

// The lent results of a walk: its shift count, cut point and balance box where it is accepted.
pub fn give_walk(
    walk: Result<Walked, Refusal>,
    lent_shifts: &mut u64,
    lent_cut: &mut u16,
    lent_box: &mut [i16; 256],
)
    ensures shifts { lent_shifts.new ≡ given_by walk (λ w. w.shifts) lent_shifts.old }
    ensures cut { lent_cut.new ≡ given_by walk (λ w. w.cut.0) lent_cut.old }
    ensures balance_box { lent_box.new ≡ given_by walk (λ w. w.balance_box) lent_box.old }
{
    if let Ok(walked) = walk {
        *lent_shifts = walked.shifts;
        *lent_cut = walked.cut.0;
        let balance_box = walked.balance_box;
        *lent_box = balance_box;
    }
}

// The number that a cause is given as.
pub fn cause_number(cause: Cause) -> u32
    ensures { result ≡ cause_number cause }
{
    match cause {
        Cause::Ordinary => 1,
        Cause::Hollow => 2,
        Cause::NegativeAtZero => 3,
        Cause::NegativeAtLast => 4,
        Cause::Empty => 5,
    }
}

// The lent results of an explanation, where it is accepted.
pub fn give_grounds(
    explanation: Result<Grounds, Refusal>,
    pixels: &mut usize,
    total: &mut i64,
    level: &mut u16,
    below: &mut i64,
    reached: &mut i64,
    cause: &mut u32,
)
    ensures { GroundsGiven explanation
        (lent_grounds pixels.old total.old level.old below.old reached.old cause.old)
        (lent_grounds pixels.new total.new level.new below.new reached.new cause.new) }
{
    if let Ok(grounds) = explanation {
        *pixels = grounds.pixels;
        *total = grounds.total;
        *level = u16::from(grounds.answer);
        *below = grounds.below;
        *reached = grounds.reached;
        *cause = cause_number(grounds.cause);
    }
}

// A number, or the most that its field can hold.
fn at_most(n: u32, most: u32) -> u32
    ensures { result ≡ min n most }
{
    n.min(most)
}

// The settings that seven numbers make. A number that its field cannot hold becomes the field's largest, which its own check refuses too: none is cut
// down to one that passes.
pub fn settings_from(
    width: u32,
    height: u32,
    levels: u32,
    guides: u32,
    kind: u32,
    radius: u32,
    smoothing: u32,
) -> Settings
    ensures { Narrowed (settings_from width height levels guides kind radius smoothing) result }
{
    Settings {
        width: at_most(width, 65535) as u16,
        height: at_most(height, 65535) as u16,
        levels: at_most(levels, 65535) as u16,
        guides: at_most(guides, 65535) as u16,
        kind: at_most(kind, 255) as u8,
        radius: at_most(radius, 255) as u8,
        smoothing: at_most(smoothing, 65535) as u16,
    }
}
