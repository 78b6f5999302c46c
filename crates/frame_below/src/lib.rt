// Check 7 sped up: how many numbers of a plane, values or not, are from its first on surely below a limit, as the check judges them. They are looked
// at 64 at a time, which the compiler takes many at a time: those of a file by their bits, and by the largest of them where the bits do not tell.
// Where that is too large the check goes on one by one, so nothing more is promised.
#![tactic(auto)]

ghost use Rattle.std.specs.Prelude.{◌≡◌, false, ◌+◌, ◌*◌, ◌≤◌, length, get_or};
ghost use Rattle.spec.specs.Checks.{judged};
ghost use Rattle.spec.specs.Frame.{plane};
ghost use Rattle.frame_below.specs.Below.{Below};

use big_endian_part::{copy_low_first, exchanged};
use spec::judged;

// The numbers that are looked at together.
const RUN: usize = 64;

// No number is judged larger. This is a loop because the compiler takes the numbers of a fold one by one, and its number is said to be a u16 so that
// `max` is the u16's own: host/local_arrays cannot follow that of `Ord`.
fn most(numbers: &[u16], values: bool) -> u16
    ensures { Below (λ j. judged values (get_or numbers.now j 0)) (length numbers.now) (result + 1) }
{
    let mut most = 0u16;
    for number in numbers {
        most = most.max(judged(values, *number));
    }
    most
}

// So many numbers of a list, from its first on, are judged below the limit. No closure here: host/local_arrays follows every call that the writer
// leads to, and cannot follow one of a closure, as `find` or a search shared with file_below would make.
pub fn list_below(list: &[u16], values: bool, limit: u16) -> usize
    ensures { (result ≤ length list.now) × Below (λ j. judged values (get_or list.now j 0)) result limit }
{
    let runs = list.len() / RUN;
    for run in 0..runs {
        let k = RUN * run;
        if limit <= most(&list[k..k + RUN], values) {
            return k;
        }
    }
    RUN * runs
}

// The same of 64 numbers of a file, the first of which begins at an offset.
fn most_of_file(file: &[u8], values: bool, offset: usize) -> u16
    requires { offset + 2 * 64 ≤ length file.now }
    ensures { Below (λ j. judged values (plane file.now offset j)) 64 (result + 1) }
{
    let mut part = [0; RUN];
    copy_low_first(file, offset, RUN, &mut part);
    for number in part.iter_mut() {
        *number = exchanged(*number);
    }
    most(&part, values)
}

// No number of the 64 is judged larger: neither of its bytes has a bit that the answer's byte lacks. Only the answer's bytes are exchanged, so this
// takes fewer steps than the largest, and it is as good where the limit is a power of two. No reading is the same number either way.
fn bits_of_file(file: &[u8], values: bool, offset: usize) -> u16
    requires { offset + 2 * 64 ≤ length file.now }
    ensures { Below (λ j. judged values (plane file.now offset j)) 64 (result + 1) }
{
    let mut numbers = [0; RUN];
    copy_low_first(file, offset, RUN, &mut numbers);
    let mut bits = 0;
    for number in numbers {
        bits |= judged(values, number);
    }
    exchanged(bits)
}

// Whether one of the 64 may be as large as the limit.
fn may_reach(file: &[u8], values: bool, offset: usize, limit: usize) -> bool
    requires { offset + 2 * 64 ≤ length file.now }
    ensures { result ≡ false → Below (λ j. judged values (plane file.now offset j)) 64 limit }
{
    limit <= bits_of_file(file, values, offset) as usize
        && limit <= most_of_file(file, values, offset) as usize
}

// So many of the n numbers from an offset on.
pub fn file_below(file: &[u8], values: bool, offset: usize, n: usize, limit: usize) -> usize
    requires { offset + 2 * n ≤ length file.now }
    ensures { (result ≤ n) × Below (λ j. judged values (plane file.now offset j)) result limit }
{
    let runs = n / RUN;
    for run in 0..runs {
        let k = RUN * run;
        if may_reach(file, values, offset + 2 * k, limit) {
            return k;
        }
    }
    RUN * runs
}
