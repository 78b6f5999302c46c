// The lowest of some levels at which their weights reach half of a total: the search of an explanation, over a list of one sum for each level.
#![tactic(auto)]

ghost use Rattle.std.specs.Prelude.{◌≡◌, true, ◌<◌, length};
ghost use Rattle.explain_half.specs.Half.{SumsSmall, Vacant, HalfInReach, HalfReached};

use spec::Level;

const BLOCK: usize = spec::BLOCK as usize;

// The lowest level at which half is reached, and what the levels weigh that are below it, and up to it.
#[derive(Clone, Copy)]
pub struct Half {
    pub level: Level,
    pub below: i64,
    pub reached: i64,
}

// Whether a block of levels begins at level i in which none weighs anything: one pass without a branch, many levels at a time.
pub fn vacant(sums: &[i64], i: usize) -> bool
    requires { (SumsSmall sums.now) × (i < length sums.now) }
    ensures { result ≡ true → Vacant sums.now i }
{
    let end = i + BLOCK;
    if !i.is_multiple_of(BLOCK) || sums.len() < end {
        return false;
    }
    let mut all = 0;
    for sum in &sums[i..end] {
        all |= *sum;
    }
    all == 0
}

// Level by level, from 0 on: a sum may fall again where weights are negative, so that only levels without a weight are passed over.
pub fn reach_half(sums: &[i64], total: i64) -> Half
    requires { HalfInReach sums.now total }
    ensures { HalfReached sums.now total result }
{
    let mut below = 0;
    let mut i = 0;
    // no `for`, since the step is a block or a level
    while i < sums.len() {
        if vacant(sums, i) {
            i += BLOCK;
        } else {
            let reached = below + sums[i];
            if total <= 2 * reached {
                return Half {
                    level: Level(i as u16),
                    below,
                    reached,
                };
            }
            below = reached;
            i += 1;
        }
    }
    unreachable!()
}
