// The window's answer from its counts and guide sums of each level. The two lists are the window's: how they are kept is the way's own.
ghost use Rattle.std.specs.Prelude.{◌≡◌, ◌+◌, if◌then◌else◌};
ghost use Rattle.spec.specs.Base.{distance};
ghost use Rattle.level_search.specs.Search.{FoundAt};
ghost use Rattle.levels.specs.Answer.{Answerable, FromCut};

use level_search::search::Found;
use level_search::{Tally, block, search};
use spec::Level;
use window_weights::coefficients::Coefficients;

// By the coefficients over so many guides: from the cut point where the window is monotone, with the tally of the levels up to it; else, and that
// is often, from level 0.
pub fn answer(
    counts: &[u32],
    sums: &[u32],
    coefficients: Coefficients,
    guides: usize,
    monotone: bool,
    below: Tally,
    cut: Level,
    shifts: u64,
) -> Found
    requires { (Answerable coefficients guides monotone shifts counts.now sums.now)
        × (FromCut monotone cut.0 below counts.now sums.now) }
    ensures { (FoundAt coefficients counts.now sums.now result)
        × (result.shifts ≡ shifts + (if monotone then distance result.level.0 cut.0 else result.level.0)) }
{
    let heaviest = block::heaviest(coefficients, guides);
    if monotone {
        return search::from_cut(counts, sums, coefficients, heaviest, cut, below, shifts);
    }
    search::from_lowest(counts, sums, coefficients, heaviest, shifts)
}
