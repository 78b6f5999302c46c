// Which levels without a pixel a search passes at once: none in way 1, whole blocks in way 4 (crate joint_blocks). A search is compiled anew for each
// of the two, so that way 1 looks for no block: with the test of one it would be an eighth slower.
ghost use Rattle.std.specs.Prelude.{◌≡◌, ◌+◌, ◌-◌, ◌<◌, ◌≤◌, IfSome};
ghost use Rattle.joint_cells.specs.Vacant.{WordsFit};
ghost use Rattle.joint_search.specs.Search.{NoPixel};

use crate::Sizes;
use spec::Level;

pub trait Passing {
    // So many levels from the one above level i on have no pixel.
    fn above(sizes: Sizes, i: Level, words: &[u64]) -> Option<u16>
        requires { (WordsFit sizes.levels sizes.guides words.now) × (i.0 < sizes.levels) }
        ensures { IfSome result (λ n. (0 < n) × NoPixel sizes (i.0 + 1) n words.now) };

    // So many levels from level i down have no pixel; the last level below them is there.
    fn below(sizes: Sizes, i: Level, words: &[u64]) -> Option<u16>
        requires { (WordsFit sizes.levels sizes.guides words.now) × (i.0 < sizes.levels) }
        ensures { IfSome result (λ n. (0 < n) × (n ≤ i.0) × NoPixel sizes (i.0 + 1 - n) n words.now) };
}

// Every level is looked at.
pub struct OneByOne;

impl Passing for OneByOne {
    fn above(_sizes: Sizes, _i: Level, _words: &[u64]) -> Option<u16> {
        None
    }

    fn below(_sizes: Sizes, _i: Level, _words: &[u64]) -> Option<u16> {
        None
    }
}
