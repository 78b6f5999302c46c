// One pixel more or less in the joint counts and their occupancy words.
ghost use Rattle.std.specs.Prelude.{◌≡◌, ◌-◌, ◌%◌, ◌≤◌, get_or};
ghost use Rattle.pixels.specs.Additive.{Fits};
ghost use Rattle.joint_pixel.specs.Store.{cell_at, word_at, Place, changed_counts, changed_words};

use crate::bits;
use spec::{Guide, Level};

// The place of the cell of a level and a guide, of m guides.
pub fn cell_at(level: Level, guide: Guide, m: usize) -> usize
    requires { m ≤ 256 }
    ensures { result ≡ cell_at m level.0 guide.0 }
{
    level.0 as usize * m + guide.0 as usize
}

// The place of the word that has their bit.
pub fn word_at(level: Level, guide: Guide, m: usize) -> usize
    requires { m ≤ 256 }
    ensures { result ≡ word_at m level.0 guide.0 }
{
    level.0 as usize * m.div_ceil(64) + guide.0 as usize / 64
}

// The bit of a guide in its word.
pub fn bit_at(guide: Guide) -> u32
    ensures { result ≡ guide.0 % 64 }
{
    guide.0 as u32 % 64
}

// 1 where nothing is left, else 0.
pub fn emptied(left: u16) -> u64
    ensures { result ≡ 1 - left }
{
    u64::from(left == 0)
}

// A pixel that enters the window or leaves it: its count and its bit. The bit of a cell that falls to 0 is cleared without a branch, because which
// cells do can't be foretold; the branch on enters goes one way along a whole line.
pub fn change_pixel(
    level: Level,
    guide: Guide,
    m: usize,
    enters: bool,
    counts: &mut [u16],
    words: &mut [u64],
)
    requires place { Place m level.0 guide.0 counts.old words.old }
    requires fits { Fits 65536 enters (get_or counts.old (cell_at m level.0 guide.0) 0) 1 }
    ensures counts_after { counts.new ≡ changed_counts enters m level.0 guide.0 counts.old }
    ensures words_after { words.new ≡ changed_words enters m level.0 guide.0 counts.old words.old }
{
    let at = cell_at(level, guide, m);
    let w = word_at(level, guide, m);
    let b = bit_at(guide);
    if enters {
        counts[at] += 1;
        words[w] = bits::with_bit(words[w], b);
    } else {
        counts[at] -= 1;
        words[w] = bits::without_bit(words[w], b, emptied(counts[at]));
    }
}
