// Blocks of 16 levels without a pixel: after a resurfacing most blocks between the cut point and the answer have none.
ghost use Rattle.std.specs.Prelude.{◌≡◌, true, ◌+◌, ◌-◌, ◌≤◌, ◌<◌, length};
ghost use Rattle.joint_cells.specs.Vacant.{Clear, WordsFit, Vacant};

use spec::BLOCK;

// Whether n words from the first are all 0: one pass without a branch, many words at a time.
pub fn clear(words: &[u64], first: usize, n: usize) -> bool
    requires { first + n ≤ length words.now }
    ensures { result ≡ true → Clear words.now first n }
{
    words[first..first + n].iter().fold(0, |all, w| all | w) == 0
}

// Whether the whole block from a level on has no pixel, of l levels and m guides.
pub fn vacant(l: usize, m: usize, from: u16, words: &[u64]) -> bool
    requires { (WordsFit l m words.now) × (from + 16 ≤ l) }
    ensures { result ≡ true → Vacant l m from words.now }
{
    let k = m.div_ceil(64);
    clear(words, from as usize * k, BLOCK as usize * k)
}

// Whether a block begins above level i and has no pixel.
pub fn vacant_above(l: usize, m: usize, i: u16, words: &[u64]) -> bool
    requires { (WordsFit l m words.now) × (i < l) }
    ensures { result ≡ true → Vacant l m (i + 1) words.now }
{
    let next = i + 1;
    next % BLOCK == 0 && (next + BLOCK) as usize <= l && vacant(l, m, next, words)
}

// Whether a block that is not the first ends at level i and has no pixel.
pub fn vacant_below(l: usize, m: usize, i: u16, words: &[u64]) -> bool
    requires { (WordsFit l m words.now) × (i < l) }
    ensures { result ≡ true → (16 ≤ i) × (Vacant l m (i - 15) words.now) }
{
    BLOCK <= i && i % BLOCK == 15 && vacant(l, m, i - 15, words)
}
