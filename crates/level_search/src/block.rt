// Blocks of 16 levels. A climb passes over a block at once where its pixels, were each as heavy as a pixel can be, would not lift the cumulative
// weight to half of the total: in most windows most levels are empty or far below the answer.
ghost use Rattle.std.specs.Prelude.{◌≡◌, true, ℕ, ◌+◌, ◌<◌, ◌≤◌, nat_abs, length, sum};
ghost use Rattle.window_weights.specs.Coefficients.{CoefficientsSmall};
ghost use Rattle.level_search.specs.Search.{sum_to};
ghost use Rattle.level_search.specs.Block.{EndsBelow, Light};

use crate::Tally;
use spec::Level;
use window_weights::coefficients::Coefficients;

pub const BLOCK: usize = spec::BLOCK as usize;

// What no pixel outweighs, over so many guides: the larger end of the weight formula, or 0.
pub fn heaviest(coefficients: Coefficients, guides: usize) -> i64
    requires coefficients_small { CoefficientsSmall coefficients }
    requires le_guides { (1 ≤ guides) × (guides ≤ 256) }
    ensures { EndsBelow coefficients guides result }
{
    let high = coefficients.slope * ((guides - 1) as i64) + coefficients.offset;
    coefficients.offset.max(0).max(high)
}

// The sum of few numbers. In 32 bits: four are then added in one instruction.
pub(crate) fn sum_of(numbers: &[u32]) -> usize
    requires { sum numbers.now ≤ 245055 }
    ensures { result ≡ sum numbers.now }
{
    let total: u32 = numbers.iter().sum();
    total as usize
}

// The sum of the block that begins at a level.
pub fn total(numbers: &[u32], from: Level) -> usize
    requires { (from.0 + 16 ≤ length numbers.now) × (length numbers.now ≤ 1024) × (sum_to numbers.now (from.0 + 16) ≤ 245055) }
    ensures { result + sum_to numbers.now from.0 ≡ sum_to numbers.now (from.0 + 16) }
{
    let at = from.0 as usize;
    sum_of(&numbers[at..at + BLOCK])
}

// Whether a whole block begins at the level and cannot reach half; below is the tally of the levels below it.
pub fn light(
    counts: &[u32],
    coefficients: Coefficients,
    heaviest: i64,
    from: Level,
    below: Tally,
) -> bool
    requires coefficients_small { (CoefficientsSmall coefficients) × (nat_abs heaviest ≤ 240207812100) × (below.count ≤ 961) × (below.sum ≤ 245055) }
    requires from_in_bounds { (from.0 < length counts.now) × (length counts.now ≤ 1024)
        × ((n : ℕ) → n ≤ length counts.now → sum_to counts.now n ≤ 961) }
    ensures { result ≡ true → Light coefficients heaviest counts.now from.0 below.count below.sum }
{
    let at = from.0 as usize;
    if counts.len() < at + BLOCK {
        return false;
    }
    let pixels = total(counts, from);
    let most = coefficients.slope * (below.sum as i64)
        + coefficients.offset * (below.count as i64)
        + heaviest * (pixels as i64);
    2 * most < coefficients.total
}
