// Kind 2's weight of a pixel is linear in its guide: the two coefficients, the window's weight sum, whether no guide weighs less than 0, and whether
// some of the window's pixels weigh half.
ghost use Rattle.std.specs.Prelude.{◌≡◌, ◌<◌, ◌≤◌};
ghost use Rattle.spec.specs.Checks.{Planned};
ghost use Rattle.spec.specs.Frame.{frame_of};
ghost use Rattle.window.specs.Sums.{SumsAt};
ghost use Rattle.window_weights.specs.Coefficients.{SumsSmall, CoefficientsOf, CoefficientsSmall, WeighsAt, ends_not_negative, reaches_half};

use spec::{Guide, Plan};
use window::pixel;
use window::sums::Sums;

// A pixel of guide g weighs slope·g + offset; the window's weights sum to total.
#[derive(Clone, Copy)]
pub struct Coefficients {
    pub slope: i64,
    pub offset: i64,
    pub total: i64,
}

// Of the window whose sums are a and whose centre has the guide.
pub fn from_sums(plan: Plan, a: Sums, centre: Guide) -> Coefficients
    requires sums_small { SumsSmall a }
    requires smoothing_bound { (plan.smoothing ≤ 65025) × (centre.0 ≤ 255) }
    ensures { CoefficientsOf a plan.smoothing centre.0 result }
{
    let g = centre.0 as i64;
    let n = a.count as i64;
    let s = a.sum as i64;
    let q = a.squares as i64;
    let e = plan.smoothing as i64;
    let deviation = n * g - s;
    let variance = n * q - s * s + n * n * e;
    Coefficients {
        slope: n * deviation,
        offset: variance - s * deviation,
        total: n * variance,
    }
}

// Of the window at (s, t), whose sums are a.
pub fn of_window(file: &[u8], plan: Plan, a: Sums, s: usize, t: usize) -> Coefficients
    requires planned { (Planned file.now plan) × (plan.kind ≡ 2) }
    requires s_lt_width { (s < plan.width) × (t < plan.height) × (SumsAt (frame_of file.now) s t a) }
    ensures { (WeighsAt (frame_of file.now) s t result) × (CoefficientsSmall result) }
{
    let centre = pixel::guide_at(file, plan, t * plan.width + s);
    from_sums(plan, a, centre)
}

// Document 01: steady. The weight formula at guide 0 and at the last guide.
pub fn monotone(plan: Plan, coefficients: Coefficients) -> bool
    requires le_guides { (1 ≤ plan.guides) × (plan.guides ≤ 256) }
    requires coefficients_small { CoefficientsSmall coefficients }
    ensures { result ≡ ends_not_negative coefficients plan.guides }
{
    let low = coefficients.offset;
    let high = coefficients.slope * ((plan.guides - 1) as i64) + coefficients.offset;
    low >= 0 && high >= 0
}

// Whether so many of the window's pixels, with that guide sum, weigh at least half of the total.
pub fn reached(coefficients: Coefficients, count: usize, sum: usize) -> bool
    requires coefficients_small { CoefficientsSmall coefficients }
    requires count_bound { (count ≤ 961) × (sum ≤ 245055) }
    ensures { result ≡ reaches_half coefficients count sum }
{
    coefficients.total
        <= 2 * (coefficients.slope * (sum as i64) + coefficients.offset * (count as i64))
}
