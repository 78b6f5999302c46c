// A number of a store that adds up shares of pixels.
ghost use Rattle.std.specs.Prelude.{◌≡◌, ◌<◌, length, get_or, set};
ghost use Rattle.pixels.specs.Additive.{changed, Fits};

// Raised by what enters, lowered by what leaves.
#[tactic(auto, unfolding(crate::specs::Additive::changed))]
pub fn change(numbers: &mut [u32], at: usize, v: u32, enters: bool)
    requires { (at < length numbers.old) × (Fits 4294967296 enters (get_or numbers.old at 0) v) }
    ensures { numbers.new ≡ set numbers.old at (changed enters (get_or numbers.old at 0) v) }
{
    if enters {
        numbers[at] += v;
    } else {
        numbers[at] -= v;
    }
}
