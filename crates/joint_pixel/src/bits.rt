// Bits of an occupancy word: set and cleared by shifts and masks.
ghost use Rattle.std.specs.Prelude.{◌≡◌, ◌<◌, ◌≤◌};
ghost use Rattle.joint_pixel.specs.Bit.{with_bit, without_bit};

#[tactic(auto, using(crate::proofs::BitLaws::one_shl), unfolding(crate::specs::Bit::with_bit))]
pub fn with_bit(word: u64, b: u32) -> u64
    requires { b < 64 }
    ensures { result ≡ with_bit word b }
{
    word | 1 << b
}

// Clears the bit where gone is 1, and nothing where it is 0: no branch, since which of the two comes next can't be foretold.
#[tactic(auto, using(crate::proofs::BitLaws::shl_one), unfolding(crate::specs::Bit::without_bit))]
pub fn without_bit(word: u64, b: u32, gone: u64) -> u64
    requires { (b < 64) × (gone ≤ 1) }
    ensures { result ≡ without_bit word b gone }
{
    word & !(gone << b)
}
