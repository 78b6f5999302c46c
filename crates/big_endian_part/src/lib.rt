// Up to 64 numbers of a file at once, in two turns: the bytes copied as they stand into a short array, and then each number's two exchanged. The
// compiler does each turn for many numbers at a time and keeps them in registers, which it does not where a number is read high byte first.
#![tactic(auto)]

ghost use Rattle.std.specs.Prelude.{◌≡◌, ◌+◌, ◌*◌, ◌≤◌, length};
ghost use Rattle.big_endian_part.specs.Part.{Made, low_first, exchanged};

// n numbers of a file from a byte on, low byte first: a plain copy of the bytes, which is fast.
#[tactic(auto, unfolding(crate::specs::Part::low_first))]
pub fn copy_low_first(file: &[u8], first: usize, n: usize, part: &mut [u16; 64])
    requires { (n ≤ 64) × (first + 2 * n ≤ length file.now) × (length part.old ≡ 64) }
    ensures { Made (low_first file.now first) 0 n part.old part.new }
{
    for (k, number) in part[..n].iter_mut().enumerate() {
        let at = first + 2 * k;
        *number = u16::from_le_bytes([file[at], file[at + 1]]);
    }
}

// A number's two bytes exchanged: the library's method, under the definition that the laws of a plane use.
#[tactic(auto, unfolding(crate::specs::Part::exchanged))]
pub fn exchanged(v: u16) -> u16
    ensures { result ≡ exchanged v }
{
    v.swap_bytes()
}
