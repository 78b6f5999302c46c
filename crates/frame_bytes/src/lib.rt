// The bytes of a file, high byte first, stored into the lent output itself from a place on: a byte, numbers of two and of four bytes, planes. Every
// byte that the writer writes goes through `put8`. The caller makes sure that there is room.
#![tactic(auto)]

ghost use Rattle.std.specs.Prelude.{◌≡◌, ◌+◌, ◌*◌, ◌<◌, ◌≤◌, length, [], ◌∷◌};
ghost use Rattle.std.proofs.lemmas.List.Edits.{sets};
ghost use Rattle.spec.specs.Bytes.{to16, to32, all16};

pub fn put8(out: &mut [u8], at: usize, b: u8)
    requires { at + 1 ≤ length out.old }
    ensures { out.new ≡ sets out.old at (b ∷ []) }
{
    out[at] = b;
}

// Without `to_be_bytes`, whose array host/local_arrays would find in the writer.
#[tactic(auto, unfolding(spec::specs::Bytes::to16))]
pub fn put16(out: &mut [u8], at: usize, n: u16)
    requires { at + 2 ≤ length out.old }
    ensures { out.new ≡ sets out.old at (to16 n) }
{
    put8(out, at, (n / 256) as u8);
    put8(out, at + 1, (n % 256) as u8);
}

#[tactic(auto, unfolding(spec::specs::Bytes::to16, spec::specs::Bytes::to32))]
pub fn put32(out: &mut [u8], at: usize, n: usize)
    requires { (at + 4 ≤ length out.old) × (n < 4294967296) }
    ensures { out.new ≡ sets out.old at (to32 n) }
{
    put16(out, at, (n / 65536) as u16);
    put16(out, at + 2, (n % 65536) as u16);
}

// A plane or the table.
pub fn put_all(out: &mut [u8], at: usize, list: &[u16])
    requires { at + 2 * length list.now ≤ length out.old }
    ensures { out.new ≡ sets out.old at (all16 list.now) }
{
    for (k, n) in list.iter().enumerate() {
        put16(out, at + 2 * k, *n);
    }
}
