// Numbers of a file, high byte first; an inner layer: the caller has made sure that the bytes are there.
#![tactic(auto)]

ghost use Rattle.std.specs.Prelude.{◌≡◌, ◌+◌, ◌<◌, length};
ghost use Rattle.spec.specs.Bytes.{be16, be32};

use spec::Guide;

#[tactic(auto, unfolding(spec::specs::Bytes::be16))]
pub fn be16(b: &[u8], at: usize) -> u16
    requires { at + 1 < length b.now }
    ensures { result ≡ be16 b.now at }
{
    u16::from_be_bytes([b[at], b[at + 1]])
}

#[tactic(auto, unfolding(spec::specs::Bytes::be32, spec::specs::Bytes::be16))]
pub fn be32(b: &[u8], at: usize) -> usize
    requires { at + 3 < length b.now }
    ensures { (result ≡ be32 b.now at) × (result < 4294967296) }
{
    u32::from_be_bytes([b[at], b[at + 1], b[at + 2], b[at + 3]]) as usize
}

// The guide that begins at a byte.
pub fn guide(b: &[u8], at: usize) -> Guide
    requires { at + 1 < length b.now }
    ensures { result.0 ≡ be16 b.now at }
{
    Guide(be16(b, at))
}
