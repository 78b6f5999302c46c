// Text in a lent buffer of bytes: bytes, words and numbers. Each function puts a text from a place on and gives the place behind it; the caller shows
// that the buffer has room.
// Assumes nothing.
#![tactic(auto)]

ghost use Rattle.std.specs.Prelude.{[], ◌∷◌};
ghost use Rattle.spec.specs.Program.{decimal};
ghost use Rattle.text.specs.Text.{TextRoom, Puts, spaced_one};

// One byte.
pub fn put_byte(out: &mut [u8], at: usize, b: u8) -> usize
    requires { TextRoom out.old at (b ∷ []) }
    ensures { Puts out.old out.new at result (b ∷ []) }
{
    out[at] = b;
    at + 1
}

// The bytes of a word.
pub fn put_word(out: &mut [u8], at: usize, word: &[u8]) -> usize
    requires { TextRoom out.old at word.now }
    ensures { Puts out.old out.new at result word.now }
{
    let end = at + word.len();
    out[at..end].copy_from_slice(word);
    end
}

// A number in decimal: the digits before the last one by the same function, which needs no array of its own.
pub fn put_decimal(out: &mut [u8], at: usize, n: u64) -> usize
    requires { TextRoom out.old at (decimal n) }
    ensures { Puts out.old out.new at result (decimal n) }
{
    let last = b'0' + (n % 10) as u8;
    if n < 10 {
        return put_byte(out, at, last);
    }
    let next = put_decimal(out, at, n / 10);
    put_byte(out, next, last)
}

// A number behind another in a line.
pub fn put_spaced(out: &mut [u8], at: usize, n: u64) -> usize
    requires { TextRoom out.old at (spaced_one n) }
    ensures { Puts out.old out.new at result (spaced_one n) }
{
    let next = put_byte(out, at, b' ');
    put_decimal(out, next, n)
}
