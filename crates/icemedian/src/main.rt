// icemedian: a frame from standard input, its text to standard output. It only reads and writes; crate program makes the text.
#![tactic(auto)]

ghost use Rattle.std.specs.Prelude.{◌≤◌, IfOk, length};

use program::{ROOM, respond};
use std::io;
use std::io::{Read, Write};

// One byte more than check 12 lets pass: it already decides, so that longer or endless input is read no further.
const READ: usize = 16385;

// Bytes into the buffer until it is full or the reader has no more; how many there are.
fn read_full<R: Read>(reader: &mut R, input: &mut [u8; READ]) -> io::Result<usize>
    ensures { IfOk result (λ n. n ≤ length input.new) }
{
    let mut n = 0;
    // no `for`, since the reader says how far each read comes
    while n < input.len() {
        let got = reader.read(&mut input[n..])?;
        if got == 0 {
            break;
        }
        n += got;
    }
    Ok(n)
}

fn main(rt: HostRuntime) -> io::Result<()> {
    let mut input = [0u8; READ];
    let n = read_full(&mut rt.stdin().lock(), &mut input)?;
    let mut out = [0u8; ROOM];
    let length = respond(&input[..n], &mut out);
    rt.stdout().write_all(&out[..length])
}
