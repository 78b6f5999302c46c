// The calls of docs/RATTLE.md, executed: document 01's frame written, opened and shown, the same frame refused, with a dead pixel and with a value
// that is no level, and built-in weights.
#![tactic(auto)]

use big_endian::be16;
use frame::open;
use frame::open::Plane;
use frame_weights::built_in;
use spec::{Guide, NO_READING, Refusal, Settings, offset_of};
use std::io;

fn text(rt: &HostRuntime, s: &str) -> io::Result<()> {
    rt.print(s)
}

fn number(rt: &HostRuntime, n: usize) -> io::Result<()> {
    print!(rt; " {n}")
}

// The 16-bit numbers of a list of bytes.
fn numbers(rt: &HostRuntime, name: &str, part: &[u8]) -> io::Result<()> {
    text(rt, name)?;
    for k in 0..part.len() / 2 {
        number(rt, be16(part, 2 * k) as usize)?;
    }
    text(rt, "\n")
}

// Document 01's frame: 3 by 1, kind 2. There the first value is 5.
fn sample(first: u16, out: &mut [u8]) -> Result<usize, Refusal> {
    let settings = Settings {
        width: 3,
        height: 1,
        levels: 8,
        guides: 4,
        radius: 1,
        smoothing: 1,
        ..Settings::new()
    };
    let values: [u16; 3] = [first, 1, 3];
    let guides: [u16; 3] = [0, 0, 2];
    let table: [u16; 0] = [];
    frame_write::write(settings, &values, &guides, &table, out)
}

// The value of the first pixel; 0 where the file is refused, and so shows nothing.
fn first_value(file: &[u8]) -> u16 {
    let plane = open::plane_of(Plane::Values, file);
    if plane.len() < 2 {
        return 0;
    }
    be16(plane, 0)
}

// The parts that the opened frame shows.
fn parts(rt: &HostRuntime, file: &[u8]) -> io::Result<()> {
    numbers(rt, "values", open::plane_of(Plane::Values, file))?;
    numbers(rt, "guides", open::plane_of(Plane::Guides, file))?;
    numbers(rt, "table", open::plane_of(Plane::Table, file))?;
    text(rt, "first value")?;
    number(rt, first_value(file) as usize)?;
    text(rt, "\n")
}

// Window F of the bench, and a difference that no frame has.
fn weights(rt: &HostRuntime) -> io::Result<()> {
    text(rt, "built-in")?;
    number(rt, built_in(Guide(0), Guide(0)) as usize)?;
    number(rt, built_in(Guide(0), Guide(1)) as usize)?;
    number(rt, built_in(Guide(255), Guide(0)) as usize)?;
    number(rt, built_in(Guide(0), Guide(4080)) as usize)?;
    text(rt, "\n")
}

// What the writer answers.
fn told(rt: &HostRuntime, written: Result<usize, Refusal>) -> io::Result<()> {
    match written {
        Ok(n) => {
            text(rt, "length")?;
            number(rt, n)?;
        }
        Err(e) => {
            text(rt, "refused")?;
            number(rt, u8::from(e) as usize)?;
            number(rt, offset_of(e))?;
        }
    }
    text(rt, "\n")
}

fn main(rt: HostRuntime) -> io::Result<()> {
    let mut output = [170u8; 44];
    told(&rt, sample(5, &mut output))?;
    numbers(&rt, "bytes", &output)?;
    parts(&rt, &output[0..40])?;
    text(&rt, "from its second byte on\n")?;
    parts(&rt, &output[1..40])?;
    text(&rt, "with a dead pixel\n")?;
    told(&rt, sample(NO_READING, &mut output))?;
    parts(&rt, &output[0..40])?;
    text(&rt, "with a value that is no level\n")?;
    told(&rt, sample(65534, &mut output))?;
    weights(&rt)
}
