// An opened frame: the caller's bytes beside the trailer, and the parts of them that it shows. A refused file is opened too, with its refusal in place of
// the trailer: it shows nothing, and no function here asks anything of its caller.
ghost use Rattle.std.specs.Prelude.{◌≡◌, IfOk};
ghost use Rattle.spec.specs.Refusal.{numbered};
ghost use Rattle.spec.specs.Frame.{trailer_of};
ghost use Rattle.spec.specs.Checks.{verdict};
ghost use Rattle.frame.specs.Open.{trailer_in, opened, Opens, Shows, ShowsPlane};

use crate::check::check;
use frame_distances::plane_bytes;
use frame_trailer::{own_weights, trailer_of};
use spec::{Refusal, Settings, TRAILER, Trailer};

#[derive(Clone, Copy)]
pub enum Plane {
    Values,
    Guides,
    Table,
}

// n bytes from so far back from the trailer; none where the file has no such part.
pub fn part(file: &[u8], back: usize, n: usize) -> &[u8]
    ensures { Shows file.entry back n result }
{
    if file.len() < TRAILER || file.len() - TRAILER < back || back < n {
        return &file[0..0];
    }
    let start = file.len() - TRAILER - back;
    &file[start..start + n]
}

// A trailer that shows nothing.
const BLANK: Trailer = Trailer {
    settings: Settings {
        width: 0,
        height: 0,
        levels: 0,
        guides: 0,
        kind: 0,
        radius: 0,
        smoothing: 0,
    },
    value: 0,
    guide: 0,
    table: 0,
};

// The trailer of a file that checks 1 to 7 accept.
pub fn read_head(file: &[u8]) -> Result<Trailer, Refusal>
    ensures outcome { numbered result ≡ verdict file.now }
    ensures trailer { IfOk result (λ t. t ≡ trailer_of file.now) }
{
    check(file)?;
    Ok(trailer_of(file))
}

// The bytes of a plane or of the table, by a trailer.
pub fn show(which: Plane, file: &[u8], t: Trailer) -> &[u8]
    ensures { ShowsPlane which file.entry t result }
{
    match which {
        Plane::Values => part(file, t.value, plane_bytes(t.settings)),
        Plane::Guides => part(file, t.guide, plane_bytes(t.settings)),
        Plane::Table => part(file, t.table, 2 * own_weights(t)),
    }
}

// An opened frame: the file, and its trailer or why it is refused.
#[derive(Clone, Copy)]
pub struct Frame<'a> {
    pub file: &'a [u8],
    pub head: Result<Trailer, Refusal>,
}

pub fn open<'a>(file: &'a [u8]) -> Frame<'a>
    ensures bytes { result.file ≡ file.entry }
    ensures head { Opens file.now result.head }
{
    Frame {
        file,
        head: read_head(file),
    }
}

// The bytes of a plane or of the table of an opened frame.
pub fn bytes<'a>(which: Plane, f: Frame<'a>) -> &'a [u8]
    ensures { ShowsPlane which f.entry.file (trailer_in f.entry.head) result }
{
    show(which, f.file, f.head.unwrap_or(BLANK))
}

// The bytes of a plane or of the table of a file.
pub fn plane_of(which: Plane, file: &[u8]) -> &[u8]
    ensures { ShowsPlane which file.entry (opened file.now) result }
{
    bytes(which, open(file))
}
