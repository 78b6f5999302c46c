// The types that every contract speaks of. What they mean is in specs/, which uses these same types.
#![tactic(auto)]

ghost use Rattle.std.specs.Prelude.{◌≡◌};
ghost use Rattle.spec.specs.Checks.{judged};
ghost use Rattle.spec.specs.Frame.{new_settings};
ghost use Rattle.spec.specs.Refusal.{number, offset_of};
ghost use Rattle.spec.specs.Walk.{answer_number, by_blocks, shifts_to};

// A level index counts temperature steps. The value of a pixel that has no reading (document 02) is none.
#[derive(Clone, Copy, Debug, PartialEq, Eq, PartialOrd, Ord)]
pub struct Level(pub u16);

// A guide index counts brightness steps.
#[derive(Clone, Copy, Debug, PartialEq, Eq, PartialOrd, Ord)]
pub struct Guide(pub u16);

// A frame's settings, as its trailer has them: kind 1 weighs by a table, kind 2 by the guided formula.
#[derive(Clone, Copy)]
pub struct Settings {
    pub width: u16,
    pub height: u16,
    pub levels: u16,
    pub guides: u16,
    pub kind: u8,
    pub radius: u8,
    pub smoothing: u16,
}

impl Settings {
    pub const RADIUS: u8 = 7;

    pub const SMOOTHING: u16 = 64;

    pub fn new() -> Self
        ensures { result ≡ new_settings }
    {
        Self {
            width: 0,
            height: 0,
            levels: 0,
            guides: 0,
            kind: 2,
            radius: Self::RADIUS,
            smoothing: Self::SMOOTHING,
        }
    }
}

// The bytes of a file's trailer, and the mark that ends them: 49 43 45 31.
pub const TRAILER: usize = 28;

pub const MARK: usize = 0x49434531;

// The settings of a file, and the distances back from its trailer to the planes and the table.
#[derive(Clone, Copy)]
pub struct Trailer {
    pub settings: Settings,
    pub value: usize,
    pub guide: usize,
    pub table: usize,
}

// An accepted file's settings as indices, and where its planes and its table begin; weights is the number of weights that the file itself has, 0 for
// the built-in ones.
#[derive(Clone, Copy)]
pub struct Plan {
    pub width: usize,
    pub height: usize,
    pub levels: usize,
    pub guides: usize,
    pub kind: usize,
    pub radius: usize,
    pub smoothing: usize,
    pub value: usize,
    pub guide: usize,
    pub table: usize,
    pub weights: usize,
}

// Why a call refuses, in the order of the checks; specs/Refusal.antt has the documents' number of each.
#[derive(Clone, Copy, Debug, PartialEq, Eq)]
pub enum Refusal {
    Mark,
    Size,
    Counts,
    Kind,
    Radius,
    Distance,
    // the byte offset of the first number that is too large
    Contents(usize),
    Way,
    Start,
    Moves,
    Room,
    Program,
    // document 02: the plane of upper levels
    Upper,
    // document 02: a part of the file that overlaps the value plane
    Overlap,
    // document 02: the number of files, their lengths, or a period's limit
    Batch,
}

// The ways of counting: document 01's 1, 2 and 3, and document 02's 4.
#[derive(Clone, Copy, Debug, PartialEq, Eq)]
pub enum Way {
    Joint,
    Columns,
    Chain,
    Coarse,
}

// The levels of a block: way 4 counts and adds up by blocks, and the searches pass over them.
pub const BLOCK: u16 = 16;

// A level's block is the level without so many low bits.
pub const BLOCK_BITS: u32 = 4;

const BLOCK_OF_SHIFTS: u64 = BLOCK as u64;

// Why a window has its answer (document 02): the formula of a window that is not steady is negative at one end of the guides, 0 or M - 1; a window
// with no reading is empty.
#[derive(Clone, Copy, Debug, PartialEq, Eq)]
pub enum Cause {
    Ordinary,
    Hollow,
    NegativeAtZero,
    NegativeAtLast,
    Empty,
}

// The grounds of a window's answer: how many pixels the window has, what they weigh, the answer, what the levels below it weigh, and what they weigh
// with it.
#[derive(Clone, Copy)]
pub struct Grounds {
    pub pixels: usize,
    pub total: i64,
    pub answer: Answer,
    pub below: i64,
    pub reached: i64,
    pub cause: Cause,
}

// How many numbers of each store: 16-bit counts, 64-bit occupancy words, 32-bit numbers, and the signed 64-bit weight sums of the summary.
#[derive(Clone, Copy)]
pub struct Room {
    pub counts: usize,
    pub words: usize,
    pub numbers: usize,
    pub summary: usize,
}

// Where a byte of a walk's list leads: to a column and a row, or nowhere, with the mark that answers it.
#[derive(Clone, Copy, Debug, PartialEq, Eq)]
pub enum Move {
    To(usize, usize),
    Nowhere(u16),
}

// The grants so far of a call over up to eight files (document 02): the file that is looked at first, which is the one after the last served; how
// many grants were made; and the pixels answered of each file.
#[derive(Clone, Copy)]
pub struct Round {
    pub next: usize,
    pub granted: u64,
    pub tallies: [usize; 8],
}

// The value of a pixel that has no reading, and the answer of a window that has none (document 02).
pub const NO_READING: u16 = 65535;

// A number as a scan judges it: among values, the one that says there is no reading passes.
pub fn judged(values: bool, number: u16) -> u16
    ensures { result ≡ judged values number }
{
    if values && number == NO_READING {
        return 0;
    }
    number
}

// What a walk answers: a window's level, that the window has no reading, or the mark of a byte that moves nothing.
#[derive(Clone, Copy, Debug, PartialEq, Eq)]
pub enum Answer {
    Level(Level),
    NoReading,
    Mark(u16),
}

// Whether a way's shifts are blocks and levels; else they are levels from the cut point.
pub fn by_blocks(way: Way) -> bool
    ensures { result ≡ by_blocks way }
{
    way == Way::Coarse
}

// The shifts to a level, with the cut point before it.
pub fn shifts_to(blocks: bool, level: Level, cut: Level) -> u64
    ensures { result ≡ shifts_to blocks level.0 cut.0 }
{
    let m = level.0 as u64;
    let c = cut.0 as u64;
    if blocks {
        return m / BLOCK_OF_SHIFTS + m % BLOCK_OF_SHIFTS;
    }
    m.abs_diff(c)
}

// The number that an answer is lent as.
impl From<Answer> for u16 {
    ghost from_gives = { λ answer number. number ≡ answer_number answer };

    fn from(answer: Answer) -> u16 {
        match answer {
            Answer::Level(level) => level.0,
            Answer::NoReading => NO_READING,
            Answer::Mark(mark) => mark,
        }
    }
}

// The documents' number of a refusal.
impl From<Refusal> for u8 {
    ghost from_gives = { λ refusal n. n ≡ number refusal };

    fn from(refusal: Refusal) -> u8 {
        match refusal {
            Refusal::Mark => 1,
            Refusal::Size => 2,
            Refusal::Counts => 3,
            Refusal::Kind => 4,
            Refusal::Radius => 5,
            Refusal::Distance => 6,
            Refusal::Contents(_) => 7,
            Refusal::Way => 8,
            Refusal::Start => 9,
            Refusal::Moves => 10,
            Refusal::Room => 11,
            Refusal::Program => 12,
            Refusal::Upper => 13,
            Refusal::Overlap => 14,
            Refusal::Batch => 15,
        }
    }
}

// The byte offset beside number 7 (0 for the others).
pub fn offset_of(refusal: Refusal) -> usize
    ensures { result ≡ offset_of refusal }
{
    match refusal {
        Refusal::Contents(offset) => offset,
        _ => 0,
    }
}
