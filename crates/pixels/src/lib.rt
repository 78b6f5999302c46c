// A line's live pixels, read once into a list. What counts pixels (sums, tally, histogram, joint store, linked list) goes by such lists and knows
// neither file nor border nor dead pixels.
#![tactic(auto)]

pub mod store;
pub mod sums;

ghost use Rattle.std.specs.Prelude.{◌≡◌, ◌≤◌, length, take, []};
ghost use Rattle.spec.specs.Checks.{Planned, Pictured};
ghost use Rattle.window.specs.Line.{InPlanes};
ghost use Rattle.pixels.specs.Pixels.{LinePixels};

use spec::{Guide, Level, NO_READING, Plan};
use window::line::Line;
use window::pixel;

// A pixel of a line. A live one's value is its level. A dead one's says that there is no reading: it stands in a list only while the line is read.
#[derive(Clone, Copy)]
pub struct Pixel {
    pub value: u16,
    pub guide: Guide,
}

impl Pixel {
    // What a list has before a line is read into it.
    pub const NONE: Self = Pixel {
        value: 0,
        guide: Guide(0),
    };

    pub fn level(self) -> Level
        ensures { result.0 ≡ self.value }
    {
        Level(self.value)
    }
}

// A line's live pixels, one after the other, of the file or of a plane in place of its values: each is written, and a dead one written over, so that
// no branch goes by the reading.
fn read_live(file: &[u8], plane: &[u16], plan: Plan, line: Line, pixels: &mut [Pixel]) -> usize
    requires { (Pictured file.now plane.now plan) × (InPlanes plan line) × (31 ≤ length pixels.old) }
    ensures { (result ≤ 31) × (LinePixels file.now plane.now plan line (take result pixels.new)) }
{
    let mut live = 0;
    for k in 0..line.count {
        let q = line.first + k * line.stride;
        let value = pixel::value_in(file, plane, plan, q);
        let guide = pixel::guide_at(file, plan, q);
        pixels[live] = Pixel { value, guide };
        if value != NO_READING {
            live += 1;
        }
    }
    live
}

// The line's live pixels into the first places; how many they are. First all pixels are copied and their values added up: a sum below that of one
// dead pixel says that there is none, as in most lines, and then they stand as they should; the largest sum that they can have says that all are.
pub fn read(file: &[u8], plan: Plan, line: Line, pixels: &mut [Pixel]) -> usize
    requires { (Planned file.now plan) × (InPlanes plan line) × (31 ≤ length pixels.old) }
    ensures { (result ≤ 31) × (LinePixels file.now [] plan line (take result pixels.new)) }
{
    let mut total: usize = 0;
    for k in 0..line.count {
        let q = line.first + k * line.stride;
        let value = pixel::value_at(file, plan, q);
        let guide = pixel::guide_at(file, plan, q);
        pixels[k] = Pixel { value, guide };
        total += value as usize;
    }
    if total < NO_READING as usize {
        return line.count;
    }
    if total == line.count * NO_READING as usize {
        return 0;
    }
    read_live(file, &[], plan, line, pixels)
}

// The same with the values of a plane in place of the file's own, where one is given. The choice is made once for a line, so that a line of the file
// is read by the loop above.
pub fn read_in(file: &[u8], plane: &[u16], plan: Plan, line: Line, pixels: &mut [Pixel]) -> usize
    requires { (Pictured file.now plane.now plan) × (InPlanes plan line) × (31 ≤ length pixels.old) }
    ensures { (result ≤ 31) × (LinePixels file.now plane.now plan line (take result pixels.new)) }
{
    if plane.is_empty() {
        return read(file, plan, line, pixels);
    }
    read_live(file, plane, plan, line, pixels)
}
