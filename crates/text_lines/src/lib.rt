// The lines that the program prints: rows of levels, the size, a way with its shift count, a refusal. As in `text`, each function puts a text from a
// place on and gives the place behind it.
#![tactic(auto)]

ghost use Rattle.std.specs.Prelude.{◌+◌, ◌*◌, ◌≤◌, length};
ghost use Rattle.text.specs.Text.{TextRoom, Puts, pieces, follower, row_text, plane_text, size_text, way_text, refusal_text};

use text::{put_byte, put_decimal, put_spaced, put_word};

// The number of the refusal that has an offset.
const CONTENTS: u8 = 7;

// A row of a plane: its levels, and the end of the line.
pub fn put_row(out: &mut [u8], at: usize, plane: &[u16], first: usize, width: usize) -> usize
    requires le_width { (1 ≤ width) × (first + width ≤ length plane.now) }
    requires text_room { TextRoom out.old at (row_text plane.now first width) }
    ensures { Puts out.old out.new at result (row_text plane.now first width) }
{
    let mut next = put_decimal(out, at, u64::from(plane[first]));
    for value in &plane[first + 1..first + width] {
        next = put_spaced(out, next, u64::from(*value));
    }
    put_byte(out, next, b'\n')
}

// The rows of a plane.
pub fn put_rows(out: &mut [u8], at: usize, plane: &[u16], width: usize, height: usize) -> usize
    requires le_width { (1 ≤ width) × (height * width ≤ length plane.now) }
    requires text_room { TextRoom out.old at (plane_text plane.now width height) }
    ensures { Puts out.old out.new at result (plane_text plane.now width height) }
{
    let mut next = at;
    for t in 0..height {
        next = put_row(out, next, plane, t * width, width);
    }
    next
}

// The first line: width and height.
#[tactic(auto, unfolding(text::specs::Text::size_text))]
pub fn put_size(out: &mut [u8], at: usize, width: u64, height: u64) -> usize
    requires { TextRoom out.old at (size_text width height) }
    ensures { Puts out.old out.new at result (size_text width height) }
{
    let second = put_decimal(out, at, width);
    let end = put_spaced(out, second, height);
    put_byte(out, end, b'\n')
}

// A way's word, which ends with a space, and its shift count.
#[tactic(auto, unfolding(text::specs::Text::way_text))]
pub fn put_way(out: &mut [u8], at: usize, word: &[u8], shifts: u64) -> usize
    requires { TextRoom out.old at (way_text word.now shifts) }
    ensures { Puts out.old out.new at result (way_text word.now shifts) }
{
    let second = put_word(out, at, word);
    let end = put_decimal(out, second, shifts);
    put_byte(out, end, b'\n')
}

// A refusal by its number; that of contents with its offset.
#[tactic(auto, unfolding(text::specs::Text::refusal_text, spec::specs::Program::beside))]
pub fn put_refusal(out: &mut [u8], at: usize, number: u8, offset: usize) -> usize
    requires { TextRoom out.old at (refusal_text number offset) }
    ensures { Puts out.old out.new at result (refusal_text number offset) }
{
    let second = put_word(out, at, b"refused ");
    let third = put_decimal(out, second, u64::from(number));
    if number != CONTENTS {
        return put_byte(out, third, b'\n');
    }
    let end = put_spaced(out, third, offset as u64);
    put_byte(out, end, b'\n')
}
