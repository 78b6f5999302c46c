// The text that the program icemedian writes for the bytes that it read, put into a lent buffer. Any bytes are taken.
#![tactic(auto)]

mod answer;

ghost use Rattle.std.specs.Prelude.{◌≡◌, ◌++◌, ◌≤◌, length, drop};
ghost use Rattle.spec.specs.Refusal.{number, offset_of};
ghost use Rattle.spec.specs.Program.{printed};
ghost use Rattle.text.specs.Text.{Puts, refusal_text};
ghost use Rattle.program.specs.Answer.{longest};

use program_checks::judge;
use spec::{Refusal, offset_of};
use text_lines::put_refusal;

// The longest text, in bytes: the buffer's length.
pub const ROOM: usize = 49280;

// The line of a refusal.
fn put_refused(out: &mut [u8], e: Refusal) -> usize
    requires { longest ≤ length out.old }
    ensures { Puts out.old out.new 0 result (refusal_text (number e) (offset_of e)) }
{
    put_refusal(out, 0, u8::from(e), offset_of(e))
}

// What the program writes for its input: the text, from the buffer's first byte on; the result is its length.
pub fn respond(input: &[u8], out: &mut [u8; ROOM]) -> usize
    ensures value { result ≡ length (printed input.now) }
    ensures out_after { out.new ≡ printed input.now ++ drop (length (printed input.now)) out.old }
{
    match judge(input) {
        Ok(plan) => answer::put_answer(out, input, plan),
        Err(e) => put_refused(out, e),
    }
}
