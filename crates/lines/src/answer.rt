// The answer to a line that has ended, as bytes and as a line.
ghost use Rattle.std.specs.Prelude.{◌≡◌, ◌≤◌, length};
ghost use Rattle.binary64.specs.Slices.{over};
ghost use Rattle.frame_bytes.specs.Room.{least_room};
ghost use Rattle.lines.specs.Internal as Internal;
ghost use Rattle.lines.specs.LineStep as LineStep;
ghost use Rattle.lines.specs.Lines as Lines;

use super::digits::to_line;
use super::line::Line;
use frame_bytes::reader::{FrameRefusal, LONGEST};
use frames::entry::frame;
use frames::parts::put_alone;

// Document 01's refusal 10.
// Stays a number: no frame is refused so, and it is written where a frame's refusal has its own.
const NOT_PAIRS: u8 = 10;

// The room for an answer's bytes, and for the answer as a line.
const ANSWER_ROOM: usize = 12 * LONGEST;

pub const LINE_ROOM: usize = 2 * ANSWER_ROOM + 1;

// Stays a clause, the room of a line: it is asked of the caller's own array.

// Writes a refusal's bytes: its number stands where an answer that lists nothing has its own.
fn refuse(out: &mut [u8], number: u8) -> usize
    requires { least_room ≤ length out.old }
    ensures answer { result ≡ length (Lines.refusal_bytes number) }
    ensures output { out.new ≡ over (Lines.refusal_bytes number) out.old }
{
    put_alone(out, number, 0)
}

fn answer_frame(bytes: &[u8], out: &mut [u8]) -> usize
    requires { LineStep.answer_room ≤ length out.old }
    ensures answer { result ≡ length (Lines.frame_answer bytes.now) }
    ensures output { out.new ≡ over (Lines.frame_answer bytes.now) out.old }
{
    match frame(bytes, out) {
        Err(refusal) => refuse(out, u8::from(refusal)),
        Ok(count) => count,
    }
}

// Writes the bytes that a line is answered where it ends.
fn answer(line: Line, kept: &[u8], out: &mut [u8]) -> usize
    requires { LineStep.answer_room ≤ length out.old }
    ensures answer { result ≡ length (Internal.end_answer (Internal.state_of line kept.now)) }
    ensures output { out.new ≡ over (Internal.end_answer (Internal.state_of line kept.now)) out.old }
{
    match line {
        Line::Whole(bytes) => {
            if bytes < kept.len() {
                return answer_frame(&kept[..bytes], out);
            }
            answer_frame(kept, out)
        }
        Line::Long(odd) => {
            if odd {
                return refuse(out, NOT_PAIRS);
            }
            refuse(out, u8::from(FrameRefusal::Size))
        }
        Line::NotDigits => refuse(out, NOT_PAIRS),
        Line::Half(_, _) => refuse(out, NOT_PAIRS),
    }
}

// Writes that answer as a line, and answers how long it is.
pub fn answer_line(line: Line, kept: &[u8], out: &mut [u8]) -> usize
    requires { LineStep.line_room ≤ length out.old }
    ensures answer { result ≡ length (Internal.end_line (Internal.state_of line kept.now)) }
    ensures output { out.new ≡ over (Internal.end_line (Internal.state_of line kept.now)) out.old }
{
    let count = answer(line, kept, &mut out[..ANSWER_ROOM]);
    to_line(out, count)
}
