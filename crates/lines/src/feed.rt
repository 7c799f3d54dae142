// The line step: an input in blocks of any sizes, of which each line is answered as soon as its newline is there.
ghost use Rattle.std.specs.Prelude.{◌≡◌, ◌+◌, ◌<◌, ◌≤◌, length, take, drop};
ghost use Rattle.frame_bytes.specs.Frame.{longest};
ghost use Rattle.lines.specs.Internal as Internal;
ghost use Rattle.lines.specs.LineStep as LineStep;

use super::answer::{LINE_ROOM, answer_line};
use super::line::{Line, take_line};
use frame_bytes::reader::LONGEST;

// What is known of the line now, how much of the block was taken, and how many bytes were written to the output.
#[derive(Clone, Copy)]
pub struct Fed {
    pub line: Line,
    pub taken: usize,
    pub written: usize,
}

// `kept` or `out` is shorter than the line step asks: nothing was written, nor is it told whether there is a last line.
#[derive(Clone, Copy, Debug, PartialEq, Eq)]
pub struct TooShort;

// What is known of a line before an input is read: nothing, so that no character stands for it.
pub fn start() -> Line
    ensures empty { result ≡ Line.Whole 0 }
    ensures begins { LineStep.Begins result }
{
    Line::Whole(0)
}

// Whether the lent slices are as long as the line step asks: `kept` holds the longest frame, and `out` has room for a line.
fn slices_fit(kept: &[u8], out: &[u8]) -> bool
    ensures answer { result ≡ LineStep.slices_fit kept.now out.now }
{
    if kept.len() < LONGEST {
        return false;
    }
    out.len() >= LINE_ROOM
}

// Takes a block up to and with its first newline, and answers the line that ends there; or takes it to its end. `kept` needs 5,120 bytes
// and `out` LINE_ROOM, 122,881: where one is shorter nothing is taken, so a loop over a block must stop where nothing was taken of some.
// Write out the bytes written before the next call, and lend it the line that was returned and `kept` as it was left; only bytes past the
// line's own may change. Of the returned line the contract says what is printed for an input that goes on from it: among lines of which
// that is the same, which is returned is free.
// Stays 0 of taken where a slice is short: a call that can't fail stays one, and taken has this meaning for callers.
pub fn feed(block: &[u8], line: Line, kept: &mut [u8], out: &mut [u8]) -> Fed
    ensures feeds { LineStep.Feeds block.now line kept.old out.old
        result.taken result.written result.line kept.new out.new }
{
    if !slices_fit(kept, out) {
        return Fed {
            line,
            taken: 0,
            written: 0,
        };
    }
    let place = take_line(block, line, kept);
    let reached = place.line;
    let at = place.at;
    if at < block.len() {
        let written = answer_line(reached, kept, out);
        return Fed {
            line: start(),
            taken: at + 1,
            written,
        };
    }
    Fed {
        line: reached,
        taken: at,
        written: 0,
    }
}

// One line more: from a place of the block on, behind what waits in the output.
// Stays with what waits beside: that it stays as it was is said of the whole output.
fn feed_from(
    block: &[u8],
    from: usize,
    line: Line,
    kept: &mut [u8],
    out: &mut [u8],
    waiting: usize,
) -> Fed
    requires { (from < length block.now) × (longest ≤ length kept.old) × (waiting + LineStep.line_room ≤ length out.old) }
    ensures prints { LineStep.Prints (take result.taken (drop from block.now)) line kept.old
        (drop waiting out.old) result.written result.line kept.new (drop waiting out.new) }
    ensures stays { take waiting out.new ≡ take waiting out.old }
    ensures taken { (0 < result.taken) × (from + result.taken ≤ length block.now) }
{
    feed(&block[from..], line, kept, &mut out[waiting..])
}

// Answers every line that ends in the block, as long as the output has room for one more: a write for each would cost more than the answer.
// Stays a `while`: each line says how much of the block it took.
pub fn feed_lines(block: &[u8], line: Line, kept: &mut [u8], out: &mut [u8]) -> Fed
    requires { (longest ≤ length kept.old) × (LineStep.line_room ≤ length out.old) }
    ensures feeds { Internal.FeedsLines block.now line kept.old out.old
        result.taken result.written result.line kept.new out.new }
{
    let mut known = line;
    let mut from = 0usize;
    let mut waiting = 0usize;
    while from < block.len() {
        if out.len() - waiting < LINE_ROOM {
            return Fed {
                line: known,
                taken: from,
                written: waiting,
            };
        }
        let fed = feed_from(block, from, known, kept, out, waiting);
        known = fed.line;
        from += fed.taken;
        waiting += fed.written;
    }
    Fed {
        line: known,
        taken: from,
        written: waiting,
    }
}

fn is_not_begun(line: Line) -> bool
    ensures answer { result ≡ Internal.not_begun line }
{
    matches!(line, Line::Whole(0))
}

// Writes what the end of the input prints, a last line without a newline, and answers how many bytes that is, 0 where there is no last
// line. Where a slice is too short it writes nothing, and says so: then it may be called again with slices that are long enough, so that
// the last line is not lost.
pub fn finish(line: Line, kept: &[u8], out: &mut [u8]) -> Result<usize, TooShort>
    ensures answer { result ≡ LineStep.finish_answer line kept.now out.old }
    ensures output { out.new ≡ LineStep.finish_output line kept.now out.old }
    ensures room { LineStep.bytes_written result ≤ length out.old }
{
    if !slices_fit(kept, out) {
        return Err(TooShort);
    }
    if is_not_begun(line) {
        return Ok(0);
    }
    Ok(answer_line(line, kept, out))
}
