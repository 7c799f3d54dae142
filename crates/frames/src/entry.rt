// The frame call: the bytes of a frame, and an output. It is open to callers and refuses what it can't read.
ghost use Rattle.std.specs.Prelude.{◌≡◌, ◌≤◌, length};
ghost use Rattle.frame_bytes.specs.Accepted.{frame_reading};
ghost use Rattle.frame_bytes.specs.Frame as Frames;
ghost use Rattle.frame_bytes.specs.Internal as FrameBytesInternal;
ghost use Rattle.frame_bytes.specs.Room as OutputRoom;
ghost use Rattle.frames.specs.Output.{frame_call_output};
ghost use Rattle.frames.specs.Internal as Internal;
ghost use Rattle.frames.specs.FrameCall.{frame_call_answer};

use super::parts::{answer_in, put_alone};
use clip::polygon::AnswerKind;
use frame_bytes::accepted::{AcceptedFrame, PartBytes};
use frame_bytes::head::{HEAD, Head, read_head};
use frame_bytes::measure::whole_rect;
use frame_bytes::reader::{FrameKind, FrameRefusal};
use frame_bytes::room::check_call;
use frame_bytes::simple::is_sound_if_simple;
use rings::rectangle::{Rect, intersects_bounds, is_fully_inside};
use tile::TileBounds;

// The longest frames of which every ring, closed, has at most 6, 32 and 81 coordinates: the smaller sizes of working arrays.
const SMALL: usize = 143;

const MEDIUM: usize = 559;

const LARGE: usize = 1343;

// In arrays for rings of up to m coordinates, closed: 2 m numbers for the ring, 2 B(m) each for the cutter's scratch slice and its output,
// B(m) each for their origins, B(m) positions.
fn answer_with<const RING: usize, const WORK: usize, const ORIGINS: usize>(
    frame: AcceptedFrame,
    head: Head,
    rect: Rect,
    bounds: TileBounds,
    out: &mut [u8],
) -> usize
    requires cuttable { Internal.Cuttable frame head (length out.old) }
    requires room { Internal.RoomFor (length frame.bytes.now) RING WORK ORIGINS }
    ensures { Internal.Answers (Internal.answer_measured head rect bounds
        (Internal.parts_of (frame_reading frame.entry))) out.old result out.new }
{
    let mut ring = [0.0; RING];
    let mut a = [0.0; WORK];
    let mut a_origins = [0u16; ORIGINS];
    let mut b = [0.0; WORK];
    let mut b_origins = [0u16; ORIGINS];
    let mut order = [0u32; ORIGINS];
    answer_in(
        frame.bytes,
        head,
        rect,
        bounds,
        &mut ring,
        &mut a,
        &mut a_origins,
        &mut b,
        &mut b_origins,
        &mut order,
        out,
    )
}

// By the size of the frame, with m of 6, 32, 81 and 318, which no ring of the longest frame passes: clearing arrays for the longest ring
// costs more than cutting a short one.
// Stays a clause, here, above and below, what is known of the head: it relates a frame, its head and the output, and no value holds these.
fn answer_sized(
    frame: AcceptedFrame,
    head: Head,
    rect: Rect,
    bounds: TileBounds,
    out: &mut [u8],
) -> usize
    requires { Internal.Cuttable frame head (length out.old) }
    ensures { Internal.Answers (Internal.answer_measured head rect bounds
        (Internal.parts_of (frame_reading frame.entry))) out.old result out.new }
{
    if frame.bytes.len() <= SMALL {
        return answer_with::<12, 60, 30>(frame, head, rect, bounds, out);
    }
    if frame.bytes.len() <= MEDIUM {
        return answer_with::<64, 328, 164>(frame, head, rect, bounds, out);
    }
    if frame.bytes.len() <= LARGE {
        return answer_with::<162, 816, 408>(frame, head, rect, bounds, out);
    }
    answer_with::<636, 3220, 1610>(frame, head, rect, bounds, out)
}

// Whether the frame is unchanged, as far as that is told without an array: a multipolygon inside as a whole, which has no issue check, or a
// polygon inside whose exterior is assumed to be simple and has no other issue.
fn is_unchanged_at_once(frame: AcceptedFrame, head: Head, rect: Rect, bounds: TileBounds) -> bool
    requires { head ≡ Frames.head_of frame.bytes.now }
    ensures { result ≡ Internal.unchanged_at_once head rect bounds (Internal.parts_of (frame_reading frame.entry)) }
{
    if !is_fully_inside(rect, bounds) {
        return false;
    }
    if head.kind == FrameKind::Multipolygon as u8 {
        return true;
    }
    let part = PartBytes {
        frame: frame.bytes,
        at: HEAD,
    };
    head.assume_simple && is_sound_if_simple(part)
}

// The answer to a frame whose rectangle is rect: what is apart, and what is unchanged without a search for crossings, is answered before
// there is any array.
fn answer_measured(frame: AcceptedFrame, head: Head, rect: Rect, out: &mut [u8]) -> usize
    requires { Internal.Cuttable frame head (length out.old)
        × (rect ≡ FrameBytesInternal.frame_rect (frame_reading frame)) }
    ensures { Internal.Answers (Internal.answer_read (frame_reading frame.entry)) out.old result
        out.new }
{
    let bounds = head.bounds.buffered(head.buffer);
    if !intersects_bounds(rect, bounds) {
        return put_alone(out, AnswerKind::Nothing as u8, 0);
    }
    if is_unchanged_at_once(frame, head, rect, bounds) {
        return put_alone(out, AnswerKind::Unchanged as u8, 0);
    }
    answer_sized(frame, head, rect, bounds, out)
}

// Writes the answer to an accepted frame and tells how many bytes it has.
#[inline(never)]
fn answer(frame: AcceptedFrame, out: &mut [u8]) -> usize
    requires { FrameBytesInternal.frame_room OutputRoom.answer_coord_size (frame_reading frame) ≤ length out.old }
    ensures { Internal.Answers (Internal.answer_read (frame_reading frame.entry)) out.old result
        out.new }
{
    let head = read_head(frame.bytes);
    match whole_rect(frame) {
        Rect::Nothing => put_alone(out, AnswerKind::Nothing as u8, 0),
        Rect::NotFinite => put_alone(out, AnswerKind::Dropped as u8, 1),
        Rect::Box(w, s, e, n) => {
            let rect = Rect::Box(w, s, e, n);
            answer_measured(frame, head, rect, out)
        }
    }
}

// Answers a refusal, or the count of the answer's bytes. A refusal leaves the output as it was; an answer stands at its front, and what
// lies past it stays.
pub fn frame(frame: &[u8], out: &mut [u8]) -> Result<usize, FrameRefusal>
    ensures answer { result ≡ frame_call_answer frame.now out.old }
    ensures lent { out.new ≡ frame_call_output frame.now out.old }
{
    check_call(frame, out.len())?;
    let accepted = AcceptedFrame { bytes: frame };
    Ok(answer(accepted, out))
}
