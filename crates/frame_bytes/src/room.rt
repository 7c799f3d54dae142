// The room that the answer to an accepted frame may take, and the refusals of a frame call, document 01's 11 to 18 and 22.
ghost use Rattle.std.specs.Prelude.{◌≡◌, ◌≤◌, length, drop};
ghost use Rattle.rings.specs.LentRings.{total, ring_room, most_rings};
ghost use Rattle.frame_bytes.specs.Accepted.{frame_reading, part_reading};
ghost use Rattle.frame_bytes.specs.Internal as Internal;
ghost use Rattle.frame_bytes.specs.Frame as Frames;
ghost use Rattle.frame_bytes.specs.Room as OutputRoom;

use super::accepted::{AcceptedFrame, PartBytes};
use super::encode::{ANSWER_COORD, PART};
use super::head::{HEAD, PART_COUNT};
use super::reader::{FrameRefusal, check_frame};
use super::ring::{COORD, COUNT, count_at, ring_at};
use sutherland_hodgman::growth::room_for;
use tile::ring::closed_count;

// The bytes of an answer that lists nothing.
pub const LEAST_ROOM: usize = 5;

// The bytes of a part that is cut, before its rings: those of every listed part, and the ring count.
const CUT_PART: usize = PART + COUNT;

// The room of what was passed over, and where the next thing starts.
#[derive(Clone, Copy)]
struct MeasuredRoom {
    room: usize,
    next: usize,
}

// The room, in coordinates, of the ring at `at`, by its length closed.
fn ring_room(frame: &[u8], at: usize) -> MeasuredRoom
    requires { (at ≤ length frame.now) × Internal.Accepted (Frames.read_ring (drop at frame.now)) }
    ensures { result ≡ Internal.measured_room (length frame.now) ring_room (Frames.read_ring (drop at frame.now)) }
{
    let ring = ring_at(frame, at);
    MeasuredRoom {
        room: room_for(closed_count(ring)),
        next: ring.at + COORD * ring.n,
    }
}

// The room, in coordinates, of `rings` rings, the first of which begins at `start`.
// Stays beside `frame_room`: one loop for both would ask that no sum passes a usize, which the limits of rings and of parts show apart.
fn rings_room(frame: &[u8], start: usize, rings: usize) -> MeasuredRoom
    requires { (start ≤ length frame.now) × (rings ≤ most_rings)
        × Internal.Accepted (Frames.read_many Frames.read_ring rings (drop start frame.now)) }
    ensures { result ≡ Internal.measured_room (length frame.now) (total ring_room)
        (Frames.read_many Frames.read_ring rings (drop start frame.now)) }
{
    let mut room = 0usize;
    let mut at = start;
    for _ in 0..rings {
        let ring = ring_room(frame, at);
        room += ring.room;
        at = ring.next;
    }
    MeasuredRoom { room, next: at }
}

// The room, in bytes, of the part.
fn part_room(part: PartBytes) -> MeasuredRoom
    ensures { result ≡ Internal.measured_room (length part.entry.frame.now) (OutputRoom.part_room OutputRoom.answer_coord_size)
        (part_reading part.entry) }
{
    let rings = count_at(part.frame, part.at);
    let cut = rings_room(part.frame, part.at + COUNT, rings);
    MeasuredRoom {
        room: CUT_PART + COUNT * rings + ANSWER_COORD * cut.room,
        next: cut.next,
    }
}

// The room, in bytes, of an answer to the frame.
pub fn frame_room(frame: AcceptedFrame) -> usize
    ensures { result ≡ Internal.frame_room OutputRoom.answer_coord_size (frame_reading frame.entry) }
{
    let mut room = LEAST_ROOM;
    let mut at = HEAD;
    let parts = count_at(frame.bytes, PART_COUNT);
    for _ in 0..parts {
        let part = PartBytes {
            frame: frame.bytes,
            at,
        };
        let measured = part_room(part);
        room += measured.room;
        at = measured.next;
    }
    room
}

// The refusals of a frame call with an output of `out` bytes, in their order.
pub fn check_call(frame: &[u8], out: usize) -> Result<(), FrameRefusal>
    ensures { result ≡ Internal.check_of (OutputRoom.read_call frame.now out) }
{
    check_frame(frame)?;
    if out < frame_room(AcceptedFrame { bytes: frame }) {
        return Err(FrameRefusal::Output);
    }
    Ok(())
}
