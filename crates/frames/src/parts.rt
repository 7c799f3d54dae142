// The parts of a frame, one after the other: what is listed of each, and the guard count.
ghost use Rattle.std.specs.Prelude.{◌≡◌, ◌+◌, ◌≤◌, length};
ghost use Rattle.std.proofs.lemmas.List.Edits.{sets};
ghost use Rattle.frame_bytes.specs.Accepted.{rings_of};
ghost use Rattle.frame_bytes.specs.Frame as Frames;
ghost use Rattle.frame_bytes.specs.Room as OutputRoom;
ghost use Rattle.frame_bytes.specs.Encoding as Encoding;
ghost use Rattle.frame_parts.specs.Internal as PartInternal;
ghost use Rattle.frames.specs.Answer as Answers;
ghost use Rattle.frames.specs.Internal as Internal;

use clip::polygon::{AnswerKind, Flags};
use frame_bytes::accepted::PartBytes;
use frame_bytes::encode::{PART, put_header, put_part};
use frame_bytes::head::{HEAD, Head};
use frame_bytes::measure::part_rect;
use frame_bytes::reader::FrameKind;
use frame_bytes::room::LEAST_ROOM;
use frame_parts::{PartAnswer, route_part};
use rings::rectangle::{Rect, intersects_bounds, is_fully_inside};
use tile::TileBounds;

// Stays six working slices with their room in the clauses: two fields behind one `&mut` can't be lent in one call.

// What is listed so far: the guard count, how many parts, and where the next stands in the output.
#[derive(Clone, Copy)]
struct ListedSoFar {
    guard: usize,
    parts: usize,
    next: usize,
}

// The listing with one more part; one that is unchanged is still to be written.
fn list_part(answer: PartAnswer, index: usize, out: &mut [u8], before: ListedSoFar) -> ListedSoFar
    requires { (before.next + 4 ≤ length out.old) × Internal.Few index before }
    ensures { (result ≡ Internal.with_part answer before)
        × (out.new ≡ sets out.old before.next (Internal.unchanged_bytes index answer)) }
{
    match answer {
        PartAnswer::Nothing => before,
        PartAnswer::Dropped => ListedSoFar {
            guard: before.guard + 1,
            parts: before.parts,
            next: before.next,
        },
        PartAnswer::Unchanged => {
            let at = before.next;
            put_part(out, at, index, AnswerKind::Unchanged as u8, 0);
            ListedSoFar {
                guard: before.guard,
                parts: before.parts + 1,
                next: at + PART,
            }
        }
        PartAnswer::Listed(next) => ListedSoFar {
            guard: before.guard,
            parts: before.parts + 1,
            next,
        },
    }
}

// One part of a multipolygon, routed as if rect were its rectangle, and listed. What the working slices hold afterwards is open.
fn add_part(
    part: PartBytes,
    index: usize,
    flags: Flags,
    rect: Rect,
    bounds: TileBounds,
    ring: &mut [f64],
    a: &mut [f64],
    a_origins: &mut [u16],
    b: &mut [f64],
    b_origins: &mut [u16],
    order: &mut [u32],
    out: &mut [u8],
    before: ListedSoFar,
) -> ListedSoFar
    requires { PartInternal.PartRoom (rings_of part)
        (PartInternal.lengths_of ring.old a.old a_origins.old b.old b_origins.old) (length out.old) before.next
        × PartInternal.PositionsRoom (rings_of part) (length order.old) × Internal.Few index before }
    ensures { Internal.Lists (Internal.listing_of
        (Internal.part_as index flags rect bounds (rings_of part.entry))) before out.old result
        out.new }
{
    if !intersects_bounds(rect, bounds) {
        return before;
    }
    if is_fully_inside(rect, bounds) {
        return list_part(PartAnswer::Unchanged, index, out, before);
    }
    let to = before.next;
    let answer = route_part(
        part, index, flags, rect, bounds, ring, a, a_origins, b, b_origins, order, out, to,
    );
    list_part(answer, index, out, before)
}

// Lists the parts of a multipolygon from the header's end on.
fn list_parts(
    frame: &[u8],
    parts: usize,
    flags: Flags,
    bounds: TileBounds,
    ring: &mut [f64],
    a: &mut [f64],
    a_origins: &mut [u16],
    b: &mut [f64],
    b_origins: &mut [u16],
    order: &mut [u32],
    out: &mut [u8],
) -> ListedSoFar
    requires { Internal.PartsRoom frame.now Frames.head_bytes parts
        (PartInternal.lengths_of ring.old a.old a_origins.old b.old b_origins.old) (length order.old) (length out.old)
        OutputRoom.least_room × (parts ≤ Frames.most_parts) }
    ensures { Internal.Lists (Answers.list_parts flags bounds 0
        (Internal.parts_from frame.now Frames.head_bytes parts))
        (record { guard = 0; parts = 0; next = OutputRoom.least_room }) out.old result out.new }
{
    let mut listing = ListedSoFar {
        guard: 0,
        parts: 0,
        next: LEAST_ROOM,
    };
    let mut at = HEAD;
    for i in 0..parts {
        let part = PartBytes { frame, at };
        let measured = part_rect(part, Rect::Nothing);
        let rect = measured.rect;
        listing = add_part(
            part, i, flags, rect, bounds, ring, a, a_origins, b, b_origins, order, out, listing,
        );
        at = measured.next;
    }
    listing
}

// Writes the header before what is listed, and answers how many bytes the answer has.
fn finish(listing: ListedSoFar, out: &mut [u8]) -> usize
    requires { OutputRoom.least_room ≤ length out.old }
    ensures { (result ≡ Internal.finished_length listing)
        × (out.new ≡ sets out.old 0 (Internal.finished_header listing)) }
{
    if listing.parts == 0 {
        put_header(out, AnswerKind::Nothing as u8, listing.guard, 0);
        return LEAST_ROOM;
    }
    put_header(out, AnswerKind::Listed as u8, listing.guard, listing.parts);
    listing.next
}

// Writes an answer that lists nothing.
pub fn put_alone(out: &mut [u8], number: u8, guard: usize) -> usize
    requires { OutputRoom.least_room ≤ length out.old }
    ensures { (result ≡ OutputRoom.least_room) × (out.new ≡ sets out.old 0 (Encoding.header_bytes number guard 0)) }
{
    put_header(out, number, guard, 0);
    LEAST_ROOM
}

// Writes the header of a polygon's answer, by its only part, before what is listed, and answers how many bytes the answer has.
fn finish_polygon(answer: PartAnswer, out: &mut [u8]) -> usize
    requires { OutputRoom.least_room ≤ length out.old }
    ensures { (result ≡ Internal.polygon_length answer)
        × (out.new ≡ sets out.old 0 (Internal.polygon_header answer)) }
{
    match answer {
        PartAnswer::Nothing => put_alone(out, AnswerKind::Nothing as u8, 0),
        PartAnswer::Dropped => put_alone(out, AnswerKind::Dropped as u8, 1),
        PartAnswer::Unchanged => put_alone(out, AnswerKind::Unchanged as u8, 0),
        PartAnswer::Listed(next) => {
            put_header(out, AnswerKind::Listed as u8, 0, 1);
            next
        }
    }
}

// The answer to a frame as if rect were its rectangle, in the working slices lent: a polygon is routed, and the parts of a multipolygon are
// listed. A polygon that is not finite is dropped before. What the working slices hold afterwards is open.
pub fn answer_in(
    frame: &[u8],
    head: Head,
    rect: Rect,
    bounds: TileBounds,
    ring: &mut [f64],
    a: &mut [f64],
    a_origins: &mut [u16],
    b: &mut [f64],
    b_origins: &mut [u16],
    order: &mut [u32],
    out: &mut [u8],
) -> usize
    requires { Internal.PartsReady frame.now head
        (PartInternal.lengths_of ring.old a.old a_origins.old b.old b_origins.old) (length order.old) (length out.old) }
    ensures { Internal.Answers (Internal.answer_measured head rect bounds
        (Internal.parts_from frame.now Frames.head_bytes head.parts)) out.old result out.new }
{
    let flags = Flags {
        assume_simple: head.assume_simple,
        skip_boundary_fallback: head.skip_boundary_fallback,
    };
    if head.kind == FrameKind::Polygon as u8 {
        let part = PartBytes { frame, at: HEAD };
        let answer = route_part(
            part, 0, flags, rect, bounds, ring, a, a_origins, b, b_origins, order, out, LEAST_ROOM,
        );
        return finish_polygon(answer, out);
    }
    let listing = list_parts(
        frame, head.parts, flags, bounds, ring, a, a_origins, b, b_origins, order, out,
    );
    finish(listing, out)
}
