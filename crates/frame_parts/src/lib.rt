// One part of a frame, as a polygon: routed by its exterior, cut, and what is listed of it written to the output.
#![tactic(auto)]

ghost use Rattle.std.specs.Prelude.{◌≡◌, [], ◌+◌, ◌*◌, ◌≤◌, length};
ghost use Rattle.std.proofs.lemmas.List.Edits.{sets};
ghost use Rattle.rings.specs.LentRings.{exterior, most_rings};
ghost use Rattle.clip.specs.Internal as ClipInternal;
ghost use Rattle.clip.specs.Polygon as Polygon;
ghost use Rattle.frame_bytes.specs.Accepted.{rings_of};
ghost use Rattle.frame_bytes.specs.Internal as FrameBytesInternal;
ghost use Rattle.frame_bytes.specs.Room as OutputRoom;
ghost use Rattle.frame_parts.specs.Internal as Internal;
ghost use Rattle.frame_parts.specs.Part as Parts;

use clip::polygon::{AnswerKind, Flags, Reason, ReasonDetail, Route, clip_hole, route_exterior};
use frame_bytes::accepted::PartBytes;
use frame_bytes::encode::{PART, put_count, put_part, put_ring};
use frame_bytes::measure::part_has_huge;
use frame_bytes::ring::{COORD, COUNT, count_at, decode_ring, ring_at};
use rings::rectangle::Rect;
use tile::TileBounds;

// What becomes of a part; a listed one is written, and the next stands at the given place of the output.
#[derive(Clone, Copy)]
pub enum PartAnswer {
    Nothing,
    Dropped,
    Unchanged,
    Listed(usize),
}

// Stays six working slices with their room in the clauses: two fields behind one `&mut` can't be lent in one call.

// How far the rings of a part are written: how many, and where the next stands in the output.
#[derive(Clone, Copy)]
struct RingCursor {
    rings: usize,
    next: usize,
}

// Writes the cut ring of n coordinates at the front of a slice, whose origins stand at the front of another; one without coordinates is
// left out.
// Stays with a count beside: clip_hole leaves a ring and its origins at the fronts of longer slices, and one count is that of both.
fn put_cut_ring(
    ring: &[f64],
    origins: &[u16],
    n: usize,
    out: &mut [u8],
    at: RingCursor,
) -> RingCursor
    requires { (2 * n ≤ length ring.now) × (n ≤ length origins.now)
        × (at.next + 2 + OutputRoom.answer_coord_size * n ≤ length out.old) × (at.rings ≤ most_rings) }
    ensures { Internal.PutRings
        (Polygon.unless_none (FrameBytesInternal.front_answer_coords ring.now origins.now n) []) at out.old result
        out.new }
{
    if n == 0 {
        return at;
    }
    let next = put_ring(ring, origins, n, out, at.next);
    RingCursor {
        rings: at.rings + 1,
        next,
    }
}

// Cuts `holes` holes, the first of which begins at `start` of the frame, and writes those that stay.
fn put_holes(
    frame: &[u8],
    start: usize,
    holes: usize,
    bounds: TileBounds,
    ring: &mut [f64],
    a: &mut [f64],
    a_origins: &mut [u16],
    b: &mut [f64],
    b_origins: &mut [u16],
    out: &mut [u8],
    exterior: RingCursor,
) -> RingCursor
    requires { Internal.RingsRoom frame.now start holes
        (Internal.lengths_of ring.old a.old a_origins.old b.old b_origins.old) (length out.old) exterior
        × (exterior.rings + holes ≤ most_rings) }
    ensures { Internal.PutRings (Internal.holes_vertices bounds (FrameBytesInternal.rings_from frame.now start holes))
        exterior out.old result out.new }
{
    let mut written = exterior;
    let mut at = start;
    for _ in 0..holes {
        let from = ring_at(frame, at);
        let next = decode_ring(from, ring);
        let m = clip_hole(&ring[..2 * from.n], bounds, a, a_origins, b, b_origins);
        written = put_cut_ring(b, b_origins, m, out, written);
        at = next;
    }
    written
}

// Writes a cut part: its exterior, of m coordinates, stands at the front of b.
fn put_cut(
    part: PartBytes,
    index: usize,
    m: usize,
    bounds: TileBounds,
    ring: &mut [f64],
    a: &mut [f64],
    a_origins: &mut [u16],
    b: &mut [f64],
    b_origins: &mut [u16],
    out: &mut [u8],
    to: usize,
) -> usize
    requires part_room { Internal.PartRoom (rings_of part) (Internal.lengths_of ring.old a.old a_origins.old b.old b_origins.old)
        (length out.old) to }
    requires exterior_stands { Internal.ExteriorStands bounds (rings_of part) m b.old b_origins.old }
    ensures value { result ≡ to + length
        (Parts.part_bytes (Internal.cut_part index bounds (rings_of part.entry))) }
    ensures out_after { out.new ≡ sets out.old to
        (Parts.part_bytes (Internal.cut_part index bounds (rings_of part.entry))) }
{
    let rings = count_at(part.frame, part.at);
    let n = count_at(part.frame, part.at + COUNT);
    let first = RingCursor {
        rings: 0,
        next: to + PART + COUNT,
    };
    let exterior = put_cut_ring(b, b_origins, m, out, first);
    let holes = part.at + COUNT + COUNT + COORD * n;
    let all = put_holes(
        part.frame,
        holes,
        rings - 1,
        bounds,
        ring,
        a,
        a_origins,
        b,
        b_origins,
        out,
        exterior,
    );
    put_part(out, to, index, AnswerKind::Cut as u8, 0);
    put_count(out, to + PART, all.rings);
    all.next
}

// An overlay is wanted, unless a coordinate of the part is too large for it.
fn overlay_or_dropped(
    part: PartBytes,
    index: usize,
    reason: Reason,
    out: &mut [u8],
    to: usize,
) -> PartAnswer
    requires { to + 8 ≤ length out.old }
    ensures value { result ≡ Internal.part_answer to (Internal.uncut_part index
        (Polygon.overlay_or_dropped (rings_of part.entry) reason)) }
    ensures out_after { out.new ≡ sets out.old to (Internal.written_part (Internal.uncut_part index
        (Polygon.overlay_or_dropped (rings_of part.entry) reason))) }
{
    if part_has_huge(part) {
        return PartAnswer::Dropped;
    }
    let detail = ReasonDetail::from(reason);
    put_part(out, to, index, AnswerKind::Overlay as u8, detail.number);
    let first_at = to + PART;
    put_count(out, first_at, detail.first as usize);
    put_count(out, first_at + COUNT, detail.second as usize);
    PartAnswer::Listed(first_at + COUNT + COUNT)
}

// What becomes of the part whose exterior has this route; a cut exterior stands at the front of b.
fn answer_route(
    part: PartBytes,
    index: usize,
    route: Route,
    bounds: TileBounds,
    ring: &mut [f64],
    a: &mut [f64],
    a_origins: &mut [u16],
    b: &mut [f64],
    b_origins: &mut [u16],
    out: &mut [u8],
    to: usize,
) -> PartAnswer
    requires part_room { Internal.PartRoom (rings_of part) (Internal.lengths_of ring.old a.old a_origins.old b.old b_origins.old)
        (length out.old) to }
    requires cut_stands { ClipInternal.CutStands bounds (exterior (rings_of part)) route b.old
        × ClipInternal.OriginsStand bounds (exterior (rings_of part)) route b_origins.old }
    ensures value { result ≡ Internal.part_answer to
        (Internal.routed_part index route bounds (rings_of part.entry)) }
    ensures out_after { out.new ≡ sets out.old to (Internal.written_part
        (Internal.routed_part index route bounds (rings_of part.entry))) }
{
    match route {
        Route::Nothing => PartAnswer::Nothing,
        Route::Unchanged => PartAnswer::Unchanged,
        Route::Overlay(reason) => overlay_or_dropped(part, index, reason, out, to),
        Route::Cut(m) => {
            let next = put_cut(
                part, index, m, bounds, ring, a, a_origins, b, b_origins, out, to,
            );
            PartAnswer::Listed(next)
        }
    }
}

// What becomes of the part as a polygon, as if rect were its rectangle; one that is not finite is dropped before. What the working slices
// hold afterwards is open.
pub fn route_part(
    part: PartBytes,
    index: usize,
    flags: Flags,
    rect: Rect,
    bounds: TileBounds,
    ring: &mut [f64],
    a: &mut [f64],
    a_origins: &mut [u16],
    b: &mut [f64],
    b_origins: &mut [u16],
    order: &mut [u32],
    out: &mut [u8],
    to: usize,
) -> PartAnswer
    requires part_room { Internal.PartRoom (rings_of part) (Internal.lengths_of ring.old a.old a_origins.old b.old b_origins.old)
        (length out.old) to }
    requires positions_room { Internal.PositionsRoom (rings_of part) (length order.old) }
    ensures value { result ≡ Internal.part_answer to
        (Internal.measured_part index flags rect bounds (rings_of part.entry)) }
    ensures out_after { out.new ≡ sets out.old to (Internal.written_part
        (Internal.measured_part index flags rect bounds (rings_of part.entry))) }
{
    let from = ring_at(part.frame, part.at + COUNT);
    decode_ring(from, ring);
    let route = route_exterior(
        &ring[..2 * from.n],
        flags,
        rect,
        bounds,
        a,
        a_origins,
        b,
        b_origins,
        order,
    );
    answer_route(
        part, index, route, bounds, ring, a, a_origins, b, b_origins, out, to,
    )
}
