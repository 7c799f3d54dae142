// A lent polygon with room everywhere: it is routed, and its cut rings are put in the output, one behind the other, with their lengths and
// origins beside them.
#![tactic(auto)]

ghost use Rattle.std.specs.Prelude.{◌≡◌, ◌++◌, length, take};
ghost use Rattle.tile.specs.Ring as Ring;
ghost use Rattle.rings.specs.Internal.{rings_of};
ghost use Rattle.clip.specs.Polygon as Polygon;
ghost use Rattle.clip.specs.Origins as Origins;
ghost use Rattle.polygon_rings.specs.WrittenRings.{origins_of};
ghost use Rattle.polygon_rings.specs.Internal as Internal;

use clip::polygon::{Flags, PolygonAnswer, Reason, Route, clip_hole, route_exterior};
use rings::lent::{has_huge_ring, polygon_rect_all_rings};
use rings::lent_rings::LentRings;
use rings::rectangle::Rect;
use tile::TileBounds;

// Stays an output beside its lengths and origins, and their room in the clauses (`LentOriginsRoom` is one): two fields behind one `&mut`
// can't be lent in one call.

// How much of the outputs is the answer's so far: rings, and their coordinates.
#[derive(Clone, Copy)]
struct Placed {
    rings: usize,
    coordinates: usize,
}

// What becomes of a polygon, and how many coordinates of the outputs belong to the answer.
#[derive(Clone, Copy)]
pub struct Clipped {
    pub answer: PolygonAnswer,
    pub coordinates: usize,
}

// Counts the ring of n coordinates that stands behind the rings counted so far, and writes its length; a ring without coordinates is left
// out.
fn count_ring(n: usize, out_lengths: &mut [u32], at: Placed) -> Placed
    requires { Internal.CountRoom n (length out_lengths.old) at }
    ensures { Internal.Counted n at out_lengths.old result out_lengths.new }
{
    if n == 0 {
        return at;
    }
    let rings = at.rings;
    out_lengths[rings] = n as u32;
    Placed {
        rings: rings + 1,
        coordinates: at.coordinates + n,
    }
}

// Cuts a ring as a hole. It is cut in the output behind the rings counted so far, where it is to stand, and so are its origins in theirs.
fn put_hole(
    ring: &[f64],
    bounds: TileBounds,
    scratch: &mut [f64],
    origin_scratch: &mut [u16],
    out: &mut [f64],
    out_lengths: &mut [u32],
    out_origins: &mut [u16],
    at: Placed,
) -> Placed
    requires hole_room { Internal.HoleRoom (Ring.coords ring.now) (length scratch.old) (length out.old) (length out_lengths.old) at }
    requires hole_origin_room { Internal.HoleOriginRoom (Ring.coords ring.now) (length origin_scratch.old) (length out_origins.old) at }
    ensures ring { Internal.Put (Polygon.cut_hole bounds (Ring.close (Ring.coords ring.now))) at
        out.old out_lengths.old result out.new out_lengths.new }
    ensures origins { take result.coordinates out_origins.new ≡ take at.coordinates out_origins.old
        ++ Origins.hole_origins bounds (Ring.close (Ring.coords ring.now)) }
{
    let placed = at.coordinates;
    let numbers = 2 * placed;
    let m = clip_hole(
        ring,
        bounds,
        scratch,
        origin_scratch,
        &mut out[numbers..],
        &mut out_origins[placed..],
    );
    count_ring(m, out_lengths, at)
}

// Cuts lent rings as holes, each in the output behind the rings counted so far, and their origins in theirs.
// Stays beside that of `frame_parts`, and so do the cut, the overlay and the route: they share the order of the steps; what is written is
// numbers and lengths here, bytes of a frame there, and the rings of a frame are first copied.
fn put_holes(
    rings: LentRings,
    bounds: TileBounds,
    scratch: &mut [f64],
    origin_scratch: &mut [u16],
    out: &mut [f64],
    out_lengths: &mut [u32],
    out_origins: &mut [u16],
    exterior: Placed,
) -> Placed
    requires lent_rings_room { Internal.LentRingsRoom (rings_of rings) (length scratch.old) (length out.old)
        (length out_lengths.old) exterior }
    requires lent_origins_room { Internal.LentOriginsRoom (rings_of rings) (length origin_scratch.old) (length out_origins.old)
        exterior }
    ensures rings { Internal.PutHoles (Polygon.cut_holes bounds (rings_of rings.entry))
        exterior out.old out_lengths.old result out.new out_lengths.new }
    ensures origins { take result.coordinates out_origins.new ≡ take exterior.coordinates
        out_origins.old
        ++ origins_of (Origins.holes_origins bounds (rings_of rings.entry)) }
{
    let mut placed = exterior;
    for ring in rings {
        placed = put_hole(
            ring,
            bounds,
            scratch,
            origin_scratch,
            out,
            out_lengths,
            out_origins,
            placed,
        );
    }
    placed
}

// Puts the holes behind the cut exterior of m coordinates, which stands at the front of the output with its origins at the front of
// theirs, and answers how much is counted.
fn put_cut(
    rings: LentRings,
    m: usize,
    bounds: TileBounds,
    scratch: &mut [f64],
    origin_scratch: &mut [u16],
    out: &mut [f64],
    out_lengths: &mut [u32],
    out_origins: &mut [u16],
) -> Placed
    requires lent_cut_room { Internal.LentCutRoom bounds (rings_of rings) m (length scratch.old) out.old
        (length out_lengths.old) }
    requires lent_route_origin_room { Internal.LentRouteOriginRoom (Route.Cut m) bounds (rings_of rings) (length origin_scratch.old)
        out_origins.old }
    ensures count { result.rings ≡ length (Polygon.cut_rings bounds (rings_of rings.entry)) }
    ensures written { Internal.Filled
        (Polygon.cut (Polygon.cut_rings bounds (rings_of rings.entry)))
        result.coordinates out_lengths.old out.new out_lengths.new }
    ensures origins { Internal.FilledOrigins (Origins.cut_origins bounds (rings_of rings.entry))
        result.coordinates out_origins.new }
{
    let mut holes = rings;
    holes.next();
    let none = Placed {
        rings: 0,
        coordinates: 0,
    };
    let exterior = count_ring(m, out_lengths, none);
    put_holes(
        holes,
        bounds,
        scratch,
        origin_scratch,
        out,
        out_lengths,
        out_origins,
        exterior,
    )
}

// An overlay is wanted, unless a coordinate is too large for it.
#[tactic(auto, unfolding(clip::specs::Polygon::overlay_or_dropped))]
fn overlay_or_dropped(rings: LentRings, reason: Reason) -> PolygonAnswer
    ensures { result ≡ Polygon.answer_of (Polygon.overlay_or_dropped (rings_of rings.entry) reason) }
{
    if has_huge_ring(rings) {
        return PolygonAnswer::Dropped;
    }
    PolygonAnswer::Overlay(reason)
}

// What becomes of a polygon whose exterior has this route; a cut exterior stands at the front of the output, and its origins at the front
// of theirs.
#[tactic(auto, unfolding(crate::specs::WrittenRings::numbers_of, crate::specs::WrittenRings::lengths_of))]
fn answer_route(
    route: Route,
    bounds: TileBounds,
    rings: LentRings,
    scratch: &mut [f64],
    origin_scratch: &mut [u16],
    out: &mut [f64],
    out_lengths: &mut [u32],
    out_origins: &mut [u16],
) -> Clipped
    requires lent_route_room { Internal.LentRouteRoom route bounds (rings_of rings) (length scratch.old) out.old
        (length out_lengths.old) }
    requires lent_route_origin_room { Internal.LentRouteOriginRoom route bounds (rings_of rings) (length origin_scratch.old)
        out_origins.old }
    ensures answer { result.answer ≡ Polygon.answer_of
        (Polygon.routed route bounds (rings_of rings.entry)) }
    ensures written { Internal.Filled (Polygon.routed route bounds (rings_of rings.entry))
        result.coordinates out_lengths.old out.new out_lengths.new }
    ensures origins { Internal.FilledOrigins (Origins.routed_origins
        (Polygon.routed route bounds (rings_of rings.entry)) bounds
        (rings_of rings.entry)) result.coordinates out_origins.new }
{
    match route {
        Route::Nothing => Clipped {
            answer: PolygonAnswer::Nothing,
            coordinates: 0,
        },
        Route::Unchanged => Clipped {
            answer: PolygonAnswer::Unchanged,
            coordinates: 0,
        },
        Route::Overlay(reason) => {
            let answer = overlay_or_dropped(rings, reason);
            Clipped {
                answer,
                coordinates: 0,
            }
        }
        Route::Cut(m) => {
            let all = put_cut(
                rings,
                m,
                bounds,
                scratch,
                origin_scratch,
                out,
                out_lengths,
                out_origins,
            );
            Clipped {
                answer: PolygonAnswer::Cut(all.rings),
                coordinates: all.coordinates,
            }
        }
    }
}

// What becomes of a polygon that has room everywhere; the bounds are buffered. The outputs serve for every second pass: but for a cut's
// rings and their origins at the fronts, what they hold is left open, as are the scratch and order slices.
#[tactic(auto, unfolding(clip::specs::Polygon::route, clip::specs::Polygon::route_rect))]
pub fn clip_polygon(
    flags: Flags,
    bounds: TileBounds,
    rings: LentRings,
    scratch: &mut [f64],
    origin_scratch: &mut [u16],
    order: &mut [u32],
    out: &mut [f64],
    out_lengths: &mut [u32],
    out_origins: &mut [u16],
) -> Clipped
    requires polygon_room { Internal.PolygonRoom (rings_of rings) (length scratch.old) (length order.old) (length out.old)
        (length out_lengths.old) }
    requires lent_origins_room { Internal.LentOriginsRoom (rings_of rings) (length origin_scratch.old) (length out_origins.old)
        Internal.none_placed }
    ensures answer { result.answer ≡ Polygon.answer_of
        (Polygon.route flags bounds (rings_of rings.entry)) }
    ensures written { Internal.Filled (Polygon.route flags bounds (rings_of rings.entry))
        result.coordinates out_lengths.old out.new out_lengths.new }
    ensures origins { Internal.FilledOrigins (Origins.routed_origins
        (Polygon.route flags bounds (rings_of rings.entry)) bounds
        (rings_of rings.entry)) result.coordinates out_origins.new }
{
    let rect = polygon_rect_all_rings(rings);
    match rect {
        Rect::Nothing => Clipped {
            answer: PolygonAnswer::Nothing,
            coordinates: 0,
        },
        Rect::NotFinite => Clipped {
            answer: PolygonAnswer::Dropped,
            coordinates: 0,
        },
        Rect::Box(west, south, east, north) => {
            let found = Rect::Box(west, south, east, north);
            let n = rings.lengths[0] as usize;
            let route = route_exterior(
                &rings.coords[..2 * n],
                flags,
                found,
                bounds,
                scratch,
                origin_scratch,
                out,
                out_origins,
                order,
            );
            answer_route(
                route,
                bounds,
                rings,
                scratch,
                origin_scratch,
                out,
                out_lengths,
                out_origins,
            )
        }
    }
}
