// The routing of one polygon by its exterior, and the cut of a hole: the source's `clip_polygon` and `clip_polygon_sh`. Rings are lent as
// x, y numbers, closed or not, and closed here.
ghost use Rattle.std.specs.Prelude.{◌≡◌, ◌&&◌, length, take};
ghost use Rattle.tile.specs.Ring as Ring;
ghost use Rattle.tile.specs.Internal as TileInternal;
ghost use Rattle.box_pairs.specs.Issue.{issue_of};
ghost use Rattle.clip.specs.Polygon as Polygon;
ghost use Rattle.clip.specs.Origins as Origins;
ghost use Rattle.clip.specs.Internal as Internal;
ghost use Rattle.clip.specs.Polygon.{told};

use binary64::slices::copy;
use box_pairs::{Issue, find_issue, has_issue};
use rings::bridge::first_bridge;
use rings::rectangle::{Rect, intersects_bounds, is_fully_inside};
use sutherland_hodgman::clip_ring;
use sutherland_hodgman::origins::close_with_origins;
use tile::ring::{close, is_closed};
use tile::{Edge, TileBounds};

// Whether the crossing test of the exterior and of the cut exterior is left out, and whether, if both are set, the test for edges along a
// bound is too.
#[derive(Clone, Copy)]
pub struct Flags {
    pub assume_simple: bool,
    pub skip_boundary_fallback: bool,
}

// Why an overlay is wanted: an issue of the input exterior, one of the cut exterior, or an edge of the cut exterior along a bound.
#[derive(Clone, Copy)]
pub enum Reason {
    Input(Issue),
    Cut(Issue),
    Bridge(Edge),
}

// What an answer tells of a reason: its number, and two positions in the exterior that it speaks of, 0 where they don't apply.
#[derive(Clone, Copy)]
pub struct ReasonDetail {
    pub number: u8,
    pub first: u32,
    pub second: u32,
}

// What the exterior decides; of a cut, how many coordinates the cut exterior has.
#[derive(Clone, Copy)]
pub enum Route {
    Nothing,
    Unchanged,
    Cut(usize),
    Overlay(Reason),
}

// What an answer says of a polygon, of a part or of a whole, by document 01's numbers. `Listed` is said of a whole whose parts are told
// one by one.
#[derive(Clone, Copy)]
pub enum AnswerKind {
    Nothing = 0,
    Dropped = 1,
    Unchanged = 2,
    Listed = 3,
    Cut = 4,
    Overlay = 5,
}

// What becomes of a polygon; of a cut, how many rings it has.
#[derive(Clone, Copy)]
pub enum PolygonAnswer {
    Nothing,
    Dropped,
    Unchanged,
    Cut(usize),
    Overlay(Reason),
}

// How many polygons were dropped: the source's guard count.
pub fn guard_count(answer: PolygonAnswer) -> usize
    ensures { result ≡ (told answer).guards }
{
    usize::from(matches!(answer, PolygonAnswer::Dropped))
}

fn detail(number: u8, first: u32, second: u32) -> ReasonDetail
    ensures { result ≡ Polygon.detail number first second }
{
    ReasonDetail {
        number,
        first,
        second,
    }
}

// The number of the edge that a bridge runs along, as a reason.
// Stays a function: a From needs a type of this crate, and neither an edge nor its number is one.
fn edge_number(edge: Edge) -> u8
    ensures { result ≡ Polygon.edge_number edge }
{
    match edge {
        Edge::Left => 3,
        Edge::Right => 4,
        Edge::Bottom => 5,
        Edge::Top => 6,
    }
}

// What is told of an issue, by the numbers of a short ring, of a repeated neighbour and of a crossing.
fn issue_detail(short: u8, repeated: u8, crossing: u8, issue: Issue) -> ReasonDetail
    ensures { result ≡ Polygon.issue_detail short repeated crossing issue }
{
    match issue {
        Issue::Sound => detail(0, 0, 0),
        Issue::Short => detail(short, 0, 0),
        Issue::Repeated(position) => detail(repeated, position, 0),
        Issue::Crossing(lower, higher) => detail(crossing, lower, higher),
    }
}

// The papers' number of a reason, and its positions.
impl From<Reason> for ReasonDetail {
    ghost from_gives = { λ reason result. result ≡ Polygon.reason_detail reason };

    fn from(reason: Reason) -> ReasonDetail {
        match reason {
            Reason::Input(issue) => issue_detail(1, 7, 8, issue),
            Reason::Cut(issue) => issue_detail(2, 9, 10, issue),
            Reason::Bridge(edge) => detail(edge_number(edge), 0, 0),
        }
    }
}

// Stays a clause, the room for a ring: it is a relation of the ring and of four lent slices, which no one value holds.

// The issue of a ring, closed. A ring that is not lent closed is closed in the output.
fn closed_issue(
    ring: &[f64],
    assume_simple: bool,
    scratch: &mut [f64],
    out: &mut [f64],
    order: &mut [u32],
) -> Issue
    requires { Internal.ExteriorRoom (Ring.coords ring.now) (length scratch.old) (length out.old) (length order.old) }
    ensures { result ≡ issue_of assume_simple (Ring.close (Ring.coords ring.now)) }
{
    let n = ring.len() / 2;
    if is_closed(ring) {
        return find_issue(ring, assume_simple, scratch, order);
    }
    copy(ring, out, 2 * n);
    let m = close(out, n);
    find_issue(&out[..2 * m], assume_simple, scratch, order)
}

// Whether the test for edges along a bound is left out.
fn skips_bridges(flags: Flags) -> bool
    ensures { result ≡ (flags.assume_simple && flags.skip_boundary_fallback) }
{
    flags.assume_simple && flags.skip_boundary_fallback
}

#[tactic(auto, unfolding(crate::specs::Polygon::bridge_unless_skipped))]
fn bridge_unless_skipped(ring: &[f64], flags: Flags, bounds: TileBounds) -> Option<Edge>
    ensures { result ≡ Polygon.bridge_unless_skipped flags bounds (Ring.coords ring.now) }
{
    if skips_bridges(flags) {
        return None;
    }
    first_bridge(ring, bounds)
}

// What becomes of a cut exterior that has this issue.
fn judge_cut(ring: &[f64], issue: Issue, flags: Flags, bounds: TileBounds) -> Route
    ensures { result ≡ Polygon.overlay_if_issue issue (Reason.Cut issue)
        (Polygon.overlay_if_bridge (Polygon.bridge_unless_skipped flags bounds (Ring.coords ring.now))
        (Route.Cut (length (Ring.coords ring.now)))) }
{
    if has_issue(issue) {
        return Route::Overlay(Reason::Cut(issue));
    }
    match bridge_unless_skipped(ring, flags, bounds) {
        Some(edge) => Route::Overlay(Reason::Bridge(edge)),
        None => Route::Cut(ring.len() / 2),
    }
}

// Cuts the exterior; a cut that stays stands at the front of the output, and its origins at the front of theirs.
fn route_cut(
    ring: &[f64],
    flags: Flags,
    bounds: TileBounds,
    scratch: &mut [f64],
    origin_scratch: &mut [u16],
    out: &mut [f64],
    out_origins: &mut [u16],
    order: &mut [u32],
) -> Route
    requires exterior_room { Internal.ExteriorRoom (Ring.coords ring.now) (length scratch.old) (length out.old) (length order.old) }
    requires ring_origin_room { Internal.RingOriginRoom (Ring.coords ring.now) (length origin_scratch.old) (length out_origins.old) }
    ensures route { result ≡ Polygon.route_cut flags bounds (Ring.close (Ring.coords ring.now)) }
    ensures cut { Internal.CutStands bounds (Ring.close (Ring.coords ring.now)) result out.new }
    ensures origins { Internal.OriginsStand bounds (Ring.close (Ring.coords ring.now)) result
        out_origins.new }
{
    let clipped = clip_ring(ring, bounds, scratch, origin_scratch, out, out_origins);
    if clipped == 0 {
        return Route::Nothing;
    }
    let m = close_with_origins(out, out_origins, clipped);
    let issue = find_issue(&out[..2 * m], flags.assume_simple, scratch, order);
    judge_cut(&out[..2 * m], issue, flags, bounds)
}

// What the exterior decides, rect being the rectangle of all rings; a cut exterior stands at the front of the output, and its origins at
// the front of theirs.
#[tactic(auto, unfolding(crate::specs::Polygon::route_exterior))]
pub fn route_exterior(
    ring: &[f64],
    flags: Flags,
    rect: Rect,
    bounds: TileBounds,
    scratch: &mut [f64],
    origin_scratch: &mut [u16],
    out: &mut [f64],
    out_origins: &mut [u16],
    order: &mut [u32],
) -> Route
    requires exterior_room { Internal.ExteriorRoom (Ring.coords ring.now) (length scratch.old) (length out.old) (length order.old) }
    requires ring_origin_room { Internal.RingOriginRoom (Ring.coords ring.now) (length origin_scratch.old) (length out_origins.old) }
    ensures route { result ≡ Polygon.route_exterior flags rect bounds (Ring.close (Ring.coords ring.now)) }
    ensures cut { Internal.CutStands bounds (Ring.close (Ring.coords ring.now)) result out.new }
    ensures origins { Internal.OriginsStand bounds (Ring.close (Ring.coords ring.now)) result
        out_origins.new }
{
    if !intersects_bounds(rect, bounds) {
        return Route::Nothing;
    }
    let issue = closed_issue(ring, flags.assume_simple, scratch, out, order);
    if has_issue(issue) {
        return Route::Overlay(Reason::Input(issue));
    }
    if is_fully_inside(rect, bounds) {
        return Route::Unchanged;
    }
    route_cut(
        ring,
        flags,
        bounds,
        scratch,
        origin_scratch,
        out,
        out_origins,
        order,
    )
}

// "A cut hole under 4 coordinates is left out."
const SHORTEST_HOLE: usize = 4;

// Cuts a hole, to the front of the output, and its origins to the front of theirs, and answers how many coordinates it has; one that is
// left out has none.
pub fn clip_hole(
    ring: &[f64],
    bounds: TileBounds,
    scratch: &mut [f64],
    origin_scratch: &mut [u16],
    out: &mut [f64],
    out_origins: &mut [u16],
) -> usize
    requires ring_room { Internal.RingRoom (Ring.coords ring.now) (length scratch.old) (length out.old) }
    requires ring_origin_room { Internal.RingOriginRoom (Ring.coords ring.now) (length origin_scratch.old) (length out_origins.old) }
    ensures cut { TileInternal.Stands (Polygon.cut_hole bounds (Ring.close (Ring.coords ring.now))) result
        out.new }
    ensures origins { take result out_origins.new
        ≡ Origins.hole_origins bounds (Ring.close (Ring.coords ring.now)) }
{
    let clipped = clip_ring(ring, bounds, scratch, origin_scratch, out, out_origins);
    if clipped < SHORTEST_HOLE {
        return 0;
    }
    close_with_origins(out, out_origins, clipped)
}
