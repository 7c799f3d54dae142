// Sutherland-Hodgman cutting of a ring at the four edges of the bounds, pass by pass: the ring cutter. Beside each vertex that is cut or
// kept stands its origin.
#![tactic(auto)]

ghost use Rattle.std.specs.Prelude.{◌≡◌, ◌++◌, ◌+◌, ◌*◌, ◌/◌, ◌≤◌, ◌<◌, length, take, drop};
ghost use Rattle.tile.specs.Ring.{coords};
ghost use Rattle.tile.specs.Internal.{Stands, Written};
ghost use Rattle.edge_pass.specs.Pass.{pass};
ghost use Rattle.edge_pass.specs.Growth.{half_growth};
ghost use Rattle.sutherland_hodgman.specs.Clip as Clip;
ghost use Rattle.sutherland_hodgman.specs.Internal as Internal;
ghost use Rattle.sutherland_hodgman.specs.Origins as Origins;
ghost use Rattle.sutherland_hodgman.specs.Internal.{CutterRoom, OriginRoom, RingCut};

use edge_pass::clip_ring_against_edge;
use origins::{close_with_origins, put_positions};
use tile::{Edge, TileBounds};

pub mod growth;
pub mod origins;

// Stays four lent slices with their room in the clauses: two fields behind one `&mut` can't be lent in one call.

// Fewer than three vertices are none; else the ring is closed.
// Stays with a count beside, and so do the passes: each reads what the one before left at the front of a longer slice, and closing writes
// behind it.
fn finish(ring: &mut [f64], origins: &mut [u16], n: usize) -> usize
    requires numbers_room { (2 * n ≤ length ring.old) × (3 ≤ n → 2 * n + 2 ≤ length ring.old) }
    requires origins_room { (n ≤ length origins.old) × (3 ≤ n → n + 1 ≤ length origins.old) }
    ensures ring { Written (Clip.finish (coords (take (2 * n) ring.old))) ring.old result ring.new }
    ensures origins { origins.new ≡ Origins.finish_origins (coords (take (2 * n) ring.old))
        (take n origins.old) ++ drop result origins.old }
{
    if n < 3 {
        return 0;
    }
    close_with_origins(ring, origins, n)
}

// The passes but the last: from the ring to the scratch slice, to the output, and to the scratch slice, at whose front stands what they
// leave; the answer is its length. Three are a function of their own because that is small enough to be compiled into the
// ring call; four were not. The origins start as positions in the slice for the output's, and go the same way.
pub fn clip_three_edges(
    ring: &[f64],
    n: usize,
    bounds: TileBounds,
    scratch: &mut [f64],
    origin_scratch: &mut [u16],
    out: &mut [f64],
    out_origins: &mut [u16],
) -> usize
    requires cutter_room { CutterRoom n (length ring.now) (length scratch.old) (length out.old) }
    requires origin_room { OriginRoom n (length origin_scratch.old) (length out_origins.old) }
    ensures ring { Stands (Internal.three_passes bounds (coords (take (2 * n) ring.now))) result scratch.new }
    ensures origins { take result origin_scratch.new ≡ Internal.three_passes_origins bounds
        (coords (take (2 * n) ring.now)) }
{
    put_positions(out_origins, n);
    let left = clip_ring_against_edge(
        ring,
        out_origins,
        n,
        Edge::Left,
        bounds,
        scratch,
        origin_scratch,
    );
    let right = clip_ring_against_edge(
        scratch,
        origin_scratch,
        left.len,
        Edge::Right,
        bounds,
        out,
        out_origins,
    );
    let bottom = clip_ring_against_edge(
        out,
        out_origins,
        right.len,
        Edge::Bottom,
        bounds,
        scratch,
        origin_scratch,
    );
    bottom.len
}

// The last pass, to the output, and the closing there.
pub fn clip_top(
    scratch: &[f64],
    origin_scratch: &[u16],
    n: usize,
    bounds: TileBounds,
    out: &mut [f64],
    out_origins: &mut [u16],
) -> usize
    requires numbers_room { (2 * n ≤ length scratch.now) × (2 * half_growth n ≤ length out.old)
        × (0 < n → 2 * half_growth n + 2 ≤ length out.old) }
    requires origins_room { (n ≤ length origin_scratch.now) × (half_growth n ≤ length out_origins.old)
        × (0 < n → half_growth n + 1 ≤ length out_origins.old) }
    ensures ring { Stands (Clip.finish (pass Edge.Top bounds (coords (take (2 * n) scratch.now)))) result
        out.new }
    ensures origins { take result out_origins.new ≡ Internal.top_origins bounds (coords (take (2 * n) scratch.now))
        (take n origin_scratch.now) }
{
    let top = clip_ring_against_edge(
        scratch,
        origin_scratch,
        n,
        Edge::Top,
        bounds,
        out,
        out_origins,
    );
    finish(out, out_origins, top.len)
}

// Cuts a ring at all four edges. The output serves for every second pass; the result stands at its front, its origins at the front of
// their slice, and the answer is its length. Demand 3 holds of it. What lies past it in the output, and all of the scratch slice, is left
// open, and so it is with the slices of the origins.
pub fn clip_ring(
    ring: &[f64],
    bounds: TileBounds,
    scratch: &mut [f64],
    origin_scratch: &mut [u16],
    out: &mut [f64],
    out_origins: &mut [u16],
) -> usize
    requires cutter_room { CutterRoom (length ring.now / 2) (length ring.now) (length scratch.old) (length out.old) }
    requires origin_room { OriginRoom (length ring.now / 2) (length origin_scratch.old) (length out_origins.old) }
    ensures ring { RingCut bounds (coords ring.now) result out.new }
    ensures origins { take result out_origins.new ≡ Origins.clip_origins bounds (coords ring.now) }
{
    let n = ring.len() / 2;
    let len = clip_three_edges(ring, n, bounds, scratch, origin_scratch, out, out_origins);
    clip_top(scratch, origin_scratch, len, bounds, out, out_origins)
}
