// Edges of a cut exterior that run along a bound: the source's `has_boundary_connecting_edges`, which also says along which.
ghost use Rattle.std.specs.Prelude.{◌≡◌, ◌&&◌};
ghost use Rattle.binary64.specs.Compare.{near};
ghost use Rattle.rings.specs.Bridge as Bridges;
ghost use Rattle.rings.specs.Internal.{near_bound};

use binary64::compare::is_near;
use box_pairs::cross::is_degenerate;
use tile::ring::Coords;
use tile::{Coord, Edge, TileBounds};

fn both_near(a: f64, b: f64, bound: f64) -> bool
    ensures { result ≡ (near a bound && near b bound) }
{
    is_near(a, bound) && is_near(b, bound)
}

// Whether both ends of the edge from p to q are near one bound.
// Stays four arms: by axis, a second match would have to find the bound.
#[tactic(auto, unfolding(crate::specs::Bridge::runs_along))]
fn runs_along(p: Coord, q: Coord, edge: Edge, bounds: TileBounds) -> bool
    ensures { result ≡ Bridges.runs_along edge bounds p q }
{
    match edge {
        Edge::Left => both_near(p.x, q.x, bounds.lng_min),
        Edge::Right => both_near(p.x, q.x, bounds.lng_max),
        Edge::Bottom => both_near(p.y, q.y, bounds.lat_min),
        Edge::Top => both_near(p.y, q.y, bounds.lat_max),
    }
}

// Whether a coordinate is near one of the four bounds.
#[tactic(auto, unfolding(crate::specs::Internal::near_bound))]
fn is_near_bound(p: Coord, bounds: TileBounds) -> bool
    ensures { result ≡ near_bound bounds p }
{
    is_near(p.x, bounds.lng_min)
        || is_near(p.x, bounds.lng_max)
        || is_near(p.y, bounds.lat_min)
        || is_near(p.y, bounds.lat_max)
}

// The bound that the edge from p to q runs along, if any: the first of the four. Most coordinates are near none, which is asked first: the
// compiler makes all comparisons of the loop over the bounds before its first branch.
fn bridge_of(p: Coord, q: Coord, bounds: TileBounds) -> Option<Edge>
    ensures { result ≡ Bridges.bridge_of bounds p q }
{
    if !is_near_bound(p, bounds) {
        return None;
    }
    if is_degenerate(p, q) {
        return None;
    }
    for edge in [Edge::Left, Edge::Right, Edge::Bottom, Edge::Top] {
        if runs_along(p, q, edge, bounds) {
            return Some(edge);
        }
    }
    None
}

// The first bridge of a ring, and the bound that it runs along.
pub fn first_bridge<R: Coords + Copy>(ring: R, bounds: TileBounds) -> Option<Edge>
    ensures { result ≡ Bridges.first_bridge bounds (R.coords ring) }
{
    for k in 1..ring.count() {
        if let Some(edge) = bridge_of(ring.coord(k - 1), ring.coord(k), bounds) {
            return Some(edge);
        }
    }
    None
}
