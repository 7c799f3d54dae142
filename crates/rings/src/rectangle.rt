// The rectangle of all rings of a polygon, and where it lies: the source's `intersects_bounds` and `is_fully_inside`, and a step of its
// `polygon_rect_all_rings`.
ghost use Rattle.std.specs.Prelude.{◌≡◌, drop};
ghost use Rattle.rings.specs.Rectangle as Rectangle;
ghost use Rattle.rings.specs.Internal as Internal;

use binary64::compare::{higher, is_finite, lower, maximum, minimum};
use tile::ring::Coords;
use tile::{Coord, TileBounds};

// Of no coordinate, of one that is not finite, or west, south, east and north.
#[derive(Clone, Copy)]
pub enum Rect {
    Nothing,
    NotFinite,
    Box(f64, f64, f64, f64),
}

pub fn is_finite_coord(p: Coord) -> bool
    ensures { result ≡ Rectangle.is_finite_coord p }
{
    is_finite(p.x) && is_finite(p.y)
}

// The rectangle with one more coordinate.
#[tactic(auto, unfolding(crate::specs::Rectangle::with_coord))]
pub fn with_coord(r: Rect, p: Coord) -> Rect
    ensures { result ≡ Rectangle.with_coord r p }
{
    match r {
        Rect::NotFinite => Rect::NotFinite,
        Rect::Nothing => {
            if is_finite_coord(p) {
                return Rect::Box(p.x, p.y, p.x, p.y);
            }
            Rect::NotFinite
        }
        Rect::Box(w, s, e, n) => {
            if is_finite_coord(p) {
                let west = minimum(w, p.x);
                let south = minimum(s, p.y);
                let east = maximum(e, p.x);
                let north = maximum(n, p.y);
                return Rect::Box(west, south, east, north);
            }
            Rect::NotFinite
        }
    }
}

// The rectangle of four numbers with the coordinates of a ring from the second on. The numbers are carried one by one: an enum would be
// stored and read back for every coordinate. None is a NaN, so `lower` and `higher` are the minimum and the maximum, by one comparison
// each. Where it is asked first whether a coordinate of a frame is finite, the compiler reads its bits once and leaves out the making of a
// NaN from them.
fn box_with_rest<R: Coords + Copy>(w: f64, s: f64, e: f64, n: f64, ring: R) -> Rect
    requires { Internal.Numbers w s e n }
    ensures { result ≡ Rectangle.with_ring (Rect.Box w s e n) (drop 1 (R.coords ring)) }
{
    let mut west = w;
    let mut south = s;
    let mut east = e;
    let mut north = n;
    for i in 1..ring.count() {
        if !is_finite_coord(ring.coord(i)) {
            return Rect::NotFinite;
        }
        let p = ring.coord(i);
        west = lower(west, p.x);
        south = lower(south, p.y);
        east = higher(east, p.x);
        north = higher(north, p.y);
    }
    Rect::Box(west, south, east, north)
}

// The rectangle with all of a ring. Its first coordinate leaves something in it, so the arm for Nothing is never taken.
pub fn with_ring<R: Coords + Copy>(r: Rect, ring: R) -> Rect
    ensures { result ≡ Rectangle.with_ring r (R.coords ring) }
{
    if ring.count() == 0 {
        return r;
    }
    match with_coord(r, ring.coord(0)) {
        Rect::Nothing => Rect::Nothing,
        Rect::NotFinite => Rect::NotFinite,
        Rect::Box(west, south, east, north) => box_with_rest(west, south, east, north, ring),
    }
}

// Whether the numbers from low to high and those from one bound to the other are not apart.
#[tactic(auto, unfolding(crate::specs::Rectangle::reaches))]
fn reaches(low: f64, high: f64, from: f64, to: f64) -> bool
    ensures { result ≡ Rectangle.reaches low high from to }
{
    high >= from && low <= to
}

// Whether the numbers from low to high lie between the bounds.
#[tactic(auto, unfolding(crate::specs::Rectangle::lies_between))]
fn lies_between(low: f64, high: f64, from: f64, to: f64) -> bool
    ensures { result ≡ Rectangle.lies_between low high from to }
{
    low >= from && high <= to
}

// Whether the rectangle and the bounds are not apart.
#[tactic(auto, unfolding(crate::specs::Rectangle::intersects_bounds))]
pub fn intersects_bounds(r: Rect, bounds: TileBounds) -> bool
    ensures { result ≡ Rectangle.intersects_bounds r bounds }
{
    match r {
        Rect::Nothing => false,
        Rect::NotFinite => false,
        Rect::Box(w, s, e, n) => {
            let across = reaches(w, e, bounds.lng_min, bounds.lng_max);
            across && reaches(s, n, bounds.lat_min, bounds.lat_max)
        }
    }
}

// Whether the rectangle lies in the bounds, edges included.
#[tactic(auto, unfolding(crate::specs::Rectangle::is_fully_inside))]
pub fn is_fully_inside(r: Rect, bounds: TileBounds) -> bool
    ensures { result ≡ Rectangle.is_fully_inside r bounds }
{
    match r {
        Rect::Nothing => false,
        Rect::NotFinite => false,
        Rect::Box(w, s, e, n) => {
            let across = lies_between(w, e, bounds.lng_min, bounds.lng_max);
            across && lies_between(s, n, bounds.lat_min, bounds.lat_max)
        }
    }
}
