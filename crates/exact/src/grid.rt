// Doubles on the grid of 1/2^48, as whole numbers, and the exact test of two segments between such.
ghost use Rattle.std.specs.Prelude.{◌≡◌, T};
ghost use Rattle.std.specs.Float.Ieee.{lt};
ghost use Rattle.binary64.specs.Slices.{plus_zero};
ghost use Rattle.exact.specs.Segments.{Decides};
ghost use Rattle.exact.specs.Grid.{MaySharePoint, may_share_point};
ghost use Rattle.exact.specs.Internal.{steps_of, grid_number_of, grid_point_of};

use super::segments::{Point, shares_point};
use tile::Coord;

// How many steps of 1/2^48 a 1 has.
const STEPS: f64 = 281_474_976_710_656.0;

// 0 in steps from -256.
const ZERO: u64 = 72_057_594_037_927_936;

// The steps of 1/2^48 from 0 of a number above 0, if it is on the grid.
fn steps_of(x: f64) -> Option<u64>
    requires { T (lt plus_zero x) }
    ensures { result ≡ steps_of x }
{
    if x <= 256.0 {
        let scaled = x * STEPS;
        let n = std::num::truncating_f64_to_u64(scaled);
        if std::num::nearest_u64_to_f64(n) == scaled {
            return Some(n);
        }
    }
    None
}

// The steps from -256 of any number, if it is on the grid.
fn grid_number_of(x: f64) -> Option<u64>
    ensures { result ≡ grid_number_of x }
{
    if x > 0.0 {
        return Some(ZERO + steps_of(x)?);
    }
    if x < 0.0 {
        return Some(ZERO - steps_of(-x)?);
    }
    if x == 0.0 {
        return Some(ZERO);
    }
    None
}

// The point in steps from -256, if both numbers are on the grid.
fn grid_point_of(p: Coord) -> Option<Point>
    ensures { result ≡ grid_point_of p }
{
    let x = grid_number_of(p.x)?;
    let y = grid_number_of(p.y)?;
    Some(Point { x, y })
}

// Whether the closed segments from a1 to a2 and from b1 to b2 share a point, exactly, where all eight numbers are on the grid; true where
// one is not: such a pair keeps the old rule.
pub fn may_share_point(a1: Coord, a2: Coord, b1: Coord, b2: Coord) -> bool
    ensures test { result ≡ may_share_point a1 a2 b1 b2 }
    ensures meaning { Decides result (MaySharePoint a1 a2 b1 b2) }
{
    let Some(a) = grid_point_of(a1) else {
        return true;
    };
    let Some(b) = grid_point_of(a2) else {
        return true;
    };
    let Some(c) = grid_point_of(b1) else {
        return true;
    };
    let Some(d) = grid_point_of(b2) else {
        return true;
    };
    shares_point(a, b, c, d)
}
