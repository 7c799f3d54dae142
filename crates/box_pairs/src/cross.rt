// Whether two edges cross: the source's `edges_intersect_properly`, between edges that are long enough and whose boxes meet, and the exact
// test.
ghost use Rattle.std.specs.Prelude.{◌≡◌, true};
ghost use Rattle.exact.specs.Segments.{Decides};
ghost use Rattle.exact.specs.Grid.{MaySharePoint};
ghost use Rattle.box_pairs.specs.Cross as Cross;
ghost use Rattle.box_pairs.specs.Internal as Internal;

use binary64::compare::{higher, is_near, lower};
use exact::grid::may_share_point;
use tile::Coord;

// Which side of the line from a to b the point c lies on, by the sign.
fn cross_product_sign(a: Coord, b: Coord, c: Coord) -> f64
    ensures { result ≡ Cross.cross_product_sign a b c }
{
    (b.x - a.x) * (c.y - a.y) - (b.y - a.y) * (c.x - a.x)
}

fn above_below(d: f64, e: f64) -> bool
    ensures { result ≡ Cross.above_below d e }
{
    d > 0.0 && e < 0.0
}

// Whether c and d lie strictly on opposite sides of the line through a and b, in floats.
fn splits(a: Coord, b: Coord, c: Coord, d: Coord) -> bool
    ensures { result ≡ Cross.splits a b c d }
{
    let side = cross_product_sign(a, b, c);
    let other = cross_product_sign(a, b, d);
    above_below(side, other) || above_below(other, side)
}

fn edges_intersect_properly(a1: Coord, a2: Coord, b1: Coord, b2: Coord) -> bool
    ensures { result ≡ Cross.intersect_properly a1 a2 b1 b2 }
{
    splits(b1, b2, a1, a2) && splits(a1, a2, b1, b2)
}

// Shorter than 1e-10 in both axes: the source's `degenerate`.
pub fn is_degenerate(a: Coord, b: Coord) -> bool
    ensures { result ≡ Cross.degenerate a b }
{
    is_near(a.x, b.x) && is_near(a.y, b.y)
}

// Whether the numbers from a1 to a2 and those from b1 to b2 are apart, where none of the four is NaN: one branch, which is predicted more
// often than two.
pub fn is_apart(a1: f64, a2: f64, b1: f64, b2: f64) -> bool
    ensures { result ≡ Internal.separate a1 a2 b1 b2 }
{
    let low = higher(lower(b1, b2), lower(a1, a2));
    let high = lower(higher(b1, b2), higher(a1, a2));
    high < low
}

// Whether the edges from a1 to a2 and from b1 to b2 cross in floats. Where a coordinate is NaN they do not, whatever their boxes.
fn crosses_in_floats(a1: Coord, a2: Coord, b1: Coord, b2: Coord) -> bool
    ensures { result ≡ Cross.cross_in_floats a1 a2 b1 b2 }
{
    if is_apart(a1.y, a2.y, b1.y, b2.y) {
        return false;
    }
    if is_apart(a1.x, a2.x, b1.x, b2.x) {
        return false;
    }
    if edges_intersect_properly(a1, a2, b1, b2) {
        if is_degenerate(a1, a2) {
            return false;
        }
        return !is_degenerate(b1, b2);
    }
    false
}

// Whether the edges from a1 to a2 and from b1 to b2 cross. Few pairs are left to the exact test, which takes longer. It gets copies of the
// ends: were they passed themselves, the compiler would keep them in memory for every pair that the test in floats looks at.
pub fn crosses(a1: Coord, a2: Coord, b1: Coord, b2: Coord) -> bool
    ensures test { result ≡ Cross.cross a1 a2 b1 b2 }
    ensures meaning { Decides result ((Cross.cross_in_floats a1 a2 b1 b2 ≡ true) × MaySharePoint a1 a2 b1 b2) }
{
    if crosses_in_floats(a1, a2, b1, b2) {
        return may_share_point(
            Coord { x: a1.x, y: a1.y },
            Coord { x: a2.x, y: a2.y },
            Coord { x: b1.x, y: b1.y },
            Coord { x: b2.x, y: b2.y },
        );
    }
    false
}
