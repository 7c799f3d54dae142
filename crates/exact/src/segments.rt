// Whether two closed segments between points of whole numbers share a point, exactly.
ghost use Rattle.std.specs.Prelude.{◌≡◌};
ghost use Rattle.exact.specs.Segments as Segments;
ghost use Rattle.exact.specs.Internal.{side_of};

use super::wide::{Wide, is_less, product, sum};
use std::marker::Model;

// A point whose numbers are at most as large as those of the grid.
#[derive(Clone, Copy)]
pub struct Point {
    pub x: u64,
    pub y: u64,
}

impl Model for Point {
    ghost use Rattle.std.specs.Prelude.{◌^◌, ◌≤◌};
    ghost use Rattle.exact.specs.Segments.{Point};

    ghost Value = { Point };

    ghost view = { λ p. record { x = p.x; y = p.y } };

    ghost inverse = { λ p. record { x = p.x; y = p.y } };

    ghost invariant = { λ p. (p.x ≤ 2 ^ 57) × (p.y ≤ 2 ^ 57) };
}

// Strictly left or right of a line, or on it.
#[derive(Clone, Copy)]
enum Side {
    Left,
    On,
    Right,
}

// The sum of the products of three points' numbers, taken round in this order; two such sums tell the side that c lies on.
fn shoelace(a: Point, b: Point, c: Point) -> Wide
    ensures { result ≡ Segments.shoelace a b c }
{
    let ab = product(a.x, b.y);
    let bc = product(b.x, c.y);
    let ca = product(c.x, a.y);
    sum(ab, bc, ca)
}

// Whether c lies strictly left of the line from a to b.
fn is_left(a: Point, b: Point, c: Point) -> bool
    ensures { result ≡ Segments.is_left a b c }
{
    is_less(shoelace(b, a, c), shoelace(a, b, c))
}

// The side of the line from a to b that c lies on.
fn side_of(a: Point, b: Point, c: Point) -> Side
    ensures { result ≡ side_of a b c }
{
    let there = shoelace(a, b, c);
    let back = shoelace(b, a, c);
    if is_less(back, there) {
        return Side::Left;
    }
    if is_less(there, back) {
        return Side::Right;
    }
    Side::On
}

// Whether both c and d lie strictly on one side of the line through a and b.
fn are_one_side(a: Point, b: Point, c: Point, d: Point) -> bool
    ensures { result ≡ Segments.one_side a b c d }
{
    match side_of(a, b, c) {
        Side::Left => is_left(a, b, d),
        Side::On => false,
        Side::Right => is_left(b, a, d),
    }
}

// Whether the numbers from a to b and those from c to d are apart.
fn are_ranges_apart(a: u64, b: u64, c: u64, d: u64) -> bool
    ensures { result ≡ Segments.ranges_apart a b c d }
{
    a.max(b) < c.min(d) || c.max(d) < a.min(b)
}

// Whether the boxes of the two segments are apart.
fn are_boxes_apart(a: Point, b: Point, c: Point, d: Point) -> bool
    ensures { result ≡ Segments.boxes_apart a b c d }
{
    are_ranges_apart(a.x, b.x, c.x, d.x) || are_ranges_apart(a.y, b.y, c.y, d.y)
}

// Whether the closed segments from a to b and from c to d share a point.
pub fn shares_point(a: Point, b: Point, c: Point, d: Point) -> bool
    ensures { result ≡ Segments.shares_point a b c d }
{
    if are_boxes_apart(a, b, c, d) {
        return false;
    }
    if are_one_side(a, b, c, d) {
        return false;
    }
    !are_one_side(c, d, a, b)
}
