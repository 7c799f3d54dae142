// Rings as flat x, y numbers at the front of a slice: reading and writing a coordinate, and closing.
ghost use Rattle.std.specs.Prelude.{◌≡◌, List, [], ◌∷◌, ◌+◌, ◌*◌, ◌^◌, ◌<◌, ◌≤◌, length, get_or, take};
ghost use Rattle.std.proofs.lemmas.List.Edits.{sets};
ghost use Rattle.tile.specs.declared.Coord.{Coord};
ghost use Rattle.tile.specs.Internal as Internal;
ghost use Rattle.tile.specs.Ring as Ring;

use super::Coord;

pub fn coord_at(ring: &[f64], i: usize) -> Coord
    requires { 2 * i + 1 < length ring.now }
    ensures { result ≡ Internal.coord_at ring.now i }
{
    Coord {
        x: ring[2 * i],
        y: ring[2 * i + 1],
    }
}

pub fn put(ring: &mut [f64], i: usize, p: Coord)
    requires { 2 * i + 1 < length ring.old }
    ensures { ring.new ≡ sets ring.old (2 * i) (p.x ∷ p.y ∷ []) }
{
    ring[2 * i] = p.x;
    ring[2 * i + 1] = p.y;
}

// Coordinates that are read by their position, wherever they stand: a ring's.
pub trait Coords {
    ghost coords: { Self → List Coord };

    fn count(&self) -> usize
        ensures all { result ≡ length (coords self.now) }
        ensures few { result < 2 ^ 62 };

    fn coord(&self, i: usize) -> Coord
        requires { i < length (coords self.now) }
        ensures { result ≡ get_or (coords self.now) i Internal.nowhere };
}

// Flat x, y numbers; a number that is left over is passed over.
impl<'a> Coords for &'a [f64] {
    ghost coords = { λ numbers. Ring.coords numbers.now };

    fn count(&self) -> usize {
        self.len() / 2
    }

    fn coord(&self, i: usize) -> Coord {
        coord_at(*self, i)
    }
}

// Whether a ring is closed: it is empty, or its last coordinate equals its first.
pub fn is_closed<R: Coords + Copy>(ring: R) -> bool
    ensures { result ≡ Ring.closed (R.coords ring) }
{
    let n = ring.count();
    if n == 0 {
        return true;
    }
    let first = ring.coord(0);
    first == ring.coord(n - 1)
}

// How many coordinates a ring has when closed.
pub fn closed_count<R: Coords + Copy>(ring: R) -> usize
    ensures { result ≡ length (Ring.close (R.coords ring)) }
{
    let n = ring.count();
    if is_closed(ring) {
        return n;
    }
    n + 1
}

// Closes the ring of n coordinates at the front of the slice, and answers how many it now has.
// Stays with a count beside: it writes behind the ring.
pub fn close(ring: &mut [f64], n: usize) -> usize
    requires { 2 * n + 2 ≤ length ring.old }
    ensures { Internal.Written (Ring.close (Ring.coords (take (2 * n) ring.old))) ring.old result
        ring.new }
{
    if is_closed(&ring[..2 * n]) {
        return n;
    }
    let first = coord_at(ring, 0);
    put(ring, n, first);
    n + 1
}
