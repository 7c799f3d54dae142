// Origins of vertices, 16 bits each, in slices beside the vertices: the positions that a cut starts from, and the closing vertex's origin.
ghost use Rattle.std.specs.Prelude.{◌≡◌, ◌++◌, ◌+◌, ◌*◌, ◌≤◌, length, take, drop};
ghost use Rattle.tile.specs.Ring.{coords, close};
ghost use Rattle.tile.specs.Internal.{Written};
ghost use Rattle.sutherland_hodgman.specs.Growth.{most_coordinates};
ghost use Rattle.sutherland_hodgman.specs.Origins as Origins;

use tile::ring::close;

// Writes the positions of n vertices to the front of a slice.
pub fn put_positions(origins: &mut [u16], n: usize)
    requires { (n ≤ length origins.old) × (n ≤ most_coordinates) }
    ensures { origins.new ≡ Origins.positions_from 0 n ++ drop n origins.old }
{
    for i in 0..n {
        origins[i] = i as u16;
    }
}

// Closes the ring of n vertices at the front of a slice as `close` does; a vertex that is appended has the origin of the first.
pub fn close_with_origins(ring: &mut [f64], origins: &mut [u16], n: usize) -> usize
    requires { (2 * n + 2 ≤ length ring.old) × (n + 1 ≤ length origins.old) }
    ensures ring { Written (close (coords (take (2 * n) ring.old))) ring.old result ring.new }
    ensures origins { origins.new ≡ Origins.close_origins (coords (take (2 * n) ring.old))
        (take n origins.old) ++ drop result origins.old }
{
    let len = close(ring, n);
    if len == n {
        return len;
    }
    let first = origins[0];
    origins[n] = first;
    len
}
