// The edges of a ring, by their numbers: edge i runs from coordinate i to the next.
ghost use Rattle.std.specs.Prelude.{◌<◌, ◌^◌};
ghost use Rattle.box_pairs.specs.Internal.{HasEdges};

use super::cross::is_apart;
use super::pairs::edges_cross;
use binary64::compare::{maximum, minimum};
use tile::ring::coord_at;

// The first `count` edges of a ring in x, y numbers.
#[derive(Clone, Copy)]
pub struct Edges<'a> {
    pub ring: &'a [f64],
    pub count: usize,
    ghost has_edges: { HasEdges count ring.now },
    ghost small: { count < 2 ^ 32 },
}

impl<'a> Edges<'a> {
    ghost use Rattle.std.specs.Prelude.{◌≡◌, ◌<◌};
    ghost use Rattle.box_pairs.specs.Internal as Internal;
    ghost use Rattle.box_pairs.specs.Edges.{ring_of};

    // Whether the boxes of the edges i and j may meet in y. It is kept small so that it can be inlined into the loops; that is not proved.
    pub(super) fn may_meet_in_y(&self, i: usize, j: usize) -> bool
        requires { (i < self.now.count) × (j < self.now.count) }
        ensures { result ≡ Internal.may_meet_in_y self.now.ring.now i j }
    {
        let a1 = coord_at(self.ring, i);
        let a2 = coord_at(self.ring, i + 1);
        let b1 = coord_at(self.ring, j);
        let b2 = coord_at(self.ring, j + 1);
        !is_apart(a1.y, a2.y, b1.y, b2.y)
    }

    // Whether the edges i and j cross.
    pub fn crosses(&self, i: usize, j: usize) -> bool
        requires { (i < self.now.count) × (j < self.now.count) }
        ensures { result ≡ Internal.edges_at self.now.ring.now i j }
    {
        edges_cross(self.ring, i, j)
    }

    // The lowest x of edge i.
    pub(super) fn low_x(&self, i: usize) -> f64
        requires { i < self.now.count }
        ensures { result ≡ Internal.low_x (ring_of self.now) i }
    {
        let p = coord_at(self.ring, i);
        let q = coord_at(self.ring, i + 1);
        minimum(p.x, q.x)
    }

    // The highest x of edge i.
    pub(super) fn high_x(&self, i: usize) -> f64
        requires { i < self.now.count }
        ensures { result ≡ Internal.high_x (ring_of self.now) i }
    {
        let p = coord_at(self.ring, i);
        let q = coord_at(self.ring, i + 1);
        maximum(p.x, q.x)
    }
}
