// Walks over all rings of a polygon that is lent as x, y numbers, ring behind ring, and their lengths in coordinates: the source's
// `polygon_rect_all_rings` and `polygon_representable`, and what the refusals measure.
ghost use Rattle.std.specs.Prelude.{◌≡◌, ◌*◌, ◌≤◌, length};
ghost use Rattle.std.specs.Iterator.{YieldsFirstBy, item_count};
ghost use Rattle.tile.specs.Ring as Ring;
ghost use Rattle.sutherland_hodgman.specs.Growth.{most_coordinates};
ghost use Rattle.rings.specs.Rectangle.{rectangle};
ghost use Rattle.rings.specs.Representable.{any_huge_ring};
ghost use Rattle.rings.specs.LentRings.{most_rings, sum, total};
ghost use Rattle.rings.specs.Internal.{rings_of, RoomOf};

use super::lent_rings::LentRings;
use super::rectangle::{Rect, with_ring};
use super::representable::has_huge;
use sutherland_hodgman::growth::room_for;
use tile::ring::closed_count;

// The most rings that a polygon may have.
pub const MOST_RINGS: usize = 64;

// The walk over the rings gives the numbers of the first; the rings behind it are left.
impl<'a> Iterator for LentRings<'a> {
    type Item = &'a [f64];

    ghost next_gives = { YieldsFirstBy (λ ring. Ring.close (Ring.coords ring.now)) rings_of };

    ghost remaining = { item_count rings_of };

    fn next(&mut self) -> Option<&'a [f64]> {
        let (length, lengths) = self.lengths.split_first()?;
        let (ring, coords) = self.coords.split_at(2 * *length as usize);
        *self = LentRings { coords, lengths };
        Some(ring)
    }
}

// The largest room of a ring, and the room of all, in coordinates.
#[derive(Clone, Copy)]
pub struct RoomNeeded {
    pub largest: usize,
    pub all: usize,
}

// How many coordinates the rings have, as lent.
pub fn lent_count(lengths: &[u32]) -> usize
    requires { length lengths.now ≤ most_rings }
    ensures { result ≡ sum lengths.now }
{
    lengths.iter().map(|n| *n as usize).sum()
}

// How many coordinates the rings have, closed.
pub fn closed_sum(rings: LentRings) -> usize
    ensures { result ≡ total length (rings_of rings.entry) }
{
    let mut count = 0usize;
    for ring in rings {
        count += closed_count(ring);
    }
    count
}

// The room for cutting the rings, closed.
pub fn room_of(rings: LentRings) -> RoomNeeded
    requires { total length (rings_of rings) ≤ most_coordinates }
    ensures { RoomOf (rings_of rings.entry) result.largest result.all }
{
    let mut largest = 0usize;
    let mut all = 0usize;
    for ring in rings {
        let room = room_for(closed_count(ring));
        largest = largest.max(room);
        all += room;
    }
    RoomNeeded { largest, all }
}

// The rectangle of all rings.
pub fn polygon_rect_all_rings(rings: LentRings) -> Rect
    ensures { result ≡ rectangle (rings_of rings.entry) }
{
    let mut rect = Rect::Nothing;
    for ring in rings {
        rect = with_ring(rect, ring);
    }
    rect
}

// Whether a coordinate of any ring has a magnitude of 1e150 or more.
pub fn has_huge_ring(rings: LentRings) -> bool
    ensures { result ≡ any_huge_ring (rings_of rings.entry) }
{
    for ring in rings {
        if has_huge(ring) {
            return true;
        }
    }
    false
}
