// Coordinates that the overlay can't take: the source's `polygon_representable`, of one ring.
ghost use Rattle.std.specs.Prelude.{◌≡◌};
ghost use Rattle.rings.specs.Representable as Representable;

use binary64::compare::is_huge;
use tile::Coord;
use tile::ring::Coords;

#[tactic(auto, unfolding(crate::specs::Representable::huge_coord))]
pub fn is_huge_coord(p: Coord) -> bool
    ensures { result ≡ Representable.huge_coord p }
{
    is_huge(p.x) || is_huge(p.y)
}

// Whether a coordinate of a ring has a magnitude of 1e150 or more.
pub fn has_huge<R: Coords + Copy>(ring: R) -> bool
    ensures { result ≡ Representable.any_huge (R.coords ring) }
{
    for i in 0..ring.count() {
        if is_huge_coord(ring.coord(i)) {
            return true;
        }
    }
    false
}
