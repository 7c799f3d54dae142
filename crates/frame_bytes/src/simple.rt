// The issue check of an exterior that is assumed to be simple, on the bytes: it takes no array.
ghost use Rattle.std.specs.Prelude.{◌≡◌, ◌+◌, ◌*◌, ◌≤◌, length, drop};
ghost use Rattle.tile.specs.Ring.{close};
ghost use Rattle.box_pairs.specs.Internal.{repeated};
ghost use Rattle.frame_bytes.specs.Frame as Frames;
ghost use Rattle.frame_bytes.specs.Internal as Internal;
ghost use Rattle.frame_bytes.specs.Accepted.{part_reading};
ghost use Rattle.frame_bytes.specs.Internal.{sound_if_simple};

use super::accepted::PartBytes;
use super::ring::{COUNT, ring_at};
use box_pairs::cross::is_degenerate;
use tile::ring::{Coords, closed_count};

// Whether two neighbours of the ring, closed to `count` coordinates, are near each other, the last segment excepted. Each coordinate is
// read once.
fn has_repeated<R: Coords + Copy>(ring: R, count: usize) -> bool
    requires { (count ≡ length (close (R.coords ring))) × (4 ≤ count) }
    ensures { result ≡ repeated (close (R.coords ring)) }
{
    let mut p = ring.coord(0);
    for k in 0..count - 2 {
        let q = ring.coord(k + 1);
        if is_degenerate(p, q) {
            return true;
        }
        p = q;
    }
    false
}

// Whether the exterior of the part has no issue if it is assumed to be simple.
pub fn is_sound_if_simple(part: PartBytes) -> bool
    ensures { result ≡ sound_if_simple (part_reading part.entry) }
{
    let exterior = ring_at(part.frame, part.at + COUNT);
    let count = closed_count(exterior);
    if count < 4 {
        return false;
    }
    !has_repeated(exterior, count)
}
