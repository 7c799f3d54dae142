// What the coordinates of an accepted frame tell before a ring is cut: the rectangle of a part and of all parts, and whether a part has a
// coordinate that the overlay can't take.
// They are read where they stand, so that no array is needed. A frame's rings count as closed, but their bytes may be open: closing repeats
// a coordinate, which changes none of these answers.
ghost use Rattle.std.specs.Prelude.{◌≡◌, ◌+◌, ◌*◌, ◌≤◌, length, drop};
ghost use Rattle.rings.specs.declared.rectangle.Rect.TheVariants as Rects;
ghost use Rattle.rings.specs.Rectangle.{is_finite_coord, with_ring};
ghost use Rattle.rings.specs.Internal.{Numbers};
ghost use Rattle.rings.specs.Representable.{any_huge};
ghost use Rattle.frame_bytes.specs.Frame as Frames;
ghost use Rattle.frame_bytes.specs.Internal as Internal;
ghost use Rattle.frame_bytes.specs.Accepted.{frame_reading, part_reading};
ghost use Rattle.frame_bytes.specs.Internal.{measured_of, frame_rect, huge_of};

use super::accepted::{AcceptedFrame, PartBytes};
use super::head::{HEAD, PART_COUNT};
use super::ring::{COORD, COUNT, count_at, ring_at};
use rings::rectangle::{Rect, with_ring};
use rings::representable::has_huge;

// A rectangle, and where the next part starts.
#[derive(Clone, Copy)]
pub struct Measured {
    pub rect: Rect,
    pub next: usize,
}

// The rectangle with all rings of the part.
pub fn part_rect(part: PartBytes, rect: Rect) -> Measured
    ensures { result ≡ measured_of (length part.entry.frame.now) rect (part_reading part.entry) }
{
    let mut whole = rect;
    let rings = count_at(part.frame, part.at);
    let mut next = part.at + COUNT;
    for _ in 0..rings {
        let ring = ring_at(part.frame, next);
        whole = with_ring(whole, ring);
        next = ring.at + COORD * ring.n;
    }
    Measured { rect: whole, next }
}

// The rectangle of all parts.
// Stays beside `part_rect`, and that beside `part_has_huge`: they share the step to the next ring or part, and each keeps something else.
pub fn whole_rect(frame: AcceptedFrame) -> Rect
    ensures { result ≡ frame_rect (frame_reading frame.entry) }
{
    let mut rect = Rect::Nothing;
    let mut at = HEAD;
    let parts = count_at(frame.bytes, PART_COUNT);
    for _ in 0..parts {
        let part = PartBytes {
            frame: frame.bytes,
            at,
        };
        let measured = part_rect(part, rect);
        rect = measured.rect;
        at = measured.next;
    }
    rect
}

// Whether one of the coordinates of the part has a magnitude of 1e150 or more.
pub fn part_has_huge(part: PartBytes) -> bool
    ensures { result ≡ huge_of (part_reading part.entry) }
{
    let rings = count_at(part.frame, part.at);
    let mut next = part.at + COUNT;
    for _ in 0..rings {
        let ring = ring_at(part.frame, next);
        if has_huge(ring) {
            return true;
        }
        next = ring.at + COORD * ring.n;
    }
    false
}
