// The bytes of an answer: counts, coordinates with their origins, rings, the header and the fixed part of a listed part, each written at a
// position of the output.
ghost use Rattle.std.specs.Prelude.{◌≡◌, [], ◌∷◌, ◌++◌, ◌+◌, ◌*◌, ◌≤◌, length};
ghost use Rattle.std.proofs.lemmas.List.Edits.{sets};
ghost use Rattle.frame_bytes.specs.Room.{least_room, answer_coord_size};
ghost use Rattle.frame_bytes.specs.Internal as Internal;
ghost use Rattle.frame_bytes.specs.Encoding as Encoding;

use super::ring::{COORD, COUNT};
use binary64::bytes::{write_f64, write_number};
use tile::Coord;
use tile::ring::coord_at;

// The bytes that every listed part begins with.
pub const PART: usize = 4;

// The bytes of a coordinate in an answer, its origin behind it. A frame that is lent has COORD for each.
pub const ANSWER_COORD: usize = COORD + COUNT;

pub fn put_count(out: &mut [u8], at: usize, n: usize)
    requires { at + 2 ≤ length out.old }
    ensures { out.new ≡ sets out.old at (Encoding.count_bytes n) }
{
    write_number::<2>(out, at, n as u64);
}

fn put_coord(out: &mut [u8], at: usize, p: Coord)
    requires { at + 16 ≤ length out.old }
    ensures { out.new ≡ sets out.old at (Encoding.coord_bytes p) }
{
    write_f64(out, at, p.x);
    write_f64(out, at + 8, p.y);
}

fn put_answer_coord(out: &mut [u8], at: usize, p: Coord, origin: u16)
    requires { at + answer_coord_size ≤ length out.old }
    ensures { out.new ≡ sets out.old at (Encoding.answer_coord_bytes (record { coord = p; origin = origin })) }
{
    put_coord(out, at, p);
    put_count(out, at + COORD, origin as usize);
}

// Writes the n coordinates at the front of a slice, their count first and behind each its origin, and answers where the next thing is
// written.
// Stays with a count beside: a cut is left at the fronts of longer slices, and one count is that of both.
pub fn put_ring(ring: &[f64], origins: &[u16], n: usize, out: &mut [u8], at: usize) -> usize
    requires { (2 * n ≤ length ring.now) × (n ≤ length origins.now) × (at + 2 + answer_coord_size * n ≤ length out.old) }
    ensures { (result ≡ at + 2 + answer_coord_size * n) × (out.new ≡ sets out.old at
        (Encoding.ring_bytes Encoding.answer_coord_bytes (Internal.front_answer_coords ring.now origins.now n))) }
{
    put_count(out, at, n);
    let first = at + COUNT;
    for i in 0..n {
        let p = coord_at(ring, i);
        put_answer_coord(out, first + ANSWER_COORD * i, p, origins[i]);
    }
    first + ANSWER_COORD * n
}

// The header is written when the parts behind it are known.
// Stays a number, here and below: a header is also that of a refused line, whose number is no answer's kind.
pub fn put_header(out: &mut [u8], number: u8, guard: usize, parts: usize)
    requires { least_room ≤ length out.old }
    ensures { out.new ≡ sets out.old 0 (Encoding.header_bytes number guard parts) }
{
    out[0] = number;
    put_count(out, 1, guard);
    put_count(out, 3, parts);
}

// What each listed part begins with: the ring count and rings of a cut, or the positions of an overlay, stand behind it.
pub fn put_part(out: &mut [u8], at: usize, index: usize, number: u8, reason: u8)
    requires { at + 4 ≤ length out.old }
    ensures { out.new ≡ sets out.old at (Encoding.count_bytes index ++ (number ∷ reason ∷ [])) }
{
    put_count(out, at, index);
    out[at + 2] = number;
    out[at + 3] = reason;
}
