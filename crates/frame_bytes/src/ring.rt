// Counts, coordinates and rings at a position of a frame.
ghost use Rattle.std.specs.Prelude.{◌≡◌, ◌+◌, ◌*◌, ◌^◌, ◌<◌, ◌≤◌, length, drop};
ghost use Rattle.std.proofs.lemmas.List.Edits.{sets};
ghost use Rattle.tile.specs.Ring.{flat};
ghost use Rattle.frame_bytes.specs.Frame as Frames;

use binary64::bytes::{read_f64, read_number};
use tile::Coord;
use tile::ring::{Coords, put};

// The bytes of a count and of a coordinate.
pub const COUNT: usize = 2;

pub const COORD: usize = 16;

// The count at `at`: of parts, of rings or of coordinates.
pub fn count_at(frame: &[u8], at: usize) -> usize
    requires { at + 2 ≤ length frame.now }
    ensures { (result ≡ Frames.count_of (drop at frame.now)) × (result < 2 ^ 16) }
{
    read_number::<2>(frame, at) as usize
}

pub fn coord_at(frame: &[u8], at: usize) -> Coord
    requires { at + 16 ≤ length frame.now }
    ensures { result ≡ Frames.coord_of (drop at frame.now) }
{
    Coord {
        x: read_f64(frame, at),
        y: read_f64(frame, at + 8),
    }
}

// The n coordinates of a ring, as they stand in a frame from `at` on.
#[derive(Clone, Copy)]
pub struct RingBytes<'a> {
    pub frame: &'a [u8],
    pub at: usize,
    pub n: usize,
    ghost fits: { at + 16 * n ≤ length frame.now },
}

impl<'a> Coords for RingBytes<'a> {
    ghost coords = { λ ring. Frames.coords_of ring.n (drop ring.at ring.frame.now) };

    fn count(&self) -> usize {
        self.n
    }

    fn coord(&self, i: usize) -> Coord {
        coord_at(self.frame, self.at + COORD * i)
    }
}

// The ring that begins at `at`: its count, and its coordinates behind that.
pub fn ring_at<'a>(frame: &'a [u8], at: usize) -> RingBytes<'a>
    requires { at + 2 + 16 * Frames.count_of (drop at frame.now) ≤ length frame.now }
    ensures { (result.frame.now ≡ frame.now) × (result.at ≡ at + 2) × (result.n ≡ Frames.count_of (drop at frame.now)) }
{
    let n = count_at(frame, at);
    RingBytes {
        frame,
        at: at + COUNT,
        n,
    }
}

// Writes the coordinates of a ring in a frame, not closed, to the front of `ring`, and answers where the next ring starts.
pub fn decode_ring(from: RingBytes, ring: &mut [f64]) -> usize
    requires { 2 * from.n ≤ length ring.old }
    ensures { (result ≡ from.entry.at + 16 * from.entry.n) × (ring.new ≡ sets ring.old 0
        (flat (Frames.coords_of from.entry.n (drop from.entry.at from.entry.frame.now)))) }
{
    for i in 0..from.n {
        let p = from.coord(i);
        put(ring, i, p);
    }
    from.at + COORD * from.n
}
