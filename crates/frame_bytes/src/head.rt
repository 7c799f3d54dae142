// The head of a frame: what stands before its parts.
ghost use Rattle.std.specs.Prelude.{◌≡◌, ◌≤◌, length};
ghost use Rattle.frame_bytes.specs.Frame as Frames;

use super::ring::count_at;
use binary64::bytes::read_f64;
use tile::TileBounds;

// Where the part count stands, and the bytes of a head.
pub const PART_COUNT: usize = 42;

pub const HEAD: usize = 44;

// The bounds are as read: not buffered yet. `parts` is the count of parts.
#[derive(Clone, Copy)]
pub struct Head {
    // Stays a number: `read_head` promises the byte of any 44 bytes, also one that is no kind, and `check_frame` asks it before.
    pub kind: u8,
    pub assume_simple: bool,
    pub skip_boundary_fallback: bool,
    pub bounds: TileBounds,
    pub buffer: f64,
    pub parts: usize,
}

fn read_bounds(frame: &[u8]) -> TileBounds
    requires { Frames.head_bytes ≤ length frame.now }
    ensures { result ≡ Frames.bounds_of frame.now }
{
    let west = read_f64(frame, 2);
    let south = read_f64(frame, 10);
    let east = read_f64(frame, 18);
    let north = read_f64(frame, 26);
    TileBounds::new(west, south, east, north)
}

pub fn read_head(frame: &[u8]) -> Head
    requires { Frames.head_bytes ≤ length frame.now }
    ensures { result ≡ Frames.head_of frame.now }
{
    let flags = frame[1];
    Head {
        kind: frame[0],
        assume_simple: flags % 2 == 1,
        skip_boundary_fallback: flags / 2 == 1,
        bounds: read_bounds(frame),
        buffer: read_f64(frame, 34),
        parts: count_at(frame, PART_COUNT),
    }
}
