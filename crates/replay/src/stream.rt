// Vectors as they stand in an input: little-endian numbers, taken from the front. What is not there, or has no room, is said to be
// missing. No contract speaks of what is read, so the functions that read promise nothing; those on bytes that were read do.
ghost use Rattle.std.specs.Prelude.{◌≡◌, ◌+◌, ◌*◌, ◌≤◌, length, take, drop};
ghost use Rattle.binary64.specs.Bytes.{Little, number_of, double};
ghost use Rattle.tile.specs.Bounds.{new_of};

use super::lent::Lent;
use binary64::bytes::{read_f64, read_number};
use std::io::Read;
use tile::TileBounds;

// The most numbers that are read at a time.
const MOST_READ: usize = 4096;

const MOST_BYTES: usize = 8 * MOST_READ;

// Fills all of a slice, unless the input ends before or a read fails.
pub fn fill<R: Read>(input: &mut R, bytes: &mut [u8]) -> Option<()> {
    input.read_exact(bytes).ok()
}

// Whether nothing more can be read.
pub fn is_at_end<R: Read>(input: &mut R) -> bool {
    let mut byte = [0u8; 1];
    fill(input, &mut byte).is_none()
}

pub fn whole_at(bytes: &[u8], at: usize) -> u32
    requires { at + 4 ≤ length bytes.now }
    ensures { result ≡ number_of Little (take 4 (drop at bytes.now)) }
{
    read_number::<4>(bytes, at) as u32
}

pub fn count_at(bytes: &[u8], at: usize) -> usize
    requires { at + 4 ≤ length bytes.now }
    ensures { result ≡ number_of Little (take 4 (drop at bytes.now)) }
{
    whole_at(bytes, at) as usize
}

pub fn origin_at(bytes: &[u8], at: usize) -> u16
    requires { at + 2 ≤ length bytes.now }
    ensures { result ≡ number_of Little (take 2 (drop at bytes.now)) }
{
    read_number::<2>(bytes, at) as u16
}

// West, south, east and north.
pub fn bounds_at(bytes: &[u8], at: usize) -> TileBounds
    requires { at + 32 ≤ length bytes.now }
    ensures { result ≡ new_of (double Little (take 8 (drop at bytes.now)))
        (double Little (take 8 (drop (at + 8) bytes.now)))
        (double Little (take 8 (drop (at + 16) bytes.now)))
        (double Little (take 8 (drop (at + 24) bytes.now))) }
{
    let west = read_f64(bytes, at);
    let south = read_f64(bytes, at + 8);
    let east = read_f64(bytes, at + 16);
    let north = read_f64(bytes, at + 24);
    TileBounds::new(west, south, east, north)
}

pub fn read_count<R: Read>(input: &mut R) -> Option<usize> {
    let mut bytes = [0u8; 4];
    fill(input, &mut bytes)?;
    Some(count_at(&bytes, 0))
}

// The answer as it crosses, by its bits.
pub fn read_code<R: Read>(input: &mut R) -> Option<u64> {
    let mut bytes = [0u8; 8];
    fill(input, &mut bytes)?;
    Some(read_number::<8>(&bytes, 0))
}

fn decode<T: Lent>(bytes: &[u8], to: &mut [T])
    requires { T.SIZE * length to.old ≤ length bytes.now }
{
    for (i, number) in to.iter_mut().enumerate() {
        *number = T::read_at(bytes, T::SIZE * i);
    }
}

// So many numbers, to the front of a slice.
pub fn read_numbers<T: Lent, R: Read>(input: &mut R, n: usize, to: &mut [T]) -> Option<()> {
    if n > to.len() || n > MOST_READ {
        return None;
    }
    let mut bytes = [0u8; MOST_BYTES];
    fill(input, &mut bytes[..T::SIZE * n])?;
    decode(&bytes, &mut to[..n]);
    Some(())
}
