// The frame reader's refusals, document 01's 11 to 18: a walk over positions, in which nothing is kept but where it stands.
ghost use Rattle.std.specs.Prelude.{◌≡◌, ◌≤◌, length, drop};
ghost use Rattle.frame_bytes.specs.Frame as Frames;
ghost use Rattle.frame_bytes.specs.Internal as Internal;

use super::head::{HEAD, PART_COUNT};
use super::ring::{COORD, COUNT, count_at};
use rings::lent::MOST_RINGS;

pub const LONGEST: usize = 5120;

const MOST_FLAGS: u8 = 3;

const MOST_PARTS: usize = 256;

const MOST_IN_RING: usize = 4096;

// What a frame holds, by document 01's numbers.
#[derive(Clone, Copy)]
pub enum FrameKind {
    Polygon = 3,
    Multipolygon = 6,
}

// Why a frame call is refused: document 01's 11 to 18, and 22.
#[derive(Clone, Copy)]
pub enum FrameRefusal {
    Size,
    Kind,
    FlagBits,
    PartCount,
    Truncated,
    RingCount,
    CoordinateCount,
    Trailing,
    Output,
}

// Document 01's number of a refusal.
impl From<FrameRefusal> for u8 {
    ghost from_gives = { λ refusal number. number ≡ Frames.frame_refusal_number refusal };

    fn from(refusal: FrameRefusal) -> u8 {
        match refusal {
            FrameRefusal::Size => 11,
            FrameRefusal::Kind => 12,
            FrameRefusal::FlagBits => 13,
            FrameRefusal::PartCount => 14,
            FrameRefusal::Truncated => 15,
            FrameRefusal::RingCount => 16,
            FrameRefusal::CoordinateCount => 17,
            FrameRefusal::Trailing => 18,
            FrameRefusal::Output => 22,
        }
    }
}

fn is_wrong_size(size: usize) -> bool
    ensures { result ≡ Frames.wrong_size size }
{
    size < HEAD || size > LONGEST
}

fn is_wrong_kind(kind: u8) -> bool
    ensures { result ≡ Frames.wrong_kind kind }
{
    kind != FrameKind::Polygon as u8 && kind != FrameKind::Multipolygon as u8
}

fn is_wrong_part_count(kind: u8, parts: usize) -> bool
    ensures { result ≡ Frames.wrong_part_count kind parts }
{
    if kind == FrameKind::Polygon as u8 && parts != 1 {
        return true;
    }
    parts > MOST_PARTS
}

fn is_wrong_ring_count(rings: usize) -> bool
    ensures { result ≡ Frames.wrong_ring_count rings }
{
    rings == 0 || rings > MOST_RINGS
}

// A walk from the front ends at a refusal, or at the place where the next thing starts. This one passes over the ring at `at`.
fn pass_ring(frame: &[u8], at: usize) -> Result<usize, FrameRefusal>
    requires { at ≤ length frame.now }
    ensures { result ≡ Internal.walked (length frame.now) (Frames.read_ring (drop at frame.now)) }
{
    let left = frame.len() - at;
    if left < COUNT {
        return Err(FrameRefusal::Truncated);
    }
    let n = count_at(frame, at);
    if n > MOST_IN_RING {
        return Err(FrameRefusal::CoordinateCount);
    }
    if left - COUNT < COORD * n {
        return Err(FrameRefusal::Truncated);
    }
    Ok(at + COUNT + COORD * n)
}

// Passes over `count` things, the first of which begins at `start`: `pass` passes over the one at a place.
fn pass_many<F: Fn(usize) -> Result<usize, FrameRefusal>>(
    start: usize,
    count: usize,
    pass: F,
) -> Result<usize, FrameRefusal>
    requires { Internal.Passable (F.pre pass) (F.post pass) count start }
    ensures { Internal.Passes (F.post pass) count start result }
{
    let mut at = start;
    for _ in 0..count {
        at = pass(at)?;
    }
    Ok(at)
}

// Passes over the part at `at`.
fn pass_part(frame: &[u8], at: usize) -> Result<usize, FrameRefusal>
    requires { at ≤ length frame.now }
    ensures { result ≡ Internal.walked (length frame.now) (Frames.read_part (drop at frame.now)) }
{
    if frame.len() - at >= COUNT {
        let rings = count_at(frame, at);
        if is_wrong_ring_count(rings) {
            return Err(FrameRefusal::RingCount);
        }
        return pass_many(at + COUNT, rings, |ring| pass_ring(frame, ring));
    }
    Err(FrameRefusal::Truncated)
}

// The refusals of the parts and of what follows them.
fn check_parts(frame: &[u8], parts: usize) -> Result<(), FrameRefusal>
    requires { Frames.head_bytes ≤ length frame.now }
    ensures { result ≡ Internal.check_of (Frames.read_parts parts (drop Frames.head_bytes frame.now)) }
{
    let end = pass_many(HEAD, parts, |part| pass_part(frame, part))?;
    if end < frame.len() {
        return Err(FrameRefusal::Trailing);
    }
    Ok(())
}

// The refusals of a frame, in their order.
pub fn check_frame(frame: &[u8]) -> Result<(), FrameRefusal>
    ensures { result ≡ Internal.check_of (Frames.read_frame frame.now) }
{
    if is_wrong_size(frame.len()) {
        return Err(FrameRefusal::Size);
    }
    let kind = frame[0];
    if is_wrong_kind(kind) {
        return Err(FrameRefusal::Kind);
    }
    if frame[1] > MOST_FLAGS {
        return Err(FrameRefusal::FlagBits);
    }
    let parts = count_at(frame, PART_COUNT);
    if is_wrong_part_count(kind, parts) {
        return Err(FrameRefusal::PartCount);
    }
    check_parts(frame, parts)
}
