// Ring calls, each held to its answer and to what that answer leaves in the lent slices.
ghost use Rattle.std.specs.Prelude.{◌≡◌, ◌&&◌, length};
ghost use Rattle.ring_calls.specs.RingCall.{ring_slices};
ghost use Rattle.replay.specs.Code.{is_refusal};
ghost use Rattle.replay.specs.Lent.{origin_mark};
ghost use Rattle.replay.specs.Calls.{answer_agrees, slices_agree, ring_agrees, ring_fits, ring_outcome};

use super::code::{Outcome, is_refusal, numbers_of, of_ring};
use super::lent::{MOST_NUMBERS, ROOM, answer_agrees, marks, no_numbers, slices_agree};
use super::stream::{bounds_at, count_at, fill, read_code, read_count, read_numbers};
use ring_calls::ring;
use std::io::Read;
use tile::TileBounds;

// The bytes before the numbers of a ring: four lengths, the bounds, and two counts.
const HEAD: usize = 56;

// `scratch` to `out_origins` are the lengths of the slices. Of the numbers that are lent only the first are stored; the others are zeros.
#[derive(Clone, Copy)]
struct RingVector {
    scratch: usize,
    origin_scratch: usize,
    out: usize,
    out_origins: usize,
    bounds: TileBounds,
    numbers: usize,
    stored: usize,
}

fn read_head(bytes: &[u8]) -> RingVector
    requires { length bytes.now ≡ 56 }
{
    RingVector {
        scratch: count_at(bytes, 0),
        origin_scratch: count_at(bytes, 4),
        out: count_at(bytes, 8),
        out_origins: count_at(bytes, 12),
        bounds: bounds_at(bytes, 16),
        numbers: count_at(bytes, 48),
        stored: count_at(bytes, 52),
    }
}

// Whether the code of an answer is the kept one, and the call has left the lent slices as it has to.
fn all_agree(
    given: u64,
    code: u64,
    scratch: &[f64],
    origin_scratch: &[u16],
    out: &[f64],
    out_origins: &[u16],
    expected: &[f64],
    expected_origins: &[u16],
) -> bool
    ensures { result ≡ answer_agrees given code scratch.now out.now expected.now
        && slices_agree (is_refusal code) origin_mark origin_scratch.now out_origins.now
        expected_origins.now }
{
    if !answer_agrees(given, code, scratch, out, expected) {
        return false;
    }
    slices_agree(
        is_refusal(code),
        origin_scratch,
        out_origins,
        expected_origins,
    )
}

fn agrees(
    code: u64,
    lent: &[f64],
    bounds: TileBounds,
    scratch: &mut [f64],
    origin_scratch: &mut [u16],
    out: &mut [f64],
    out_origins: &mut [u16],
    expected: &[f64],
    expected_origins: &[u16],
) -> bool
    ensures { result ≡ ring_agrees code expected.now expected_origins.now lent.now bounds
        (ring_slices scratch.old origin_scratch.old out.old out_origins.old) }
{
    let answer = ring(lent, bounds, scratch, origin_scratch, out, out_origins);
    all_agree(
        of_ring(answer),
        code,
        scratch,
        origin_scratch,
        out,
        out_origins,
        expected,
        expected_origins,
    )
}

// Whether the slices that are lent to be written have room.
fn has_room(head: RingVector) -> bool
    ensures { result ≡ ring_fits head }
{
    let lengths = [
        head.scratch,
        head.origin_scratch,
        head.out,
        head.out_origins,
    ];
    lengths.iter().all(|n| *n <= ROOM)
}

fn call(
    head: RingVector,
    code: u64,
    lent: &[f64],
    expected: &[f64],
    expected_origins: &[u16],
) -> Option<Outcome>
    ensures { result ≡ ring_outcome head code lent.now expected.now expected_origins.now }
{
    if !has_room(head) {
        return None;
    }
    let scratch_length = head.scratch;
    let origin_scratch_length = head.origin_scratch;
    let out_length = head.out;
    let out_origins_length = head.out_origins;
    let mut scratch = marks();
    let mut origin_scratch = marks();
    let mut out = marks();
    let mut out_origins = marks();
    if agrees(
        code,
        lent,
        head.bounds,
        &mut scratch[..scratch_length],
        &mut origin_scratch[..origin_scratch_length],
        &mut out[..out_length],
        &mut out_origins[..out_origins_length],
        expected,
        expected_origins,
    ) {
        return Some(Outcome::Same(code));
    }
    Some(Outcome::Differs)
}

// From the answer on. There follow: how many numbers the call writes to the output, zeros included, and half as many origins; then the
// numbers of the ring, and its origins.
fn replay_answer<R: Read>(input: &mut R, head: RingVector, lent: &[f64]) -> Option<Outcome> {
    let code = read_code(input)?;
    let written = read_count(input)?;
    if written > ROOM {
        return None;
    }
    let m = numbers_of(code);
    if m > ROOM {
        return None;
    }
    let mut expected = [0.0f64; ROOM];
    read_numbers(input, m, &mut expected)?;
    let mut origins = [0u16; ROOM];
    read_numbers(input, m / 2, &mut origins)?;
    call(
        head,
        code,
        lent,
        &expected[..written],
        &origins[..written / 2],
    )
}

// From the numbers of the ring on.
fn replay_with<R: Read>(input: &mut R, head: RingVector) -> Option<Outcome> {
    let n = head.numbers;
    if n > MOST_NUMBERS {
        return None;
    }
    let mut lent = no_numbers();
    read_numbers(input, head.stored, &mut lent)?;
    replay_answer(input, head, &lent[..n])
}

pub fn replay_ring<R: Read>(input: &mut R) -> Option<Outcome> {
    let mut bytes = [0u8; HEAD];
    fill(input, &mut bytes)?;
    replay_with(input, read_head(&bytes))
}
