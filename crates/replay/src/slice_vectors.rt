// Slice calls, each held to its answer and to what that answer leaves in the lent slices.
ghost use Rattle.std.specs.Prelude.{◌≡◌, ◌&&◌, ◌^◌, ◌<◌, length};
ghost use Rattle.replay.specs.Code.{is_refusal};
ghost use Rattle.slices.specs.SliceCall.{polygon_slices};
ghost use Rattle.replay.specs.Lent.{whole_mark, origin_mark, numbers_in};
ghost use Rattle.replay.specs.Calls.{answer_agrees, slices_agree, slice_agrees, slice_fits, slice_outcome};

use super::code::{Outcome, is_refusal, of_slice, rings_of};
use super::lent::{MOST_NUMBERS, ROOM, answer_agrees, marks, no_numbers, slices_agree};
use super::stream::{bounds_at, count_at, fill, read_code, read_count, read_numbers};
use binary64::bytes::read_f64;
use clip::polygon::Flags;
use slices::call::polygon;
use std::io::Read;
use tile::TileBounds;

// The bytes before the lengths of the rings: flags, six lengths, the bounds, the buffer, and the count of rings.
const HEAD: usize = 72;

// The most rings that are lent or expected.
const MOST_RINGS: usize = 128;

// `scratch` to `out_origins` are the lengths of the slices.
#[derive(Clone, Copy)]
struct SliceVector {
    flags: Flags,
    scratch: usize,
    origin_scratch: usize,
    order: usize,
    out: usize,
    out_lengths: usize,
    out_origins: usize,
    bounds: TileBounds,
    buffer: f64,
    rings: usize,
}

fn read_flags(bytes: &[u8]) -> Flags
    requires { length bytes.now ≡ 72 }
{
    let flags = count_at(bytes, 0);
    Flags {
        assume_simple: flags % 2 == 1,
        skip_boundary_fallback: flags / 2 == 1,
    }
}

fn read_head(bytes: &[u8]) -> SliceVector
    requires { length bytes.now ≡ 72 }
{
    SliceVector {
        flags: read_flags(bytes),
        scratch: count_at(bytes, 4),
        origin_scratch: count_at(bytes, 8),
        order: count_at(bytes, 12),
        out: count_at(bytes, 16),
        out_lengths: count_at(bytes, 20),
        out_origins: count_at(bytes, 24),
        bounds: bounds_at(bytes, 28),
        buffer: read_f64(bytes, 60),
        rings: count_at(bytes, 68),
    }
}

// Whether the code of an answer is the kept one, and the call has left the lent slices as it has to.
// Stays beside that of `ring_vectors`, and so do `has_room` and `call`: more slices are lent, and each has a definition of its own.
fn all_agree(
    given: u64,
    code: u64,
    scratch: &[f64],
    origin_scratch: &[u16],
    order: &[u32],
    out: &[f64],
    out_lengths: &[u32],
    out_origins: &[u16],
    expected: &[f64],
    expected_lengths: &[u32],
    expected_origins: &[u16],
) -> bool
    ensures { result ≡ answer_agrees given code scratch.now out.now expected.now
        && (slices_agree (is_refusal code) whole_mark order.now out_lengths.now expected_lengths.now
        && slices_agree (is_refusal code) origin_mark origin_scratch.now out_origins.now
        expected_origins.now) }
{
    if !answer_agrees(given, code, scratch, out, expected) {
        return false;
    }
    let refused = is_refusal(code);
    if !slices_agree(refused, order, out_lengths, expected_lengths) {
        return false;
    }
    slices_agree(refused, origin_scratch, out_origins, expected_origins)
}

fn agrees(
    code: u64,
    head: SliceVector,
    coords: &[f64],
    lengths: &[u32],
    scratch: &mut [f64],
    origin_scratch: &mut [u16],
    order: &mut [u32],
    out: &mut [f64],
    out_lengths: &mut [u32],
    out_origins: &mut [u16],
    expected: &[f64],
    expected_lengths: &[u32],
    expected_origins: &[u16],
) -> bool
    ensures { result ≡ slice_agrees code expected.now expected_lengths.now expected_origins.now
        head.flags head.bounds head.buffer coords.now lengths.now
        (polygon_slices scratch.old origin_scratch.old order.old out.old
        out_lengths.old out_origins.old) }
{
    let answer = polygon(
        head.flags,
        head.bounds,
        head.buffer,
        coords,
        lengths,
        scratch,
        origin_scratch,
        order,
        out,
        out_lengths,
        out_origins,
    );
    all_agree(
        of_slice(answer),
        code,
        scratch,
        origin_scratch,
        order,
        out,
        out_lengths,
        out_origins,
        expected,
        expected_lengths,
        expected_origins,
    )
}

// Whether the slices that are lent to be written have room.
fn has_room(head: SliceVector) -> bool
    ensures { result ≡ slice_fits head }
{
    let lengths = [
        head.scratch,
        head.origin_scratch,
        head.order,
        head.out,
        head.out_lengths,
        head.out_origins,
    ];
    lengths.iter().all(|n| *n <= ROOM)
}

fn call(
    head: SliceVector,
    code: u64,
    coords: &[f64],
    lengths: &[u32],
    expected: &[f64],
    expected_lengths: &[u32],
    expected_origins: &[u16],
) -> Option<Outcome>
    ensures { result ≡ slice_outcome head code coords.now lengths.now expected.now
        expected_lengths.now expected_origins.now }
{
    if !has_room(head) {
        return None;
    }
    let scratch_length = head.scratch;
    let origin_scratch_length = head.origin_scratch;
    let order_length = head.order;
    let out_length = head.out;
    let lengths_length = head.out_lengths;
    let out_origins_length = head.out_origins;
    let mut scratch = marks();
    let mut origin_scratch = marks();
    let mut order = marks();
    let mut out = marks();
    let mut out_lengths = marks();
    let mut out_origins = marks();
    if agrees(
        code,
        head,
        coords,
        lengths,
        &mut scratch[..scratch_length],
        &mut origin_scratch[..origin_scratch_length],
        &mut order[..order_length],
        &mut out[..out_length],
        &mut out_lengths[..lengths_length],
        &mut out_origins[..out_origins_length],
        expected,
        expected_lengths,
        expected_origins,
    ) {
        return Some(Outcome::Same(code));
    }
    Some(Outcome::Differs)
}

// Stays a function: that the number is below 2^32 is what keeps a sum of them from overflow.
fn wide(x: u32) -> usize
    ensures { (result ≡ x) × (result < 2 ^ 32) }
{
    x as usize
}

// The numbers of rings with these lengths; where they have no room, one more than that.
fn numbers_in(lengths: &[u32]) -> usize
    ensures { result ≡ numbers_in lengths.now }
{
    let mut sum = 0usize;
    for length in lengths {
        sum += wide(*length);
        if sum > ROOM / 2 {
            return ROOM + 1;
        }
    }
    2 * sum
}

// From the cut's lengths on. There follow: how many numbers the call writes to the output, zeros included, and half as many origins; then
// the cut's numbers, and its origins.
fn replay_expected<R: Read>(
    input: &mut R,
    head: SliceVector,
    code: u64,
    coords: &[f64],
    lengths: &[u32],
    expected_lengths: &[u32],
) -> Option<Outcome> {
    let written = read_count(input)?;
    if written > ROOM {
        return None;
    }
    let m = numbers_in(expected_lengths);
    if m > ROOM {
        return None;
    }
    let mut expected = [0.0f64; ROOM];
    read_numbers(input, m, &mut expected)?;
    let mut origins = [0u16; ROOM];
    read_numbers(input, m / 2, &mut origins)?;
    call(
        head,
        code,
        coords,
        lengths,
        &expected[..written],
        expected_lengths,
        &origins[..written / 2],
    )
}

// From the answer on, which a cut's lengths follow.
fn replay_answer<R: Read>(
    input: &mut R,
    head: SliceVector,
    coords: &[f64],
    lengths: &[u32],
) -> Option<Outcome> {
    let code = read_code(input)?;
    let k = rings_of(code);
    if k > MOST_RINGS {
        return None;
    }
    let mut expected_lengths = [0u32; MOST_RINGS];
    read_numbers(input, k, &mut expected_lengths)?;
    replay_expected(input, head, code, coords, lengths, &expected_lengths[..k])
}

// From the count of numbers on.
fn replay_numbers<R: Read>(input: &mut R, head: SliceVector, lengths: &[u32]) -> Option<Outcome> {
    let n = read_count(input)?;
    let stored = read_count(input)?;
    if n > MOST_NUMBERS {
        return None;
    }
    let mut coords = no_numbers();
    read_numbers(input, stored, &mut coords)?;
    replay_answer(input, head, &coords[..n], lengths)
}

fn replay_with<R: Read>(input: &mut R, head: SliceVector) -> Option<Outcome> {
    let k = head.rings;
    if k > MOST_RINGS {
        return None;
    }
    let mut lengths = [0u32; MOST_RINGS];
    read_numbers(input, k, &mut lengths)?;
    replay_numbers(input, head, &lengths[..k])
}

pub fn replay_slice<R: Read>(input: &mut R) -> Option<Outcome> {
    let mut bytes = [0u8; HEAD];
    fill(input, &mut bytes)?;
    replay_with(input, read_head(&bytes))
}
