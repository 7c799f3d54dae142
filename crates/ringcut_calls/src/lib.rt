// The calls that C and Rust programs link, in one static library. A slice crosses as a pointer and a length, of which include/ringcut.h
// says what they must be; a refusal is answered as minus its number.
#![tactic(auto)]

ghost use Rattle.std.specs.Prelude.{◌≡◌, neg_ℤ, pos};
ghost use Rattle.tile.specs.Bounds.{new_of};
ghost use Rattle.mend.specs.MendCall.{mend_call_answer, mend_call_code, mend_call_output, MendPromise};
ghost use Rattle.ring_calls.specs.RingCall.{ring_slices, ring_call_answer, ring_call_code, ring_call_slices, RingCallPromise};
ghost use Rattle.slices.specs.SliceCall.{polygon_slices, slice_call_answer, slice_call_slices, slice_call_code, slice_call_guards};
ghost use Rattle.slices.specs.SliceCall.{guards_in};
ghost use Rattle.frames.specs.Output.{frame_call_output};
ghost use Rattle.frames.specs.FrameCall.{frame_call_answer, frame_call_code};
ghost use Rattle.ringcut_calls.specs.Flags.{is_set, flags_of};
ghost use Rattle.ringcut_calls.specs.Version.{version};

use clip::polygon::Flags;
use slices::call::answer_code;
use tile::TileBounds;

// The code of a refusal, by its number: minus that.
fn refusal_code(number: u8) -> i64
    ensures { result ≡ neg_ℤ (pos number) }
{
    -i64::from(number)
}

// The ring call: the count of coordinates of the cut ring, or minus the refusal. A NaN stands exactly where the definition has one, and
// its bits are free, also in a slice that is left as it was.
#[unsafe(no_mangle)]
pub extern "C" fn ringcut_ring(
    ring: &[f64],
    west: f64,
    south: f64,
    east: f64,
    north: f64,
    scratch: &mut [f64],
    origin_scratch: &mut [u16],
    out: &mut [f64],
    out_origins: &mut [u16],
) -> i64
    ensures answer { result ≡ ring_call_code (ring_call_answer ring.now (new_of west south east north)
        (ring_slices scratch.old origin_scratch.old out.old out_origins.old)) }
    ensures lent { ring_slices scratch.new origin_scratch.new out.new out_origins.new
        ≡ ring_call_slices ring.now (new_of west south east north)
        (ring_slices scratch.old origin_scratch.old out.old out_origins.old) }
    ensures promise { RingCallPromise ring.now (new_of west south east north)
        (ring_call_answer ring.now (new_of west south east north)
        (ring_slices scratch.old origin_scratch.old out.old out_origins.old))
        out.new }
{
    let bounds = TileBounds::new(west, south, east, north);
    match ring_calls::ring(ring, bounds, scratch, origin_scratch, out, out_origins) {
        Err(refusal) => refusal_code(u8::from(refusal)),
        Ok(n) => n as i64,
    }
}

// Whether a flag that crosses as a number is set: any but 0.
fn is_set(flag: u8) -> bool
    ensures { result ≡ is_set flag }
{
    flag != 0
}

// The slice call: the answer's code, which tells the guard count too, or minus the refusal. A NaN stands exactly where the definition has
// one, and its bits are free, also in a slice that is left as it was.
#[unsafe(no_mangle)]
pub extern "C" fn ringcut_polygon(
    assume_simple: u8,
    skip_boundary_fallback: u8,
    west: f64,
    south: f64,
    east: f64,
    north: f64,
    buffer: f64,
    coords: &[f64],
    lengths: &[u32],
    scratch: &mut [f64],
    origin_scratch: &mut [u16],
    order: &mut [u32],
    out: &mut [f64],
    out_lengths: &mut [u32],
    out_origins: &mut [u16],
) -> i64
    ensures answer { result ≡ slice_call_code (slice_call_answer
        (flags_of assume_simple skip_boundary_fallback) (new_of west south east north) buffer coords.now lengths.now
        (polygon_slices scratch.old origin_scratch.old order.old out.old
        out_lengths.old out_origins.old)) }
    ensures guards { guards_in result ≡ slice_call_guards (slice_call_answer
        (flags_of assume_simple skip_boundary_fallback) (new_of west south east north) buffer coords.now lengths.now
        (polygon_slices scratch.old origin_scratch.old order.old out.old
        out_lengths.old out_origins.old)) }
    ensures lent { polygon_slices scratch.new origin_scratch.new order.new out.new
        out_lengths.new out_origins.new
        ≡ slice_call_slices (flags_of assume_simple skip_boundary_fallback) (new_of west south east north) buffer coords.now
        lengths.now
        (polygon_slices scratch.old origin_scratch.old order.old out.old
        out_lengths.old out_origins.old) }
{
    let flags = Flags {
        assume_simple: is_set(assume_simple),
        skip_boundary_fallback: is_set(skip_boundary_fallback),
    };
    match slices::call::polygon(
        flags,
        TileBounds::new(west, south, east, north),
        buffer,
        coords,
        lengths,
        scratch,
        origin_scratch,
        order,
        out,
        out_lengths,
        out_origins,
    ) {
        Err(refusal) => refusal_code(u8::from(refusal)),
        Ok(answered) => answer_code(answered.answer) as i64,
    }
}

// The frame call: the count of the answer's bytes, which stand at the front of the output, or minus the refusal.
#[unsafe(no_mangle)]
pub extern "C" fn ringcut_frame(frame: &[u8], out: &mut [u8]) -> i64
    ensures answer { result ≡ frame_call_code (frame_call_answer frame.now out.old) }
    ensures lent { out.new ≡ frame_call_output frame.now out.old }
{
    match frames::entry::frame(frame, out) {
        Err(refusal) => refusal_code(u8::from(refusal)),
        Ok(n) => n as i64,
    }
}

// The mending call: the count of coordinates of the mended ring, which stands at the front of the output, or minus the refusal. A NaN
// stands exactly where the definition has one, and its bits are free, also where the output is left as it was.
#[unsafe(no_mangle)]
pub extern "C" fn ringcut_mend(ring: &[f64], out: &mut [f64]) -> i64
    ensures answer { result ≡ mend_call_code (mend_call_answer ring.now out.old) }
    ensures lent { out.new ≡ mend_call_output ring.now out.old }
    ensures promise { MendPromise (mend_call_answer ring.now out.old) out.new }
{
    match mend::mend_ring(ring, out) {
        Err(refusal) => refusal_code(u8::from(refusal)),
        Ok(n) => n as i64,
    }
}

// Is raised with the definition: rust/exports holds it to what the header, the Rust crate and the program say.
const VERSION: u32 = 1000000;

// Which version the library is of, so that a caller can tell whether it goes with the header or the crate that declares the calls.
#[unsafe(no_mangle)]
pub extern "C" fn ringcut_version() -> u32
    ensures { result ≡ version }
{
    VERSION
}
