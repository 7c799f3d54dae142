// The ring call: a lent ring, four bounds used as given, a scratch slice and an output, and beside each of these two one for origins. It is
// open to callers and refuses what it can't cut.
#![tactic(auto)]

ghost use Rattle.std.specs.Prelude.{◌≡◌, ◌/◌, length};
ghost use Rattle.tile.specs.Ring.{coords};
ghost use Rattle.sutherland_hodgman.specs.Internal.{CutterRoom, OriginRoom};
ghost use Rattle.ring_calls.specs.RingCall.{refusal_number, check_ring, ring_slices, ring_call_answer, ring_call_slices, RingCallPromise};
ghost use Rattle.ring_calls.specs.Internal.{PaddedCut, PaddedOrigins};

use sutherland_hodgman::growth::{MOST_COORDINATES, room_for};
use sutherland_hodgman::{clip_three_edges, clip_top};
use tile::TileBounds;

// Why a call is refused: document 01's 19, 20, 21 and 22.
#[derive(Clone, Copy)]
pub enum Refusal {
    Lengths,
    Coordinates,
    Scratch,
    Output,
}

impl From<Refusal> for u8 {
    ghost from_gives = { λ refusal number. number ≡ refusal_number refusal };

    fn from(refusal: Refusal) -> u8 {
        match refusal {
            Refusal::Lengths => 19,
            Refusal::Coordinates => 20,
            Refusal::Scratch => 21,
            Refusal::Output => 22,
        }
    }
}

// The refusals of a ring call, in their order, by the count of numbers and the lengths of the other slices.
pub fn check_ring(
    numbers: usize,
    scratch: usize,
    origin_scratch: usize,
    out: usize,
    out_origins: usize,
) -> Result<(), Refusal>
    ensures { result ≡ check_ring numbers scratch origin_scratch out out_origins }
{
    if numbers % 2 == 1 {
        return Err(Refusal::Lengths);
    }
    let n = numbers / 2;
    if MOST_COORDINATES < n {
        return Err(Refusal::Coordinates);
    }
    let room = room_for(n);
    if scratch < 2 * room {
        return Err(Refusal::Scratch);
    }
    if origin_scratch < room {
        return Err(Refusal::Scratch);
    }
    if out < 2 * room {
        return Err(Refusal::Output);
    }
    if out_origins < room {
        return Err(Refusal::Output);
    }
    Ok(())
}

// Cuts a ring as `clip_ring` does, and fills the output past the cut with zeros, and the slice of its origins likewise. The scratch slices
// hold what the passes left there.
fn clip_padded(
    ring: &[f64],
    bounds: TileBounds,
    scratch: &mut [f64],
    origin_scratch: &mut [u16],
    out: &mut [f64],
    out_origins: &mut [u16],
) -> usize
    requires cutter_room { CutterRoom (length ring.now / 2) (length ring.now) (length scratch.old) (length out.old) }
    requires origin_room { OriginRoom (length ring.now / 2) (length origin_scratch.old) (length out_origins.old) }
    ensures ring { PaddedCut bounds (coords ring.now) (length out.old) result out.new }
    ensures origins { PaddedOrigins bounds (coords ring.now) (length out_origins.old) result
        out_origins.new }
{
    let n = ring.len() / 2;
    let bottom = clip_three_edges(ring, n, bounds, scratch, origin_scratch, out, out_origins);
    let len = clip_top(scratch, origin_scratch, bottom, bounds, out, out_origins);
    let used = 2 * len;
    out[used..].fill(0.0);
    out_origins[len..].fill(0);
    len
}

// `clip_ring` on the ring as lent, not closed beforehand: how many coordinates the cut ring has, or why it is refused. A refusal changes
// nothing lent; a success fills the scratch slices with zeros, whole, and the output past the answer up to what 22 asks, and leaves the
// output beyond that unchanged; so it does with the output of the origins. The logic has one NaN: a NaN stands exactly where the
// definition has one, and its bits are free, also in a slice that is left unchanged.
pub fn ring(
    ring: &[f64],
    bounds: TileBounds,
    scratch: &mut [f64],
    origin_scratch: &mut [u16],
    out: &mut [f64],
    out_origins: &mut [u16],
) -> Result<usize, Refusal>
    ensures answer { result ≡ ring_call_answer ring.now bounds
        (ring_slices scratch.old origin_scratch.old out.old out_origins.old) }
    ensures lent { ring_slices scratch.new origin_scratch.new out.new out_origins.new
        ≡ ring_call_slices ring.now bounds
        (ring_slices scratch.old origin_scratch.old out.old out_origins.old) }
    ensures promise { RingCallPromise ring.now bounds result out.new }
{
    check_ring(
        ring.len(),
        scratch.len(),
        origin_scratch.len(),
        out.len(),
        out_origins.len(),
    )?;
    let n = ring.len() / 2;
    let origin_room = room_for(n);
    let room = 2 * origin_room;
    let len = clip_padded(
        ring,
        bounds,
        scratch,
        origin_scratch,
        &mut out[..room],
        &mut out_origins[..origin_room],
    );
    scratch.fill(0.0);
    origin_scratch.fill(0);
    Ok(len)
}
