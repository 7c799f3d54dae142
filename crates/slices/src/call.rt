// The slice call: one polygon as lent slices. It is open to callers and refuses what it can't cut.
ghost use Rattle.std.specs.Prelude.{◌≡◌, ◌*◌, ◌^◌, ◌<◌, ◌≤◌, length, replicate, is_ok, MatchResult};
ghost use Rattle.binary64.specs.Slices.{padded};
ghost use Rattle.sutherland_hodgman.specs.Growth.{most_coordinates};
ghost use Rattle.rings.specs.LentRings.{total};
ghost use Rattle.rings.specs.Internal.{rings_of};
ghost use Rattle.clip.specs.Polygon as Polygon;
ghost use Rattle.clip.specs.Origins as Origins;
ghost use Rattle.polygon_rings.specs.WrittenRings.{origins_of};
ghost use Rattle.polygon_rings.specs.Internal.{none_placed, LentOriginsRoom, PolygonRoom};
ghost use Rattle.slices.specs.SliceCall.{lengths_fit, check_room, check_rings, polygon_slices};
ghost use Rattle.slices.specs.SliceCall.{slice_call_answer, slice_call_slices, answer_code};
ghost use Rattle.slices.specs.Internal.{FilledWhole};

use clip::polygon::{AnswerKind, Flags, PolygonAnswer, Reason, ReasonDetail, guard_count};
use polygon_rings::clip_polygon;
use ring_calls::Refusal;
use rings::lent::{MOST_RINGS, closed_sum, lent_count, room_of};
use rings::lent_rings::LentRings;
use sutherland_hodgman::growth::MOST_COORDINATES;
use tile::TileBounds;

// By what an answer's number multiplies the reason; a cut's rings or an overlay's first position; an overlay's second position.
const REASON_PLACE: u64 = 256;

pub const FIRST_PLACE: u64 = 65_536;

const SECOND_PLACE: u64 = 1_099_511_627_776;

// What a slice call answers where it refuses nothing: what becomes of the polygon, and its guard count.
#[derive(Clone, Copy)]
pub struct Answered {
    pub answer: PolygonAnswer,
    pub guards: usize,
}

// The rings that are lent, or refusal 19: no ring, too many, or lengths that don't fit the numbers lent.
#[tactic(auto, unfolding(crate::specs::SliceCall::lengths_fit))]
fn lent_rings<'a>(coords: &'a [f64], lengths: &'a [u32]) -> Result<LentRings<'a>, Refusal>
    ensures fit { is_ok result ≡ lengths_fit (length coords.now) lengths.now }
    ensures rings { MatchResult result (λ rings. (rings.coords.now ≡ coords.now) × (rings.lengths.now ≡ lengths.now))
        (λ refusal. refusal ≡ Refusal.Lengths) }
{
    if lengths.len() == 0 {
        return Err(Refusal::Lengths);
    }
    if MOST_RINGS < lengths.len() {
        return Err(Refusal::Lengths);
    }
    if 2 * lent_count(lengths) != coords.len() {
        return Err(Refusal::Lengths);
    }
    Ok(LentRings { coords, lengths })
}

// Refusals 21 and 22, of rings that fit; if there is none, for how many coordinates, and origins, 22 asks room in the outputs: by the
// lengths of the scratch slice, that of the origins, the order slice, the output, the second length slice and the output of the origins.
#[tactic(auto, unfolding(crate::specs::SliceCall::check_room, crate::specs::SliceCall::slice_call_origin_room))]
fn check_room(
    rings: LentRings,
    scratch: usize,
    origin_scratch: usize,
    order: usize,
    out: usize,
    out_lengths: usize,
    out_origins: usize,
) -> Result<usize, Refusal>
    requires { total length (rings_of rings) ≤ most_coordinates }
    ensures { result ≡ check_room (rings_of rings.entry) scratch origin_scratch order out out_lengths out_origins }
{
    let room = room_of(rings);
    if scratch < 2 * room.largest {
        return Err(Refusal::Scratch);
    }
    if origin_scratch < room.largest {
        return Err(Refusal::Scratch);
    }
    if order < room.largest {
        return Err(Refusal::Scratch);
    }
    let asked = room.all;
    if out < 2 * asked {
        return Err(Refusal::Output);
    }
    if out_lengths < rings.lengths.len() {
        return Err(Refusal::Output);
    }
    if out_origins < asked {
        return Err(Refusal::Output);
    }
    Ok(asked)
}

// Refusals 20 to 22, in their order, of rings that fit; if there is none, what `check_room` answers.
#[tactic(auto, unfolding(crate::specs::SliceCall::check_rings))]
fn check_rings(
    rings: LentRings,
    scratch: usize,
    origin_scratch: usize,
    order: usize,
    out: usize,
    out_lengths: usize,
    out_origins: usize,
) -> Result<usize, Refusal>
    ensures { result ≡ check_rings (rings_of rings.entry) scratch origin_scratch order out out_lengths out_origins }
{
    if MOST_COORDINATES < closed_sum(rings) {
        return Err(Refusal::Coordinates);
    }
    check_room(
        rings,
        scratch,
        origin_scratch,
        order,
        out,
        out_lengths,
        out_origins,
    )
}

// What becomes of a polygon that has room everywhere, as `clip_polygon` says, and the outputs are filled with zeros past the answer.
fn clip_padded(
    flags: Flags,
    bounds: TileBounds,
    rings: LentRings,
    scratch: &mut [f64],
    origin_scratch: &mut [u16],
    order: &mut [u32],
    out: &mut [f64],
    out_lengths: &mut [u32],
    out_origins: &mut [u16],
) -> PolygonAnswer
    requires polygon_room { PolygonRoom (rings_of rings) (length scratch.old) (length order.old) (length out.old)
        (length out_lengths.old) }
    requires lent_origins_room { LentOriginsRoom (rings_of rings) (length origin_scratch.old) (length out_origins.old)
        none_placed }
    ensures answer { result ≡ Polygon.answer_of (Polygon.route flags bounds (rings_of rings.entry)) }
    ensures written { FilledWhole (Polygon.route flags bounds (rings_of rings.entry))
        out.old out_lengths.old out.new out_lengths.new }
    ensures origins { out_origins.new ≡ padded 0 (origins_of (Origins.routed_origins
        (Polygon.route flags bounds (rings_of rings.entry)) bounds
        (rings_of rings.entry))) (length out_origins.old) out_origins.old }
{
    let clipped = clip_polygon(
        flags,
        bounds,
        rings,
        scratch,
        origin_scratch,
        order,
        out,
        out_lengths,
        out_origins,
    );
    let used = clipped.coordinates;
    let numbers = 2 * used;
    out[numbers..].fill(0.0);
    out_origins[used..].fill(0);
    clipped.answer
}

// Fills the whole slice with 0.
fn clear_order(order: &mut [u32])
    ensures { order.new ≡ replicate (length order.old) 0 }
{
    order.fill(0);
}

// What becomes of one polygon, whose rings it closes. A refusal changes nothing lent. Any other answer fills the scratch and order slices
// with zeros, whole, and the output up to what 22 asks: past a cut's rings, and where there is no cut from its front. It leaves the output
// beyond that, and the second length slice past a cut's lengths, unchanged. The output of the origins is filled as the output is. The logic
// has one NaN: a NaN stands exactly where the definition has one, and its bits are free, also in a slice that is left unchanged.
pub fn polygon(
    flags: Flags,
    bounds: TileBounds,
    buffer: f64,
    coords: &[f64],
    lengths: &[u32],
    scratch: &mut [f64],
    origin_scratch: &mut [u16],
    order: &mut [u32],
    out: &mut [f64],
    out_lengths: &mut [u32],
    out_origins: &mut [u16],
) -> Result<Answered, Refusal>
    ensures answer { result ≡ slice_call_answer flags bounds buffer coords.now lengths.now
        (polygon_slices scratch.old origin_scratch.old order.old out.old
        out_lengths.old out_origins.old) }
    ensures lent { polygon_slices scratch.new origin_scratch.new order.new out.new
        out_lengths.new out_origins.new
        ≡ slice_call_slices flags bounds buffer coords.now lengths.now
        (polygon_slices scratch.old origin_scratch.old order.old out.old
        out_lengths.old out_origins.old) }
{
    let rings = lent_rings(coords, lengths)?;
    let origin_room = check_rings(
        rings,
        scratch.len(),
        origin_scratch.len(),
        order.len(),
        out.len(),
        out_lengths.len(),
        out_origins.len(),
    )?;
    let room = 2 * origin_room;
    let answer = clip_padded(
        flags,
        bounds.buffered(buffer),
        rings,
        scratch,
        origin_scratch,
        order,
        &mut out[..room],
        out_lengths,
        &mut out_origins[..origin_room],
    );
    scratch.fill(0.0);
    origin_scratch.fill(0);
    clear_order(order);
    let guards = guard_count(answer);
    Ok(Answered { answer, guards })
}

fn overlay_code(reason: Reason) -> u64
    requires { answer_code (PolygonAnswer.Overlay reason) < 2 ^ 64 }
    ensures { result ≡ answer_code (PolygonAnswer.Overlay reason) }
{
    let detail = ReasonDetail::from(reason);
    AnswerKind::Overlay as u64
        + REASON_PLACE * detail.number as u64
        + FIRST_PLACE * detail.first as u64
        + SECOND_PLACE * detail.second as u64
}

// An answer as one number: what it is, 2^8 times the reason of an overlay, 2^16 times the count of a cut's rings or an overlay's first
// position, 2^40 times its second position.
// Stays a function: that the number fits is for callers to show, and a From can't require it.
pub fn answer_code(answer: PolygonAnswer) -> u64
    requires { answer_code answer < 2 ^ 64 }
    ensures { result ≡ answer_code answer }
{
    match answer {
        PolygonAnswer::Nothing => AnswerKind::Nothing as u64,
        PolygonAnswer::Dropped => AnswerKind::Dropped as u64,
        PolygonAnswer::Unchanged => AnswerKind::Unchanged as u64,
        PolygonAnswer::Cut(rings) => AnswerKind::Cut as u64 + FIRST_PLACE * rings as u64,
        PolygonAnswer::Overlay(reason) => overlay_code(reason),
    }
}
