// Functions of the lower crates, exported for the comparison with the Rust, in what they do and in time. For tests only: nothing here is
// shipped.
#![tactic(auto)]

ghost use Rattle.std.specs.Prelude.{◌≡◌, Ok, get_or, set, take};
ghost use Rattle.std.specs.Float.{nan};
ghost use Rattle.tile.specs.Ring.{coords};
ghost use Rattle.tile.specs.Bounds.{empty, is_valid, expand, intersect, width, height, buffered};
ghost use Rattle.sutherland_hodgman.specs.Origins.{clip_origins};
ghost use Rattle.sutherland_hodgman.specs.Internal.{RingCut};
ghost use Rattle.ring_calls.specs.RingCall.{ring_slices, ring_call_check};
ghost use Rattle.probe.specs.Numbers.{bounds_at, stored};

use ring_calls::check_ring;
use sutherland_hodgman::clip_ring;
use tile::TileBounds;

pub mod crossings;
pub mod edges;
pub mod passes;
pub mod reader;

fn number_at(s: &[f64], i: usize) -> f64
    ensures { result ≡ get_or s.now i nan }
{
    if i < s.len() {
        return s[i];
    }
    0.0 / 0.0
}

fn set_at(s: &mut [f64], i: usize, x: f64)
    ensures { s.new ≡ set s.old i x }
{
    if i < s.len() {
        s[i] = x;
    }
}

fn bounds_at(s: &[f64]) -> TileBounds
    ensures { result ≡ bounds_at s.now }
{
    TileBounds::new(
        number_at(s, 0),
        number_at(s, 1),
        number_at(s, 2),
        number_at(s, 3),
    )
}

fn store(out: &mut [f64], b: TileBounds)
    ensures { out.new ≡ stored out.old b }
{
    set_at(out, 0, b.lng_min);
    set_at(out, 1, b.lat_min);
    set_at(out, 2, b.lng_max);
    set_at(out, 3, b.lat_max);
}

#[unsafe(no_mangle)]
pub extern "C" fn probe_empty(out: &mut [f64])
    ensures { out.new ≡ stored out.old empty }
{
    store(out, TileBounds::empty());
}

#[unsafe(no_mangle)]
pub extern "C" fn probe_is_valid(b: &[f64]) -> bool
    ensures { result ≡ is_valid (bounds_at b.now) }
{
    bounds_at(b).is_valid()
}

#[unsafe(no_mangle)]
pub extern "C" fn probe_expand(a: &[f64], b: &[f64], out: &mut [f64])
    ensures { out.new ≡ stored out.old (expand (bounds_at a.now) (bounds_at b.now)) }
{
    store(out, bounds_at(a).expand(bounds_at(b)));
}

#[unsafe(no_mangle)]
pub extern "C" fn probe_intersect(a: &[f64], b: &[f64], out: &mut [f64])
    ensures { out.new ≡ stored out.old (intersect (bounds_at a.now) (bounds_at b.now)) }
{
    store(out, bounds_at(a).intersect(bounds_at(b)));
}

#[unsafe(no_mangle)]
pub extern "C" fn probe_width(b: &[f64]) -> f64
    ensures { result ≡ width (bounds_at b.now) }
{
    bounds_at(b).width()
}

#[unsafe(no_mangle)]
pub extern "C" fn probe_height(b: &[f64]) -> f64
    ensures { result ≡ height (bounds_at b.now) }
{
    bounds_at(b).height()
}

#[unsafe(no_mangle)]
pub extern "C" fn probe_buffered(b: &[f64], buffer: f64, out: &mut [f64])
    ensures { out.new ≡ stored out.old (buffered (bounds_at b.now) buffer) }
{
    store(out, bounds_at(b).buffered(buffer));
}

// The cutter by itself, with the room that a ring call asks for, to be timed without the call's clearing. Of a call that would be refused
// nothing is promised.
#[unsafe(no_mangle)]
pub extern "C" fn probe_clip_ring(
    ring: &[f64],
    bounds: &[f64],
    scratch: &mut [f64],
    origin_scratch: &mut [u16],
    out: &mut [f64],
    out_origins: &mut [u16],
) -> usize
    ensures ring { ring_call_check ring.now
        (ring_slices scratch.old origin_scratch.old out.old out_origins.old) ≡ Ok tt
        → RingCut (bounds_at bounds.now) (coords ring.now) result out.new }
    ensures origins { ring_call_check ring.now
        (ring_slices scratch.old origin_scratch.old out.old out_origins.old) ≡ Ok tt
        → take result out_origins.new ≡ clip_origins (bounds_at bounds.now) (coords ring.now) }
{
    match check_ring(
        ring.len(),
        scratch.len(),
        origin_scratch.len(),
        out.len(),
        out_origins.len(),
    ) {
        Err(_) => 0,
        Ok(()) => clip_ring(
            ring,
            bounds_at(bounds),
            scratch,
            origin_scratch,
            out,
            out_origins,
        ),
    }
}
