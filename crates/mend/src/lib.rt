// The mending call: it drops each coordinate of a ring, except the closing one, that is near the last one kept, and so the repeated
// corners that send an exterior to the overlay. It is open to callers and refuses what it can't mend.
#![tactic(auto)]

ghost use Rattle.std.specs.Prelude.{◌≡◌, ◌+◌, ◌*◌, ◌-◌, ◌≤◌, ◌<◌, length};
ghost use Rattle.tile.specs.Ring.{coords, close};
ghost use Rattle.tile.specs.Internal.{Written};
ghost use Rattle.mend.specs.Mend.{mend};
ghost use Rattle.mend.specs.MendCall.{mend_refusal_number, mend_call_answer, mend_call_output, MendPromise};
ghost use Rattle.mend.specs.Internal.{closed_by, NextKept, FewKept};

use box_pairs::cross::is_degenerate;
use sutherland_hodgman::growth::MOST_COORDINATES;
use tile::Coord;
use tile::ring::{closed_count, coord_at, put};

// Why a ring is not mended: document 02's 19, 20, 22 and 26.
#[derive(Clone, Copy)]
pub enum MendRefusal {
    Lengths,
    Coordinates,
    Output,
    Short,
}

impl From<MendRefusal> for u8 {
    ghost from_gives = { λ refusal number. number ≡ mend_refusal_number refusal };

    fn from(refusal: MendRefusal) -> u8 {
        match refusal {
            MendRefusal::Lengths => 19,
            MendRefusal::Coordinates => 20,
            MendRefusal::Output => 22,
            MendRefusal::Short => 26,
        }
    }
}

// The position of the next coordinate kept behind the k-th, which is kept: the first that is not near it, or the closing one's, `end`.
// Stays with `end` beside, here and below: it is a position too, and the answer where none is kept before it.
fn next_kept(ring: &[f64], k: usize, end: usize) -> usize
    requires { (2 * end ≤ length ring.now) × (k < end) }
    ensures { NextKept ring.now end k result }
{
    let last = coord_at(ring, k);
    for i in k + 1..end {
        if !is_degenerate(last, coord_at(ring, i)) {
            return i;
        }
    }
    end
}

// Whether fewer than four coordinates are kept, the closing one, at position `end`, among them.
fn few_kept(ring: &[f64], end: usize) -> bool
    requires { (2 * end ≤ length ring.now) × (0 < end) }
    ensures { FewKept ring.now end result }
{
    let second = next_kept(ring, 0, end);
    if second == end {
        return true;
    }
    next_kept(ring, second, end) == end
}

// The coordinate that closes a ring, which has m when closed: its own last one, or else its first.
fn closing_coord(ring: &[f64], m: usize) -> Coord
    requires { (0 < length (coords ring.now)) × (m ≡ length (close (coords ring.now))) }
    ensures { close (coords ring.now) ≡ closed_by ring.now (m - 1) result }
{
    let n = ring.len() / 2;
    if m == n {
        return coord_at(ring, n - 1);
    }
    coord_at(ring, 0)
}

// Writes the coordinates that are kept, and answers how many they are.
// Stays a `while`: the next place that is kept is looked for.
fn write_kept(ring: &[f64], end: usize, closing: Coord, out: &mut [f64]) -> usize
    requires { (2 * end ≤ length ring.now) × (2 * end + 2 ≤ length out.old) }
    ensures { Written (mend (closed_by ring.now end closing)) out.old result out.new }
{
    let mut kept = 0usize;
    let mut k = 0usize;
    while k < end {
        put(out, kept, coord_at(ring, k));
        kept += 1;
        k = next_kept(ring, k, end);
    }
    put(out, kept, closing);
    kept + 1
}

// Mends a ring into the output, and answers how many coordinates it has then, or why it is refused. Whether four coordinates are kept is
// found before the first is written, so that a refusal changes nothing; past the answer the output is unchanged. The logic has one NaN: a
// NaN stands exactly where the definition has one, and its bits are free, also where the output is left unchanged.
pub fn mend_ring(ring: &[f64], out: &mut [f64]) -> Result<usize, MendRefusal>
    ensures answer { result ≡ mend_call_answer ring.now out.old }
    ensures lent { out.new ≡ mend_call_output ring.now out.old }
    ensures promise { MendPromise result out.new }
{
    if ring.len() % 2 == 1 {
        return Err(MendRefusal::Lengths);
    }
    let m = closed_count(ring);
    if MOST_COORDINATES < m {
        return Err(MendRefusal::Coordinates);
    }
    if out.len() < 2 * m {
        return Err(MendRefusal::Output);
    }
    if m < 4 {
        return Err(MendRefusal::Short);
    }
    if few_kept(ring, m - 1) {
        return Err(MendRefusal::Short);
    }
    let closing = closing_coord(ring, m);
    Ok(write_kept(ring, m - 1, closing, out))
}
