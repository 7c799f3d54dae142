// Which two edges of a ring cross first, by the lower and then by the higher edge number: all pairs for a short ring, and for a long one a
// sweep over the edges by their lowest x, which is walked on for the least pair only where it comes upon a crossing.
ghost use Rattle.std.specs.Prelude.{◌≡◌, ◌+◌, ◌*◌, ◌/◌, ◌-◌, ◌<◌, ◌≤◌, ◌^◌, length, is_some, IfSome, unwrap_or};
ghost use Rattle.tile.specs.Ring.{coords};
ghost use Rattle.box_pairs.specs.Internal as Internal;
ghost use Rattle.box_pairs.specs.Internal.{SortRoom, Swept, Unused};
ghost use Rattle.box_pairs.specs.Edges.{ring_of};
ghost use Rattle.box_pairs.specs.Pairs.{edges_cross, first_pair};

use super::cross::crosses;
use super::edges::Edges;
use super::merge::sort;
use tile::ring::coord_at;

// Two edges that cross, by their numbers.
#[derive(Clone, Copy)]
pub struct Pair {
    pub lower: u32,
    pub higher: u32,
}

// Whether the edges i and j of a ring in x, y numbers cross.
pub fn edges_cross(ring: &[f64], i: usize, j: usize) -> bool
    requires { (2 * i + 3 < length ring.now) × (2 * j + 3 < length ring.now) }
    ensures { result ≡ Internal.edges_at ring.now i j }
{
    let a1 = coord_at(ring, i);
    let a2 = coord_at(ring, i + 1);
    let b1 = coord_at(ring, j);
    let b2 = coord_at(ring, j + 1);
    crosses(a1, a2, b1, b2)
}

// Up to this many edges, all pairs are scanned; more are swept.
const SCAN_LIMIT: usize = 32;

// A pair's number is this times the lower edge number, plus the higher.
const PAIR_BASE: u64 = 4_294_967_296;

// The number of no pair: above that of each pair.
// Stays a number: the lesser of two pairs is told by one comparison, and in the order of an Option, None would be the least.
const NO_PAIR: u64 = u64::MAX;

// Above the numbers of the pairs whose lower edge is one of the first few. Where such a pair crosses, a scan of all pairs ends within the
// rows of these edges.
const FEW_ROWS: u64 = 4 * PAIR_BASE;

// The first two of the edges that cross, by a look at all pairs.
pub fn scan_pairs(edges: &Edges) -> Option<Pair>
    ensures { result ≡ first_pair (ring_of edges.now) }
{
    let mut first = None;
    'pairs: for i in 0..edges.count {
        for j in i + 1..edges.count {
            // `crosses` repeats this test of y: for speed, as most pairs end at the inlined test.
            if edges.may_meet_in_y(i, j) {
                if edges.crosses(i, j) {
                    first = Some(Pair {
                        lower: i as u32,
                        higher: j as u32,
                    });
                    break 'pairs;
                }
            }
        }
    }
    first
}

// Notes the lowest x of each edge.
fn note_lows(edges: &Edges, work: &mut [f64])
    requires { edges.now.count ≤ length work.old }
    ensures { Internal.Noted edges.now.count (ring_of edges.now) work.old work.new }
{
    for i in 0..edges.count {
        work[i] = edges.low_x(i);
    }
}

// A slot before which no edge crosses one in a later slot, or None exactly where no two edges cross: by a sweep over the edges in the
// order of their lowest x, which stand in `lows`, as far as a pair that crosses. Past the first edge that starts beyond an edge's end no
// other meets it.
// Stays with `lows` and `order` as slices: that the lows are doubles, which the proof needs, is known of a lent slice, not of a field.
fn sweep_sorted(edges: &Edges, lows: &[f64], order: &[u32]) -> Option<usize>
    requires lows { edges.now.count ≤ length lows.now }
    requires swept { Swept edges.now.count (ring_of edges.now) lows.now order.now }
    ensures verdict { is_some result ≡ Internal.self_intersecting (ring_of edges.now) }
    ensures inside { IfSome result (λ slot. slot < edges.now.count) }
    ensures passed { Internal.Passed (Internal.at_slots (edges_cross (ring_of edges.now)) order.now)
        edges.now.count (unwrap_or result edges.now.count) }
{
    let mut hit = None;
    'pairs: for p in 0..edges.count {
        let i = order[p] as usize;
        let high = edges.high_x(i);
        for q in p + 1..edges.count {
            let j = order[q] as usize;
            if lows[j] > high {
                break;
            }
            // for speed, as in `scan_pairs`
            if edges.may_meet_in_y(i, j) {
                if edges.crosses(i, j) {
                    hit = Some(p);
                    break 'pairs;
                }
            }
        }
    }
    hit
}

// A pair of edges as a number, lower where the pair comes earlier.
fn pair_number(i: usize, j: usize) -> u64
    requires { (i < 2 ^ 32) × (j < 2 ^ 32) }
    ensures { result ≡ Internal.pair_number i j }
{
    if i < j {
        return PAIR_BASE * (i as u64) + (j as u64);
    }
    PAIR_BASE * (j as u64) + (i as u64)
}

fn pair_of(number: u64) -> Option<Pair>
    ensures { result ≡ Internal.pair_of number }
{
    if number == NO_PAIR {
        return None;
    }
    Some(Pair {
        lower: (number / PAIR_BASE) as u32,
        higher: (number % PAIR_BASE) as u32,
    })
}

// The number of the edges i and j if they cross and it is below `best`, else `best`. Once a crossing is known, most pairs end at the first
// test, which reads no coordinate.
fn lesser(edges: &Edges, i: usize, j: usize, best: u64) -> u64
    requires { (i < edges.now.count) × (j < edges.now.count) }
    ensures { result ≡ Internal.lesser edges.now.ring.now i j best }
{
    let number = pair_number(i, j);
    if number < best {
        if edges.may_meet_in_y(i, j) {
            if edges.crosses(i, j) {
                return number;
            }
        }
    }
    best
}

// The least of `best` and the numbers of the pairs that cross, of the edge in slot p with those in later slots, by the sweep's order.
fn least_at_slot(edges: &Edges, lows: &[f64], order: &[u32], p: usize, best: u64) -> u64
    requires lows { edges.now.count ≤ length lows.now }
    requires slot { p < edges.now.count }
    requires swept { Swept edges.now.count (ring_of edges.now) lows.now order.now }
    requires least_before { Internal.LeastBefore (edges_cross (ring_of edges.now)) order.now edges.now.count p best }
    ensures { Internal.LeastBefore (edges_cross (ring_of edges.now)) order.now edges.now.count (p + 1) result }
{
    let i = order[p] as usize;
    let end = edges.high_x(i);
    let mut least = best;
    for q in p + 1..edges.count {
        let j = order[q] as usize;
        if lows[j] > end {
            break;
        }
        least = lesser(edges, i, j, least);
    }
    least
}

// The first two of the edges that cross, none of those in the slots before `from` crossing one in a later slot. The sweep goes on from
// there past the pairs that cross and keeps the least, unless that is early enough to be left to a scan.
fn least_pair(edges: &Edges, lows: &[f64], order: &[u32], from: usize) -> Option<Pair>
    requires lows { edges.now.count ≤ length lows.now }
    requires swept { Swept edges.now.count (ring_of edges.now) lows.now order.now }
    requires passed { Internal.Passed (Internal.at_slots (edges_cross (ring_of edges.now)) order.now)
        edges.now.count from }
    ensures { result ≡ first_pair (ring_of edges.now) }
{
    let mut best = NO_PAIR;
    for p in from..edges.count {
        best = least_at_slot(edges, lows, order, p, best);
        if best < FEW_ROWS {
            return scan_pairs(edges);
        }
    }
    pair_of(best)
}

// The first two of the edges that cross, by a sweep.
pub fn sweep_pairs(edges: &Edges, work: &mut [f64], order: &mut [u32]) -> Option<Pair>
    requires { SortRoom (edges.now.count + 1) work.old order.old }
    ensures value { result ≡ first_pair (ring_of edges.now) }
    ensures unused { Unused (edges.now.count + 1) work.old order.old work.new order.new }
    ensures swept { Swept edges.now.count (ring_of edges.now) work.new order.new }
{
    note_lows(edges, work);
    sort(work, order, edges.count);
    if let Some(slot) = sweep_sorted(edges, work, order) {
        return least_pair(edges, work, order, slot);
    }
    None
}

// Whether all pairs of this many edges are scanned; else they are swept.
fn is_scanned(edges: usize) -> bool
    ensures { result ≡ Internal.is_scanned edges }
{
    edges <= SCAN_LIMIT
}

// The first two of the edges that cross.
fn first_edge_pair(edges: &Edges, work: &mut [f64], order: &mut [u32]) -> Option<Pair>
    requires { SortRoom (edges.now.count + 1) work.old order.old }
    ensures value { result ≡ first_pair (ring_of edges.now) }
    ensures unused { Unused (edges.now.count + 1) work.old order.old work.new order.new }
    ensures scanned_or_swept { Internal.ScannedOrSwept edges.now.count (ring_of edges.now) work.old order.old
        work.new order.new }
{
    if is_scanned(edges.count) {
        return scan_pairs(edges);
    }
    sweep_pairs(edges, work, order)
}

// The first two edges of a ring that cross.
pub fn first_pair(ring: &[f64], work: &mut [f64], order: &mut [u32]) -> Option<Pair>
    requires { SortRoom (length ring.now / 2) work.old order.old }
    ensures value { result ≡ first_pair (coords ring.now) }
    ensures unused { Unused (length ring.now / 2) work.old order.old work.new order.new }
    ensures scanned_or_swept { Internal.ScannedOrSwept (length ring.now / 2 - 1) (coords ring.now) work.old order.old
        work.new order.new }
{
    let n = ring.len() / 2;
    if n == 0 {
        return None;
    }
    let edges = Edges { ring, count: n - 1 };
    first_edge_pair(&edges, work, order)
}
