// Predicates and sweep: which two edges of a ring cross, and what is wrong with an exterior.
// `cross` tests two edges, `edges` are those of a ring, `pairs` finds the first pair of them that cross, `merge` sorts them for the sweep.
#![tactic(auto)]

ghost use Rattle.std.specs.Prelude.{◌≡◌, ◌/◌, ◌-◌, ◌<◌, ◌^◌, length};
ghost use Rattle.tile.specs.Ring.{coords};
ghost use Rattle.box_pairs.specs.Internal.{KeptIfScanned, SortRoom, Unused};
ghost use Rattle.box_pairs.specs.Issue.{first_repeated, crossing_of, issue_of, has_issue};

use tile::ring::coord_at;

pub mod cross;
pub mod edges;
pub mod merge;
pub mod pairs;

// What is wrong with an exterior: nothing, fewer than 4 coordinates, two neighbours less than 1e-10 apart in x and in y
// (the last segment excepted), two edges that cross. Neighbours are told by the position of the first, edges by their numbers, the lower
// first: edge k runs from coordinate k to the next.
// Stays an enum, where an Option of the other three would do: `ReasonDetail::from` of `clip` takes `Sound` too.
#[derive(Clone, Copy)]
pub enum Issue {
    Sound,
    Short,
    Repeated(u32),
    Crossing(u32, u32),
}

// Whether an exterior whose issue is this one has an issue.
#[tactic(auto, unfolding(crate::specs::Issue::has_issue))]
pub fn has_issue(issue: Issue) -> bool
    ensures { result ≡ has_issue issue }
{
    !matches!(issue, Issue::Sound)
}

// The position of the first coordinate of a ring that is near the next, the last segment excepted.
// Stays apart from `frame_bytes::simple::has_repeated`: that looks at a count of its own; one for both would need it and a law for each.
fn first_repeated(ring: &[f64]) -> Option<u32>
    requires { length ring.now / 2 < 2 ^ 32 }
    ensures { result ≡ first_repeated (coords ring.now) }
{
    let n = ring.len() / 2;
    for k in 0..n.saturating_sub(2) {
        let p = coord_at(ring, k);
        let q = coord_at(ring, k + 1);
        if cross::is_degenerate(p, q) {
            return Some(k as u32);
        }
    }
    None
}

// The crossing in the ring; it is not looked for where the ring is assumed to be simple.
fn find_crossing(ring: &[f64], assume_simple: bool, work: &mut [f64], order: &mut [u32]) -> Issue
    requires { SortRoom (length ring.now / 2) work.old order.old }
    ensures value { result ≡ crossing_of assume_simple (coords ring.now) }
    ensures unused { Unused (length ring.now / 2) work.old order.old work.new order.new }
    ensures kept_if_scanned { KeptIfScanned (length ring.now / 2 - 1) work.old order.old work.new order.new }
{
    if assume_simple {
        return Issue::Sound;
    }
    match pairs::first_pair(ring, work, order) {
        None => Issue::Sound,
        Some(pair) => Issue::Crossing(pair.lower, pair.higher),
    }
}

// What is wrong with a ring. The crossing test is left out where the ring is assumed to be simple.
pub fn find_issue(ring: &[f64], assume_simple: bool, work: &mut [f64], order: &mut [u32]) -> Issue
    requires { SortRoom (length ring.now / 2) work.old order.old }
    ensures value { result ≡ issue_of assume_simple (coords ring.now) }
    ensures unused { Unused (length ring.now / 2) work.old order.old work.new order.new }
    ensures kept_if_scanned { KeptIfScanned (length ring.now / 2 - 1) work.old order.old work.new order.new }
{
    if ring.len() / 2 < 4 {
        return Issue::Short;
    }
    match first_repeated(ring) {
        Some(k) => Issue::Repeated(k),
        None => find_crossing(ring, assume_simple, work, order),
    }
}
