// The issue finder of `box_pairs`, and its scan and sweep apart, so that they can be compared on one ring. Each answers with one number:
// what it found, 2^8 times the first position and 2^32 times the second.
// The issue finder and the sweep test the room of `work` and `order` first; the scan needs none and tests none. The highest number is
// answered where the room is short, where a ring has 2^24 coordinates or more, and by scan and sweep of a ring of none.
// What the calls leave in `work` and `order` is left open here.
ghost use Rattle.std.specs.Prelude.{◌≡◌, ◌<◌, ◌^◌};
ghost use Rattle.box_pairs.specs.Internal.{PairBelow, IssueBelow};
ghost use Rattle.probe.specs.Edges as Answers;

use box_pairs::Issue;
use box_pairs::edges::Edges;
use box_pairs::pairs::Pair;

// A ring has fewer coordinates than this.
const MOST: usize = 16_777_216;

fn has_room(n: usize, work: &[f64], order: &[u32]) -> bool
    ensures { result ≡ Answers.has_room n work.now order.now }
{
    if n > work.len() / 2 {
        return false;
    }
    if n > order.len() {
        return false;
    }
    n < MOST
}

// What was found, with its positions.
fn located(found: u64, first: u32, second: u32) -> u64
    requires { (found < 2 ^ 8) × (first < Answers.most) × (second < Answers.most) }
    ensures { result ≡ Answers.located found first second }
{
    found + 256 * first as u64 + 4_294_967_296 * second as u64
}

fn issue_code(issue: Issue) -> u64
    requires { IssueBelow Answers.most issue }
    ensures { result ≡ Answers.issue_code issue }
{
    match issue {
        Issue::Sound => 0,
        Issue::Short => 1,
        Issue::Repeated(position) => located(2, position, 0),
        Issue::Crossing(lower, higher) => located(3, lower, higher),
    }
}

fn pair_code(pair: Option<Pair>) -> u64
    requires { PairBelow Answers.most pair }
    ensures { result ≡ Answers.pair_code pair }
{
    match pair {
        None => 0,
        Some(pair) => located(1, pair.lower, pair.higher),
    }
}

// The issue of the ring, all of whose numbers are lent: 0 sound, 1 short, 2 repeated, 3 crossing.
#[unsafe(no_mangle)]
pub extern "C" fn probe_find_issue(
    ring: &[f64],
    assume_simple: u8,
    work: &mut [f64],
    order: &mut [u32],
) -> u64
    ensures { result ≡ Answers.found_issue ring.now assume_simple work.old order.old }
{
    let n = ring.len() / 2;
    if has_room(n, work, order) {
        return issue_code(box_pairs::find_issue(&ring[..2 * n], assume_simple != 0, work, order));
    }
    u64::MAX
}

// The first two edges that cross, by all pairs: 0 for none, 1 with the two edges.
#[unsafe(no_mangle)]
pub extern "C" fn probe_scan_pairs(ring: &[f64]) -> u64
    ensures { result ≡ Answers.scan_answer ring.now }
{
    let n = ring.len() / 2;
    if n == 0 {
        return u64::MAX;
    }
    if n >= MOST {
        return u64::MAX;
    }
    let edges = Edges { ring, count: n - 1 };
    pair_code(box_pairs::pairs::scan_pairs(&edges))
}

// The first two edges that cross, by the sweep: 0 for none, 1 with the two edges.
#[unsafe(no_mangle)]
pub extern "C" fn probe_sweep_pairs(ring: &[f64], work: &mut [f64], order: &mut [u32]) -> u64
    ensures { result ≡ Answers.sweep_answer ring.now work.old order.old }
{
    let n = ring.len() / 2;
    if n == 0 {
        return u64::MAX;
    }
    if has_room(n, work, order) {
        let edges = Edges { ring, count: n - 1 };
        return pair_code(box_pairs::pairs::sweep_pairs(&edges, work, order));
    }
    u64::MAX
}
