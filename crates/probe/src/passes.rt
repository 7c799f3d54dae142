// One pass of the ring cutter, with its count of verdicts.
ghost use Rattle.std.specs.Prelude.{◌≡◌, set};
ghost use Rattle.probe.specs.Numbers.{bounds_at};
ghost use Rattle.probe.specs.Passes as Passes;

use super::bounds_at;
use edge_pass::clip_ring_against_edge;
use sutherland_hodgman::growth::{MOST_COORDINATES, half_growth};
use tile::Edge;

// Stays a function: every byte but three is Top, and neither type is of this crate.
fn edge_at(number: u8) -> Edge
    ensures { result ≡ Passes.edge_at number }
{
    match number {
        0 => Edge::Left,
        1 => Edge::Right,
        2 => Edge::Bottom,
        _ => Edge::Top,
    }
}

// Whether a pass over n vertices has an origin for each in a slice of length `origins`, and room in outputs of these lengths.
fn has_pass_room(n: usize, origins: usize, out: usize, out_origins: usize) -> bool
    ensures { result ≡ Passes.has_pass_room n origins out out_origins }
{
    if n > 8 * MOST_COORDINATES {
        return false;
    }
    if origins < n {
        return false;
    }
    let most = half_growth(n);
    if out < 2 * most {
        return false;
    }
    most <= out_origins
}

fn set_first(counts: &mut [usize], count: usize)
    ensures { counts.new ≡ set counts.old 0 count }
{
    if 0 < counts.len() {
        counts[0] = count;
    }
}

// Cuts a ring at one edge: 0 Left, 1 Right, 2 Bottom, any other Top. It answers how many vertices it wrote to the front of `out`, and as
// many origins to the front of `out_origins`, and puts the count of verdicts in the first number of `verdicts`, unless that is empty. An
// odd last number of the ring is passed over, and so are the origins behind those of its vertices.
// Where a vertex has no origin, or an output is too short for all that a pass may make of so many vertices, or there are over 524,256 of
// them, it answers the highest number and writes nothing.
#[unsafe(no_mangle)]
pub extern "C" fn probe_clip_ring_against_edge(
    ring: &[f64],
    origins: &[u16],
    edge: u8,
    bounds: &[f64],
    out: &mut [f64],
    out_origins: &mut [u16],
    verdicts: &mut [usize],
) -> usize
    ensures answer { result ≡ Passes.pass_answer ring.now origins.now edge (bounds_at bounds.now)
        out.old out_origins.old }
    ensures output { out.new ≡ Passes.pass_output ring.now origins.now edge
        (bounds_at bounds.now) out.old out_origins.old }
    ensures verdicts { verdicts.new ≡ Passes.pass_verdicts ring.now origins.now out.old
        out_origins.old verdicts.old }
    ensures origins { out_origins.new ≡ Passes.pass_out_origins ring.now origins.now edge
        (bounds_at bounds.now) out.old out_origins.old }
{
    let n = ring.len() / 2;
    if has_pass_room(n, origins.len(), out.len(), out_origins.len()) {
        let pass = clip_ring_against_edge(
            ring,
            origins,
            n,
            edge_at(edge),
            bounds_at(bounds),
            out,
            out_origins,
        );
        set_first(verdicts, pass.verdicts);
        return pass.len;
    }
    usize::MAX
}
