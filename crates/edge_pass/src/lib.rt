// One pass of Sutherland-Hodgman cutting: a ring is cut at one edge of the bounds. Beside each vertex that is cut or kept stands its
// origin.
#![tactic(auto)]

ghost use Rattle.std.specs.Prelude.{◌≡◌, true, false, not, ◌++◌, ◌+◌, ◌*◌, ◌≤◌, ◌<◌, length, take, drop};
ghost use Rattle.tile.specs.Ring.{coords};
ghost use Rattle.tile.specs.Internal.{coord_at, Written};
ghost use Rattle.cutting_lines.specs.CuttingLines as CuttingLines;
ghost use Rattle.edge_pass.specs.Pass.{leave_off, pass};
ghost use Rattle.edge_pass.specs.Internal as Internal;
ghost use Rattle.edge_pass.specs.Verdicts.{verdicts};
ghost use Rattle.edge_pass.specs.Origins as Origins;

use cutting_lines::intersect;
use cutting_lines::verdict::judge;
use origins::{copy_origins, line_origin, put_with_origin};
use tile::ring::{coord_at, is_closed, put};
use tile::{Coord, Edge, TileBounds};

mod origins;

// What one pass answers: how many vertices it wrote, and how many verdicts it worked out.
#[derive(Clone, Copy)]
pub struct Pass {
    pub len: usize,
    pub verdicts: usize,
}

// How many of the n vertices are left when the closing one is left off.
// Stays with a count beside, here and below: the ring is at the front of a longer slice, where the pass before left it.
fn left_off(ring: &[f64], n: usize) -> usize
    requires { 2 * n ≤ length ring.now }
    ensures { (result ≤ n) × (coords (take (2 * result) ring.now) ≡ leave_off (coords (take (2 * n) ring.now))) }
{
    if n < 2 {
        return n;
    }
    if is_closed(&ring[..2 * n]) {
        return n - 1;
    }
    n
}

// Stays an output beside that of its origins: parts of both are lent in one call, which the check covers for two slices, not two fields.
// Stays a clause, the room of a walk: it is a relation of a ring, a place in it and the lengths of two outputs, which no one value holds.

// Where a pass stands: before the i-th vertex, with len vertices written and so many verdicts worked out.
#[derive(Clone, Copy)]
struct Walk {
    i: usize,
    len: usize,
    verdicts: usize,
}

// The vertex before the i-th, around the ring of m vertices.
fn previous(ring: &[f64], m: usize, i: usize) -> Coord
    requires { (2 * m ≤ length ring.now) × (0 < m) × (i ≤ m) }
    ensures { result ≡ Internal.vertex_before (coords (take (2 * m) ring.now)) i }
{
    if i == 0 {
        return coord_at(ring, m - 1);
    }
    coord_at(ring, i - 1)
}

// From a vertex that is in: copies the vertices that follow it as long as they are in, up to the first that is not, which is judged too.
// Their origins are left to be copied as a run, so that this loop stays small (docs/DECISIONS.md, "Origins").
fn copy_inside(
    ring: &[f64],
    m: usize,
    edge: Edge,
    bounds: TileBounds,
    out: &mut [f64],
    at: Walk,
) -> Walk
    requires { Internal.WalkRoom edge bounds ring.now m true at (length out.old) }
    ensures rest { (at.i ≤ result.i) × (result.i ≤ m)
        × (result.i < m → CuttingLines.inside edge bounds (coord_at ring.now result.i) ≡ false)
        × Internal.SameRest edge bounds (coords (take (2 * m) ring.now)) true at.i at.len out.old true
        result.i result.len out.new }
    ensures verdicts { Internal.RunVerdicts m result.i result.verdicts }
    ensures origins { (result.len + at.i ≡ at.len + result.i)
        × Internal.CopiedOrigins edge bounds (coords (take (2 * m) ring.now)) at.i result.i }
{
    let mut len = at.len;
    let mut verdicts = at.verdicts;
    for i in at.i..m {
        let e = coord_at(ring, i);
        let verdict = judge(e, edge, bounds, verdicts);
        verdicts = verdict.verdicts;
        if !verdict.inside {
            return Walk { i, len, verdicts };
        }
        put(out, len, e);
        len += 1;
    }
    Walk {
        i: m,
        len,
        verdicts,
    }
}

// From a vertex that is out: passes over the vertices that follow it as long as they are out, up to the first that is in, which is judged
// too.
fn skip_outside(ring: &[f64], m: usize, edge: Edge, bounds: TileBounds, at: Walk) -> Walk
    requires { (2 * m ≤ length ring.now) × (at.i ≤ m) × (at.verdicts ≡ at.i + 1) }
    ensures rest { (at.i ≤ result.i) × (result.i ≤ m)
        × (result.i < m → CuttingLines.inside edge bounds (coord_at ring.now result.i) ≡ true)
        × (Internal.steps_left edge bounds (coords (take (2 * m) ring.now)) false at.i ≡ Internal.steps_left edge bounds
        (coords (take (2 * m) ring.now)) false result.i) × (result.len ≡ at.len) }
    ensures verdicts { Internal.RunVerdicts m result.i result.verdicts }
    ensures origins { Internal.SkippedOrigins edge bounds (coords (take (2 * m) ring.now)) at.i result.i }
{
    let mut verdicts = at.verdicts;
    for i in at.i..m {
        let e = coord_at(ring, i);
        let verdict = judge(e, edge, bounds, verdicts);
        verdicts = verdict.verdicts;
        if verdict.inside {
            return Walk {
                i,
                len: at.len,
                verdicts,
            };
        }
    }
    Walk {
        i: m,
        len: at.len,
        verdicts,
    }
}

// From a vertex that is in to one that is out, or to the end.
fn leave(
    ring: &[f64],
    origins: &[u16],
    m: usize,
    edge: Edge,
    bounds: TileBounds,
    out: &mut [f64],
    out_origins: &mut [u16],
    at: Walk,
) -> Walk
    requires walk_room { Internal.WalkRoom edge bounds ring.now m true at (length out.old) }
    requires origin_walk_room { Internal.OriginWalkRoom edge bounds ring.now m true at (length origins.now) (length out_origins.old) }
    ensures rest { Internal.WalkedOn edge bounds ring.now m true at out.old false result out.new }
    ensures verdicts { result.verdicts ≡ result.i + 1 }
    ensures origins { Internal.SameOrigins edge bounds (coords (take (2 * m) ring.now)) origins.now true
        at.i at.len out_origins.old false result.i result.len out_origins.new }
{
    let to = copy_inside(ring, m, edge, bounds, out, at);
    copy_origins(origins, at.i, out_origins, at.len, to.i - at.i);
    if m <= to.i {
        return to;
    }
    let s = previous(ring, m, to.i);
    let e = coord_at(ring, to.i);
    put_with_origin(
        out,
        out_origins,
        to.len,
        intersect(s, e, edge, bounds),
        line_origin(edge),
    );
    Walk {
        i: to.i + 1,
        len: to.len + 1,
        verdicts: to.verdicts,
    }
}

// From a vertex that is out to one that is in, or to the end.
fn enter(
    ring: &[f64],
    origins: &[u16],
    m: usize,
    edge: Edge,
    bounds: TileBounds,
    out: &mut [f64],
    out_origins: &mut [u16],
    at: Walk,
) -> Walk
    requires walk_room { Internal.WalkRoom edge bounds ring.now m false at (length out.old) }
    requires origin_walk_room { Internal.OriginWalkRoom edge bounds ring.now m false at (length origins.now) (length out_origins.old) }
    ensures rest { Internal.WalkedOn edge bounds ring.now m false at out.old true result out.new }
    ensures verdicts { result.verdicts ≡ result.i + 1 }
    ensures origins { Internal.SameOrigins edge bounds (coords (take (2 * m) ring.now)) origins.now false
        at.i at.len out_origins.old true result.i result.len out_origins.new }
{
    let next = skip_outside(ring, m, edge, bounds, at);
    if m <= next.i {
        return next;
    }
    let s = previous(ring, m, next.i);
    let e = coord_at(ring, next.i);
    put_with_origin(
        out,
        out_origins,
        next.len,
        intersect(s, e, edge, bounds),
        line_origin(edge),
    );
    let j = next.i;
    put_with_origin(out, out_origins, next.len + 1, e, origins[j]);
    Walk {
        i: next.i + 1,
        len: next.len + 2,
        verdicts: next.verdicts,
    }
}

// From a vertex, by the verdict on it, to the first that has the other verdict, or to the end.
// Stays an `if`: no closure is plainer, since the verdict itself says which step it is, and there is one call of each.
fn turn(
    ring: &[f64],
    origins: &[u16],
    m: usize,
    edge: Edge,
    bounds: TileBounds,
    out: &mut [f64],
    out_origins: &mut [u16],
    at: Walk,
    inside: bool,
) -> Walk
    requires walk_room { Internal.WalkRoom edge bounds ring.now m inside at (length out.old) }
    requires origin_walk_room { Internal.OriginWalkRoom edge bounds ring.now m inside at (length origins.now) (length out_origins.old) }
    ensures rest { Internal.WalkedOn edge bounds ring.now m inside at out.old (not inside) result
        out.new }
    ensures verdicts { result.verdicts ≡ result.i + 1 }
    ensures origins { Internal.SameOrigins edge bounds (coords (take (2 * m) ring.now)) origins.now inside
        at.i at.len out_origins.old (not inside) result.i result.len out_origins.new }
{
    if inside {
        return leave(ring, origins, m, edge, bounds, out, out_origins, at);
    }
    enter(ring, origins, m, edge, bounds, out, out_origins, at)
}

// Cuts the ring of n vertices at the front of a slice at one edge, writes the result to the front of another, and counts the verdicts that
// it works out. The origins of the vertices stand in a slice beside them, before and after. It starts from the last vertex. One call of
// leaving and one of entering lets both be compiled into the loop.
// Stays a `while`: each turn says where the next begins.
pub fn clip_ring_against_edge(
    ring: &[f64],
    origins: &[u16],
    n: usize,
    edge: Edge,
    bounds: TileBounds,
    out: &mut [f64],
    out_origins: &mut [u16],
) -> Pass
    requires pass_room { Internal.PassRoom n (length ring.now) (length out.old) }
    requires pass_origin_room { Internal.PassOriginRoom n (length origins.now) (length out_origins.old) }
    ensures written { Written (pass edge bounds (coords (take (2 * n) ring.now))) out.old result.len
        out.new }
    ensures verdicts { result.verdicts ≡ verdicts (coords (take (2 * n) ring.now)) }
    ensures origins { out_origins.new ≡ Origins.pass_origins edge bounds (coords (take (2 * n) ring.now))
        (take n origins.now) ++ drop result.len out_origins.old }
{
    let m = left_off(ring, n);
    if m == 0 {
        return Pass {
            len: 0,
            verdicts: 0,
        };
    }
    let start = judge(coord_at(ring, m - 1), edge, bounds, 0);
    let mut inside = start.inside;
    let mut at = Walk {
        i: 0,
        len: 0,
        verdicts: start.verdicts,
    };
    while at.i < m {
        at = turn(ring, origins, m, edge, bounds, out, out_origins, at, inside);
        inside = !inside;
    }
    Pass {
        len: at.len,
        verdicts: at.verdicts,
    }
}
