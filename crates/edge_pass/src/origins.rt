// Origins of vertices, 16 bits each, in slices beside the vertices: the position in the input ring, or a number for the line that made
// the vertex. Here is what a pass does with them.
ghost use Rattle.std.specs.Prelude.{◌≡◌, [], ◌∷◌, ◌+◌, ◌*◌, ◌≤◌, ◌<◌, length, take, drop};
ghost use Rattle.std.proofs.lemmas.List.Edits.{sets};
ghost use Rattle.edge_pass.specs.Origins as Origins;

use tile::ring::put;
use tile::{Coord, Edge};

// The origin of what a line makes.
// Stays a function, not `From<Edge>`: a line has two numbers, this one and that of a reason, and a conversion would not say which.
pub fn line_origin(edge: Edge) -> u16
    ensures { result ≡ Origins.line_origin edge }
{
    match edge {
        Edge::Left => 65532,
        Edge::Right => 65533,
        Edge::Bottom => 65534,
        Edge::Top => 65535,
    }
}

// Writes the i-th vertex and its origin.
pub fn put_with_origin(out: &mut [f64], out_origins: &mut [u16], i: usize, p: Coord, origin: u16)
    requires { (2 * i + 1 < length out.old) × (i < length out_origins.old) }
    ensures vertex { out.new ≡ sets out.old (2 * i) (p.x ∷ p.y ∷ []) }
    ensures origin { out_origins.new ≡ sets out_origins.old i (origin ∷ []) }
{
    put(out, i, p);
    out_origins[i] = origin;
}

// Copies `count` origins, from the i-th of one slice on, to another slice, from the len-th on.
pub fn copy_origins(origins: &[u16], i: usize, out_origins: &mut [u16], len: usize, count: usize)
    requires { (i + count ≤ length origins.now) × (len + count ≤ length out_origins.old) }
    ensures { out_origins.new ≡ sets out_origins.old len (take count (drop i origins.now)) }
{
    // Stays a loop: runs are short, and with `copy_from_slice` a cut of five vertices took 1.1 to 1.2 times the instructions.
    for k in 0..count {
        out_origins[len + k] = origins[i + k];
    }
}
