// Verdicts on vertices. A pass has each of them from `judge`, which raises the count that it is handed; `is_inside` can't be called from
// outside this module. Whoever judges hands on the count that comes with the verdict.
ghost use Rattle.std.specs.Prelude.{◌≡◌, ◌+◌, ◌^◌, ◌<◌};
ghost use Rattle.cutting_lines.specs.CuttingLines as CuttingLines;

use tile::{Coord, Edge, TileBounds};

// Whether a vertex is in, and how many verdicts a pass has worked out, this one included.
// Stays a struct, not an `Option`: the count is there whether the vertex is in or out.
#[derive(Clone, Copy)]
pub struct Verdict {
    pub inside: bool,
    pub verdicts: usize,
}

// Whether a vertex is in by one line: on the line counts as in, and NaN is out.
// Stays four arms: by axis, a second match would have to find the bound and the side.
fn is_inside(coord: Coord, edge: Edge, bounds: TileBounds) -> bool
    ensures { result ≡ CuttingLines.inside edge bounds coord }
{
    match edge {
        Edge::Left => coord.x >= bounds.lng_min,
        Edge::Right => coord.x <= bounds.lng_max,
        Edge::Bottom => coord.y >= bounds.lat_min,
        Edge::Top => coord.y <= bounds.lat_max,
    }
}

// Judges a vertex, in a pass that has worked out so many verdicts before. A slice has fewer than 2^63 numbers, so
// the count fits.
pub fn judge(coord: Coord, edge: Edge, bounds: TileBounds, verdicts: usize) -> Verdict
    requires { verdicts < 2 ^ 63 }
    ensures { (result.inside ≡ CuttingLines.inside edge bounds coord) × (result.verdicts ≡ verdicts + 1) }
{
    let inside = is_inside(coord, edge, bounds);
    Verdict {
        inside,
        verdicts: verdicts + 1,
    }
}
