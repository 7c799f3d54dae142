// What one of the four lines works out, the line being a parameter: where a segment crosses it, and in `verdict` whether a vertex is in.
// `Edge`, the source's name for such a line, is not an edge of a ring.
#![tactic(auto)]

ghost use Rattle.std.specs.Prelude.{◌≡◌};
ghost use Rattle.cutting_lines.specs.CuttingLines as CuttingLines;
ghost use Rattle.cutting_lines.specs.CrossingError.{WithinError};

use binary64::interpolate;
use tile::{Coord, Edge, TileBounds};

pub mod verdict;

// Stays a line beside the bounds, here and above: so has the source, and a document names bounds that are passed by value.

// Where the segment from a to b, one of which is in and the other out, crosses a line: within 1/2^40 of the exact crossing, if the line's
// bound and the four numbers are at most 256 in magnitude (document 02, Point 8). Between other ends a coordinate that means nothing.
pub fn intersect(a: Coord, b: Coord, edge: Edge, bounds: TileBounds) -> Coord
    ensures crossing { result ≡ CuttingLines.crossing edge bounds a b }
    ensures error { WithinError edge bounds a b result }
{
    // Stays four arms: by axis, a second match would have to find the bound.
    match edge {
        Edge::Left => {
            let y = interpolate(bounds.lng_min, a.x, b.x, a.y, b.y);
            Coord {
                x: bounds.lng_min,
                y,
            }
        }
        Edge::Right => {
            let y = interpolate(bounds.lng_max, a.x, b.x, a.y, b.y);
            Coord {
                x: bounds.lng_max,
                y,
            }
        }
        Edge::Bottom => {
            let x = interpolate(bounds.lat_min, a.y, b.y, a.x, b.x);
            Coord {
                x,
                y: bounds.lat_min,
            }
        }
        Edge::Top => {
            let x = interpolate(bounds.lat_max, a.y, b.y, a.x, b.x);
            Coord {
                x,
                y: bounds.lat_max,
            }
        }
    }
}
