// The crossing test of `box_pairs` and the exact test in it, each of one pair of segments: eight numbers, the x and y of the first's ends
// and then of the second's.
ghost use Rattle.std.specs.Prelude.{◌≡◌, false, cond, ◌<◌, ltb, length};
ghost use Rattle.tile.specs.Internal.{coord_at};
ghost use Rattle.exact.specs.Grid.{may_share_point};
ghost use Rattle.box_pairs.specs.Internal.{edges_at};

use super::number_at;
use box_pairs::edges::Edges;
use tile::Coord;

// The k-th of the four ends.
fn end_at(pair: &[f64], k: usize) -> Coord
    requires { k < 4 }
    ensures { result ≡ coord_at pair.now k }
{
    Coord {
        x: number_at(pair, 2 * k),
        y: number_at(pair, 2 * k + 1),
    }
}

// The pair as the edges 0 and 2 of a ring, which the sweep tests in the same way; false where a number is missing.
#[unsafe(no_mangle)]
pub extern "C" fn probe_crosses(pair: &[f64]) -> bool
    ensures { result ≡ cond (ltb (length pair.now) 8) false (edges_at pair.now 0 2) }
{
    if pair.len() < 8 {
        return false;
    }
    let edges = Edges {
        ring: pair,
        count: 3,
    };
    edges.crosses(0, 2)
}

// A number that is missing is a NaN.
#[unsafe(no_mangle)]
pub extern "C" fn probe_may_share_point(pair: &[f64]) -> bool
    ensures { result ≡ may_share_point (coord_at pair.now 0) (coord_at pair.now 1) (coord_at pair.now 2)
        (coord_at pair.now 3) }
{
    exact::grid::may_share_point(
        end_at(pair, 0),
        end_at(pair, 1),
        end_at(pair, 2),
        end_at(pair, 3),
    )
}
