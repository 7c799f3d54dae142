// The room that cutting a ring takes, by its count of vertices.
ghost use Rattle.std.specs.Prelude.{◌≡◌, ◌*◌, ◌≤◌};
ghost use Rattle.edge_pass.specs.Growth.{half_growth};
ghost use Rattle.sutherland_hodgman.specs.Growth.{B, most_coordinates};

pub const MOST_COORDINATES: usize = 65532;

// Half as many again, rounded down: the most vertices that a pass makes of n.
pub fn half_growth(n: usize) -> usize
    requires { n ≤ 8 * most_coordinates }
    ensures { result ≡ half_growth n }
{
    n + n / 2
}

// The room, in vertices, for cutting a ring of n: B(n).
pub fn room_for(n: usize) -> usize
    requires { n ≤ most_coordinates }
    ensures { result ≡ B n }
{
    if n == 0 {
        return 0;
    }
    half_growth(half_growth(half_growth(half_growth(n)))) + 2
}
