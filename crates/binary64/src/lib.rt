// Small functions on doubles: comparisons, bytes, total order, slices, and the crossing's free coordinate. The laws of IEEE 754 that the
// crates above cite are in proofs/.
#![tactic(auto)]

ghost use Rattle.std.specs.Prelude.{◌≡◌};
ghost use Rattle.std.specs.Float.{binary64};
ghost use Rattle.binary64.specs.Interpolation as Interpolation;

pub mod bytes;
pub mod compare;
pub mod slices;
pub mod total_order;

// The free coordinate of an edge's crossing with a cutting line; the line's bound is a parameter.
pub fn interpolate(
    bound: f64,
    start_fixed: f64,
    end_fixed: f64,
    start_free: f64,
    end_free: f64,
) -> f64
    ensures { result ≡ Interpolation.interpolate binary64 bound start_fixed end_fixed start_free end_free }
{
    let t = (bound - start_fixed) / (end_fixed - start_fixed);
    start_free + t * (end_free - start_free)
}
