// Comparisons of doubles: the minimum and maximum of Rust's `f64::min` and `f64::max`, the lower and the higher of two by one comparison,
// nearness within 1e-10, finiteness and size.
ghost use Rattle.std.specs.Prelude.{◌≡◌};
ghost use Rattle.std.specs.Float.Ieee.Scale.{finite};
ghost use Rattle.binary64.specs.Compare as Compare;
ghost use Rattle.binary64.specs.Internal as Internal;

const TOLERANCE: f64 = 1e-10;

const OVERLAY_LIMIT: f64 = 1e150;

// The smaller of two: passes over a NaN, and of two equal numbers keeps the first.
pub fn minimum(a: f64, b: f64) -> f64
    ensures { result ≡ Compare.minimum a b }
{
    if b < a {
        return b;
    }
    if a != a {
        return b;
    }
    a
}

// The larger of two, with the same rules.
pub fn maximum(a: f64, b: f64) -> f64
    ensures { result ≡ Compare.maximum a b }
{
    if a < b {
        return b;
    }
    if a != a {
        return b;
    }
    a
}

// The lower and the higher of two numbers: `minimum` and `maximum` where the first is no NaN. One comparison, so that each can be one
// instruction; that is not proved.
pub fn lower(a: f64, b: f64) -> f64
    ensures { result ≡ Internal.lower a b }
{
    if b < a {
        return b;
    }
    a
}

pub fn higher(a: f64, b: f64) -> f64
    ensures { result ≡ Internal.higher a b }
{
    if a < b {
        return b;
    }
    a
}

// Neither a NaN nor an infinity.
pub fn is_finite(x: f64) -> bool
    ensures { result ≡ finite x }
{
    x.is_finite()
}

// The two differ by less than 1e-10. An infinity is not near itself.
pub fn is_near(a: f64, b: f64) -> bool
    ensures { result ≡ Compare.near a b }
{
    let d = a - b;
    d < TOLERANCE && -TOLERANCE < d
}

// The magnitude is 1e150 or more.
pub fn is_huge(x: f64) -> bool
    ensures { result ≡ Compare.huge x }
{
    OVERLAY_LIMIT <= x || x <= -OVERLAY_LIMIT
}
