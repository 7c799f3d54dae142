// Sums of products of whole numbers up to 2^57, each in three u64 places to the base 2^30, and their order.
ghost use Rattle.std.specs.Prelude.{◌≡◌, ◌+◌, ◌*◌, ◌^◌, ◌≤◌, nat_lt};
ghost use Rattle.exact.specs.Internal.{value};

use std::marker::Model;

const BASE: u64 = 1_073_741_824;

// A product, not carried: in places small enough that three products can be added.
#[derive(Clone, Copy)]
pub struct Uncarried {
    pub high: u64,
    pub middle: u64,
    pub low: u64,
    ghost addable: { (high ≤ 2 ^ 54) × (middle ≤ 2 ^ 58) × (low ≤ 2 ^ 60) },
}

// A sum of products: high * 2^60 + middle * 2^30 + low, where each place but the highest is one digit to the base 2^30. So the order of the
// fields is that of the numbers.
#[derive(Clone, Copy, PartialEq, Eq, PartialOrd, Ord)]
pub struct Wide {
    pub high: u64,
    pub middle: u64,
    pub low: u64,
}

impl Model for Wide {
    ghost use Rattle.std.specs.Prelude.{ℕ, ◌+◌, ◌*◌, ◌/◌, ◌%◌, ◌^◌, ◌<◌};
    ghost use Rattle.std.proofs.Common.{arith};

    ghost Value = { ℕ };

    ghost view = { λ w. w.high * 2 ^ 60 + w.middle * 2 ^ 30 + w.low };

    ghost inverse = { λ n. record { high = n / 2 ^ 60; middle = n / 2 ^ 30 % 2 ^ 30; low = n % 2 ^ 30 } };

    ghost inverse_ok = { λ w h. Prim.grind (arith, h.0, h.1) };

    ghost invariant = { λ w. (w.middle < 2 ^ 30) × (w.low < 2 ^ 30) };
}

pub fn product(a: u64, b: u64) -> Uncarried
    requires { (a ≤ 2 ^ 57) × (b ≤ 2 ^ 57) }
    ensures { value result.high result.middle result.low ≡ a * b }
{
    let a1 = a / BASE;
    let a0 = a % BASE;
    let b1 = b / BASE;
    let b0 = b % BASE;
    let high = a1 * b1;
    let left = a1 * b0;
    let right = a0 * b1;
    let low = a0 * b0;
    Uncarried {
        high,
        middle: left + right,
        low,
    }
}

// The sum, carried.
pub fn sum(p: Uncarried, q: Uncarried, r: Uncarried) -> Wide
    ensures { result ≡ value p.high p.middle p.low + value q.high q.middle q.low + value r.high r.middle r.low }
{
    let low = p.low + q.low + r.low;
    let middle = p.middle + q.middle + r.middle + low / BASE;
    let high = p.high + q.high + r.high + middle / BASE;
    Wide {
        high,
        middle: middle % BASE,
        low: low % BASE,
    }
}

pub fn is_less(v: Wide, w: Wide) -> bool
    ensures { result ≡ nat_lt v w }
{
    v < w
}
