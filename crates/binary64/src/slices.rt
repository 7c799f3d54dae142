// Slices of doubles: copying to the front.
ghost use Rattle.std.specs.Prelude.{◌≡◌, ◌++◌, ◌≤◌, length, take, drop};

// Copies the first n numbers; what follows them stays.
// Stays beside `copy_from_slice`: that calls C's memmove, which whoever links the static library would have to bring.
pub fn copy(from: &[f64], to: &mut [f64], n: usize)
    requires { (n ≤ length from.now) × (n ≤ length to.old) }
    ensures { to.new ≡ take n from.now ++ drop n to.old }
{
    for i in 0..n {
        to[i] = from[i];
    }
}
