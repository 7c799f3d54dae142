// Numbers and doubles from little-endian bytes and to them. A double's NaN is read from every NaN pattern and written as 7ff8000000000000.
ghost use Rattle.std.specs.Prelude.{◌≡◌, ◌+◌, ◌*◌, ◌^◌, ◌<◌, ◌≤◌, length, take, drop};
ghost use Rattle.std.proofs.lemmas.List.Edits.{sets};
ghost use Rattle.std.specs.Float.{binary64};
ghost use Rattle.std.specs.Float.Ieee.{of_bits, to_bits};
ghost use Rattle.binary64.specs.Bytes as Bytes;

// The number of N bytes.
pub fn read_number<const N: usize>(b: &[u8], at: usize) -> u64
    requires { (at + N ≤ length b.now) × (N ≤ 8) }
    ensures { (result ≡ Bytes.number_of Bytes.Little (take N (drop at b.now))) × (result < 2 ^ (8 * N)) }
{
    let mut n = 0u64;
    for i in 0..N {
        n += (b[at + i] as u64) << (8 * i);
    }
    n
}

// Every NaN pattern gives the NaN, which is 0.0 / 0.0.
fn from_bits(n: u64) -> f64
    ensures { result ≡ of_bits binary64 n }
{
    if n % 0x8000_0000_0000_0000 > 0x7ff0_0000_0000_0000 {
        0.0 / 0.0
    } else {
        f64::from_bits(n)
    }
}

pub fn to_bits(x: f64) -> u64
    ensures { result ≡ to_bits binary64 x }
{
    if x != x {
        0x7ff8_0000_0000_0000
    } else {
        f64::to_bits(x)
    }
}

// The number of eight bytes.
// Stays beside `read_number`: this becomes one load, which its loop does not where two doubles are read beside each other. A frame that is
// only measured took up to 1.5 times the instructions by that.
fn read_word(b: &[u8], at: usize) -> u64
    requires { at + 8 ≤ length b.now }
    ensures { result ≡ Bytes.number_of Bytes.Little (take 8 (drop at b.now)) }
{
    u64::from_le_bytes([
        b[at],
        b[at + 1],
        b[at + 2],
        b[at + 3],
        b[at + 4],
        b[at + 5],
        b[at + 6],
        b[at + 7],
    ])
}

pub fn read_f64(b: &[u8], at: usize) -> f64
    requires { at + 8 ≤ length b.now }
    ensures { result ≡ Bytes.double Bytes.Little (take 8 (drop at b.now)) }
{
    from_bits(read_word(b, at))
}

// Writes the lowest N bytes of n.
pub fn write_number<const N: usize>(out: &mut [u8], at: usize, n: u64)
    requires { at + N ≤ length out.old }
    ensures { out.new ≡ sets out.old at (Bytes.bytes_of Bytes.Little N n) }
{
    let mut rest = n;
    for i in 0..N {
        out[at + i] = (rest % 256) as u8;
        rest = rest / 256;
    }
}

pub fn write_f64(out: &mut [u8], at: usize, x: f64)
    requires { at + 8 ≤ length out.old }
    ensures { out.new ≡ sets out.old at (Bytes.double_bytes Bytes.Little x) }
{
    write_number::<8>(out, at, to_bits(x));
}
