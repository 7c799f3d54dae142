// Hexadecimal digits, read in either case and written in lower case.
ghost use Rattle.std.specs.Prelude.{◌≡◌, [], ◌∷◌, ◌++◌, ◌+◌, ◌*◌, ◌<◌, ◌≤◌, length, take, drop};
ghost use Rattle.std.proofs.lemmas.List.Edits.{sets};
ghost use Rattle.binary64.specs.Slices.{over};
ghost use Rattle.lines.specs.Internal as Internal;
ghost use Rattle.lines.specs.Lines as Lines;

pub const NEWLINE: u8 = 10;

// What stands for the value of a character that is no digit.
// Stays a number: in a table of bytes it is told by the load that reads a digit's value.
pub const NOT_A_DIGIT: u8 = 16;

// The value of each character, sixteen to a row: a table, as a branch on the digits of a coordinate goes wrong half the time.
const VALUES: [u8; 256] = *b"\
    \x10\x10\x10\x10\x10\x10\x10\x10\x10\x10\x10\x10\x10\x10\x10\x10\
    \x10\x10\x10\x10\x10\x10\x10\x10\x10\x10\x10\x10\x10\x10\x10\x10\
    \x10\x10\x10\x10\x10\x10\x10\x10\x10\x10\x10\x10\x10\x10\x10\x10\
    \x00\x01\x02\x03\x04\x05\x06\x07\x08\x09\x10\x10\x10\x10\x10\x10\
    \x10\x0a\x0b\x0c\x0d\x0e\x0f\x10\x10\x10\x10\x10\x10\x10\x10\x10\
    \x10\x10\x10\x10\x10\x10\x10\x10\x10\x10\x10\x10\x10\x10\x10\x10\
    \x10\x0a\x0b\x0c\x0d\x0e\x0f\x10\x10\x10\x10\x10\x10\x10\x10\x10\
    \x10\x10\x10\x10\x10\x10\x10\x10\x10\x10\x10\x10\x10\x10\x10\x10\
    \x10\x10\x10\x10\x10\x10\x10\x10\x10\x10\x10\x10\x10\x10\x10\x10\
    \x10\x10\x10\x10\x10\x10\x10\x10\x10\x10\x10\x10\x10\x10\x10\x10\
    \x10\x10\x10\x10\x10\x10\x10\x10\x10\x10\x10\x10\x10\x10\x10\x10\
    \x10\x10\x10\x10\x10\x10\x10\x10\x10\x10\x10\x10\x10\x10\x10\x10\
    \x10\x10\x10\x10\x10\x10\x10\x10\x10\x10\x10\x10\x10\x10\x10\x10\
    \x10\x10\x10\x10\x10\x10\x10\x10\x10\x10\x10\x10\x10\x10\x10\x10\
    \x10\x10\x10\x10\x10\x10\x10\x10\x10\x10\x10\x10\x10\x10\x10\x10\
    \x10\x10\x10\x10\x10\x10\x10\x10\x10\x10\x10\x10\x10\x10\x10\x10";

// The table, to be lent to whoever reads many characters: a constant is written out anew wherever it is used.
#[derive(Clone, Copy)]
pub struct DigitValues {
    pub values: [u8; 256],
    ghost known: { Internal.DigitValues values },
}

pub fn digit_values() -> DigitValues {
    DigitValues { values: VALUES }
}

pub fn digit_of(b: u8, values: &DigitValues) -> u8
    ensures { result ≡ Lines.digit b }
{
    values.values[b as usize]
}

fn hex_digit(d: u8) -> u8
    requires { d < 16 }
    ensures { result ≡ Lines.hex_digit d }
{
    if d < 10 {
        return b'0' + d;
    }
    b'a' - 10 + d
}

// Writes a byte's two digits at a place.
fn put_hex(out: &mut [u8], at: usize, b: u8)
    requires { at + 1 < length out.old }
    ensures { out.new ≡ sets out.old at (Lines.lower_hex (b ∷ [])) }
{
    out[at] = hex_digit(b / 16);
    out[at + 1] = hex_digit(b % 16);
}

// Stays with a count beside: the digits of the bytes at the front need the room behind them.
// Puts the hexadecimal of the first bytes of a slice in their place, the last byte first: so none is written over before it was read.
fn to_hex(out: &mut [u8], count: usize)
    requires { 2 * count ≤ length out.old }
    ensures { out.new ≡ Lines.lower_hex (take count out.old) ++ drop (2 * count) out.old }
{
    for k in (0..count).rev() {
        let b = out[k];
        put_hex(out, 2 * k, b);
    }
}

// Makes the first bytes of a slice a line, and answers how long it is.
// Stays with a count beside, as `to_hex`.
pub fn to_line(out: &mut [u8], count: usize) -> usize
    requires { 2 * count < length out.old }
    ensures { (result ≡ length (Lines.hex_line (take count out.old)))
        × (out.new ≡ over (Lines.hex_line (take count out.old)) out.old) }
{
    to_hex(out, count);
    out[2 * count] = NEWLINE;
    2 * count + 1
}
