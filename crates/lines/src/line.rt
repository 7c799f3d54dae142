// A line of hexadecimal digits, taken character by character: a line of any length, of which the bytes of the longest frame are kept.
ghost use Rattle.std.specs.Prelude.{◌≡◌, ◌<◌, ◌≤◌, length, take};
ghost use Rattle.frame_bytes.specs.Frame.{longest};
ghost use Rattle.lines.specs.Internal as Internal;

use super::digits::{DigitValues, NEWLINE, NOT_A_DIGIT, digit_of, digit_values};
use frame_bytes::reader::LONGEST;

// Stays a line beside the bytes kept of it: these are an array of the caller, lent for each block.
// What is known of a line. The bytes stand at the front of a slice that holds the longest frame, which goes with it: a count over the
// slice's length means all of it, and a digit's value its rest by 16.
#[derive(Clone, Copy)]
pub enum Line {
    // A character that is no digit was read.
    NotDigits,
    // So many bytes.
    Whole(usize),
    // So many bytes, and the value of a digit that wants its second.
    Half(usize, u8),
    // More bytes than the longest frame has; whether a digit wants its second.
    Long(bool),
}

fn take_digit(line: Line, d: u8, kept: &mut [u8]) -> Line
    requires { (d < 16) × (longest ≤ length kept.old) }
    ensures state { Internal.state_of result kept.new ≡ Internal.take_digit (Internal.state_of line kept.old) d }
{
    match line {
        Line::NotDigits => Line::NotDigits,
        Line::Whole(n) => Line::Half(n, d),
        Line::Half(n, high) => {
            if n < LONGEST {
                kept[n] = high % 16 * 16 + d;
                return Line::Whole(n + 1);
            }
            Line::Long(false)
        }
        Line::Long(odd) => Line::Long(!odd),
    }
}

fn take_char(line: Line, b: u8, values: &DigitValues, kept: &mut [u8]) -> Line
    requires { longest ≤ length kept.old }
    ensures state { Internal.state_of result kept.new ≡ Internal.after (Internal.state_of line kept.old) b }
{
    let d = digit_of(b, values);
    if d < NOT_A_DIGIT {
        return take_digit(line, d, kept);
    }
    Line::NotDigits
}

// How many bytes a line has, and how far in a block it was read.
#[derive(Clone, Copy)]
struct Pairs {
    bytes: usize,
    at: usize,
}

// Stays a `while`: it steps by two and stops at any pair, and is told how far it came.
// Takes pairs of digits from the front of a block, as long as there are any and a byte more is kept: nearly every line is such pairs.
fn take_pairs(block: &[u8], bytes: usize, values: &DigitValues, kept: &mut [u8]) -> Pairs
    requires { longest ≤ length kept.old }
    ensures passes { Internal.ReadsOn block.now 0 (Internal.whole (take bytes kept.old))
        result.at (Internal.whole (take result.bytes kept.new)) }
{
    let mut n = bytes;
    let mut at = 0usize;
    while block.len() - at >= 2 {
        let high = digit_of(block[at], values);
        let low = digit_of(block[at + 1], values);
        if high >= NOT_A_DIGIT {
            return Pairs { bytes: n, at };
        }
        if low >= NOT_A_DIGIT {
            return Pairs { bytes: n, at };
        }
        if n >= LONGEST {
            return Pairs { bytes: n, at };
        }
        kept[n] = high * 16 + low;
        n += 1;
        at += 2;
    }
    Pairs { bytes: n, at }
}

// How far a block was read, and what is known of the line there.
#[derive(Clone, Copy)]
pub struct Place {
    pub line: Line,
    pub at: usize,
}

// Takes characters from a place of a block on, to the next newline or to the block's end.
fn take_chars(block: &[u8], from: usize, line: Line, values: &DigitValues, kept: &mut [u8]) -> Place
    requires { (from ≤ length block.now) × (longest ≤ length kept.old) }
    ensures takes { Internal.Takes block.now from line kept.old result.at result.line kept.new }
{
    let mut reached = line;
    for at in from..block.len() {
        let b = block[at];
        if b == NEWLINE {
            return Place { line: reached, at };
        }
        reached = take_char(reached, b, values, kept);
    }
    Place {
        line: reached,
        at: block.len(),
    }
}

// Takes a block's characters to its first newline or to its end.
pub fn take_line(block: &[u8], line: Line, kept: &mut [u8]) -> Place
    requires { longest ≤ length kept.old }
    ensures takes { Internal.Takes block.now 0 line kept.old result.at result.line kept.new }
{
    let values = digit_values();
    if let Line::Whole(bytes) = line {
        let pairs = take_pairs(block, bytes, &values, kept);
        return take_chars(block, pairs.at, Line::Whole(pairs.bytes), &values, kept);
    }
    take_chars(block, 0, line, &values, kept)
}
