// What the lent slices hold before a call, and whether they hold afterwards what they must.
ghost use Rattle.std.specs.Prelude.{◌≡◌, ℕ, ◌+◌, ◌≤◌, List, eqb, length, map, replicate, refl};
ghost use Rattle.std.specs.List.{list_all};
ghost use Rattle.std.specs.Float.{binary64};
ghost use Rattle.std.specs.Float.Ieee.{of_bits, to_bits};
ghost use Rattle.std.proofs.Common.{lit≤, sym};
ghost use Rattle.std.proofs.lemmas.List.{map-id};
ghost use Rattle.replay.specs.Lent as Lent;
ghost use Rattle.replay.specs.Calls as Calls;

use super::code::is_refusal;
use super::stream::{origin_at, whole_at};
use binary64::bytes::{read_f64, to_bits};

// The most numbers that a polygon or a ring is lent with: two more than a call takes.
pub const MOST_NUMBERS: usize = 131066;

// The longest slice that is lent to be written.
pub const ROOM: usize = 4096;

// A slice that is lent to be written holds this everywhere before a call: a slice of doubles, of lengths or the order, of origins.
const MARK: f64 = 7.25;

const WHOLE_MARK: u32 = 77;

const ORIGIN_MARK: u16 = 777;

// A number of which a slice is lent: a double, a length of a ring or a place of the order, an origin.
pub trait Lent: Copy {
    // Its bits; a NaN's bits are free.
    ghost bits: { Self → ℕ };

    // What a slice that is lent to be written holds everywhere before a call.
    ghost mark: { Self };

    // The bits of some.
    ghost all_bits: { List Self → List ℕ };

    // How many bytes it has in an input.
    ghost SIZE: { ℕ };

    const SIZE: usize;

    fn mark() -> Self
        ensures { result ≡ mark };

    fn zero() -> Self
        ensures { bits result ≡ 0 };

    fn is_same(self, other: Self) -> bool
        ensures { result ≡ eqb (bits self) (bits other) };

    fn read_at(bytes: &[u8], at: usize) -> Self
        requires { at + SIZE ≤ length bytes.now };

    ghost narrow: { SIZE ≤ 8 };

    ghost each: { (l : List Self) → all_bits l ≡ map bits l };
}

impl Lent for f64 {
    ghost bits = { to_bits binary64 };

    ghost mark = { of_bits binary64 Lent.mark };

    ghost all_bits = { Lent.bits };

    ghost SIZE = { 8 };

    const SIZE: usize = 8;

    fn mark() -> f64 {
        MARK
    }

    fn zero() -> f64 {
        0.0
    }

    fn is_same(self, other: f64) -> bool {
        to_bits(self) == to_bits(other)
    }

    fn read_at(bytes: &[u8], at: usize) -> f64 {
        read_f64(bytes, at)
    }

    ghost narrow = { lit≤ tt };

    ghost each = { λ l. refl };
}

impl Lent for u32 {
    ghost bits = { λ x. x };

    ghost mark = { Lent.whole_mark };

    ghost all_bits = { λ l. l };

    ghost SIZE = { 4 };

    const SIZE: usize = 4;

    fn mark() -> u32 {
        WHOLE_MARK
    }

    fn zero() -> u32 {
        0
    }

    fn is_same(self, other: u32) -> bool {
        self == other
    }

    fn read_at(bytes: &[u8], at: usize) -> u32 {
        whole_at(bytes, at)
    }

    ghost narrow = { lit≤ tt };

    ghost each = { λ l. sym (map-id l) };
}

impl Lent for u16 {
    ghost bits = { λ x. x };

    ghost mark = { Lent.origin_mark };

    ghost all_bits = { λ l. l };

    ghost SIZE = { 2 };

    const SIZE: usize = 2;

    fn mark() -> u16 {
        ORIGIN_MARK
    }

    fn zero() -> u16 {
        0
    }

    fn is_same(self, other: u16) -> bool {
        self == other
    }

    fn read_at(bytes: &[u8], at: usize) -> u16 {
        origin_at(bytes, at)
    }

    ghost narrow = { lit≤ tt };

    ghost each = { λ l. sym (map-id l) };
}

// Such a slice, as long as it can be.
pub fn marks<T: Lent>() -> [T; ROOM]
    ensures { result ≡ replicate Lent.most_lent T.mark }
{
    [T::mark(); ROOM]
}

// Room for the numbers of a polygon or a ring: a function of its own, so that no caller has the array written out in its proof.
pub fn no_numbers() -> [f64; MOST_NUMBERS]
    ensures { length result ≡ Lent.most_numbers }
{
    [0.0; MOST_NUMBERS]
}

// What a slice that a call clears holds afterwards everywhere.
fn cleared_unless<T: Lent>(refused: bool) -> T
    ensures { T.bits result ≡ Lent.cleared_unless refused (T.bits T.mark) }
{
    if refused { T::mark() } else { T::zero() }
}

fn are_all<T: Lent>(s: &[T], x: T) -> bool
    ensures { result ≡ list_all (λ y. eqb (T.bits y) (T.bits x)) s.now }
{
    s.iter().all(|y| y.is_same(x))
}

// Whether a slice holds these numbers at its front, and past them what it held before the call.
// Stays a loop over places: the longer slice is looked at behind the last of them too.
fn holds<T: Lent>(s: &[T], front: &[T]) -> bool
    ensures { result ≡ Lent.holds (T.bits T.mark) (map T.bits front.now) (map T.bits s.now) }
{
    let n = front.len();
    if s.len() < n {
        return false;
    }
    for i in 0..n {
        if !s[i].is_same(front[i]) {
            return false;
        }
    }
    are_all(&s[n..], T::mark())
}

// Whether a call has left a slice that it clears and one that it writes to as it has to.
pub fn slices_agree<T: Lent>(refused: bool, scratch: &[T], out: &[T], expected: &[T]) -> bool
    ensures { result ≡ Calls.slices_agree refused (T.bits T.mark) (T.all_bits scratch.now)
        (T.all_bits out.now) (T.all_bits expected.now) }
{
    if !are_all(scratch, cleared_unless(refused)) {
        return false;
    }
    holds(out, expected)
}

// Whether the code of an answer is the kept one, and the call has left the scratch slice and the output as it has to. It reads them only:
// where they are lent to be written, each return is proved to keep all their lengths.
pub fn answer_agrees(given: u64, code: u64, scratch: &[f64], out: &[f64], expected: &[f64]) -> bool
    ensures { result ≡ Calls.answer_agrees given code scratch.now out.now expected.now }
{
    if given != code {
        return false;
    }
    slices_agree(is_refusal(code), scratch, out, expected)
}
