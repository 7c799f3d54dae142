// Answers as they cross in the exported calls: an i64, here by its bits, so that minus a refusal's number is a number from the top.
ghost use Rattle.std.specs.Prelude.{◌≡◌, ◌^◌, ◌<◌, Err};
ghost use Rattle.ring_calls.specs.RingCall.{ring_call_code};
ghost use Rattle.slices.specs.SliceCall.{slice_call_code};
ghost use Rattle.replay.specs.Code.{bits_of, is_refusal, ring_numbers, rings_written};

use clip::polygon::AnswerKind;
use ring_calls::Refusal;
use slices::call::{Answered, FIRST_PLACE, answer_code};

// What becomes of a vector that is whole: its answer is given, or another one is.
#[derive(Drop)]
pub enum Outcome {
    Same(u64),
    Differs,
}

// The largest code that is no refusal.
const LARGEST: u64 = 0x7fff_ffff_ffff_ffff;

pub fn is_refusal(code: u64) -> bool
    ensures { result ≡ is_refusal code }
{
    code > LARGEST
}

fn of_refusal(refusal: Refusal) -> u64
    ensures { result ≡ bits_of (ring_call_code (Err refusal)) }
{
    let number = u8::from(refusal) as u64;
    u64::MAX - (number - 1)
}

// Stays a function, here and below: a From needs a type of this crate, and can't require that the number fits.
pub fn of_ring(answer: Result<usize, Refusal>) -> u64
    ensures { result ≡ bits_of (ring_call_code answer) }
{
    match answer {
        Err(refusal) => of_refusal(refusal),
        Ok(n) => n as u64,
    }
}

// How many numbers the ring has that a ring call with this answer gives.
pub fn numbers_of(code: u64) -> usize
    ensures { result ≡ ring_numbers code }
{
    if is_refusal(code) {
        return 0;
    }
    (2 * code) as usize
}

pub fn of_slice(answer: Result<Answered, Refusal>) -> u64
    requires { bits_of (slice_call_code answer) < 2 ^ 64 }
    ensures { result ≡ bits_of (slice_call_code answer) }
{
    match answer {
        Err(refusal) => of_refusal(refusal),
        Ok(answered) => answer_code(answered.answer),
    }
}

// The rings that a slice call with this answer writes.
pub fn rings_of(code: u64) -> usize
    ensures { result ≡ rings_written code }
{
    if is_refusal(code) {
        return 0;
    }
    if code % 256 != AnswerKind::Cut as u64 {
        return 0;
    }
    (code / FIRST_PLACE) as usize
}
