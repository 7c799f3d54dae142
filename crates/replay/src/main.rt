// Replays ring calls and slice calls from standard input, each with the answer that was kept for it: the unchanged Rust's rings, with the
// refusals and reasons of the harness (harness/README.md, "Vectors to replay": a file of ring calls, then one of slice calls). Prints how
// often each answer was given and how many calls were answered otherwise.
#![tactic(auto)]

mod code;
mod lent;
mod ring_vectors;
mod slice_vectors;
mod stream;

ghost use Rattle.std.specs.Prelude.{◌≡◌, length};

use code::{Outcome, is_refusal};
use ring_vectors::replay_ring;
use slice_vectors::replay_slice;
use std::io;
use std::io::Read;
use stream::{is_at_end, read_count};

// A count for each answer that is no refusal (a ring call has two, a slice call five), for each of 19 to 22, and for the calls that differ.
// Stays numbers, here and in `row`: each is a place in the table of counts, and an answer's number may be none of those that are printed.
const ROWS: usize = 10;

const REFUSALS: usize = 5;

const DIFFER: usize = 9;

// Minus 1 is the number at the top, minus 19 the one 18 below it.
fn refusal_row(code: u64) -> usize {
    match u64::MAX - code {
        18 => REFUSALS,
        19 => REFUSALS + 1,
        20 => REFUSALS + 2,
        21 => REFUSALS + 3,
        _ => DIFFER,
    }
}

// The calls of a file.
trait Calls {
    fn replay<R: Read>(&self, input: &mut R) -> Option<Outcome>;

    // The row of an answer that is no refusal.
    fn row(&self, code: u64) -> usize;

    // Prints these rows.
    fn print_rows(&self, rt: &impl Print, counts: &[u64]) -> io::Result<()>
        requires { length counts.now ≡ 10 };
}

struct Ring;

impl Calls for Ring {
    fn replay<R: Read>(&self, input: &mut R) -> Option<Outcome> {
        replay_ring(input)
    }

    fn row(&self, code: u64) -> usize {
        if code == 0 { 1 } else { 0 }
    }

    fn print_rows(&self, rt: &impl Print, counts: &[u64]) -> io::Result<()> {
        print_row(rt, "ring", counts[0])?;
        print_row(rt, "empty", counts[1])
    }
}

struct Slice;

impl Calls for Slice {
    fn replay<R: Read>(&self, input: &mut R) -> Option<Outcome> {
        replay_slice(input)
    }

    fn row(&self, code: u64) -> usize {
        match code % 256 {
            0 => 0,
            1 => 1,
            2 => 2,
            4 => 3,
            5 => 4,
            _ => DIFFER,
        }
    }

    fn print_rows(&self, rt: &impl Print, counts: &[u64]) -> io::Result<()> {
        print_row(rt, "nothing", counts[0])?;
        print_row(rt, "dropped", counts[1])?;
        print_row(rt, "unchanged", counts[2])?;
        print_row(rt, "cut", counts[3])?;
        print_row(rt, "overlay", counts[4])
    }
}

fn row(calls: &impl Calls, code: u64) -> usize {
    if is_refusal(code) {
        return refusal_row(code);
    }
    calls.row(code)
}

// One more in a row; a count stays at the top.
fn add_to(counts: &mut [u64], row: usize) {
    if row < counts.len() {
        if counts[row] < u64::MAX {
            counts[row] += 1;
        }
    }
}

// Counts a vector, if it is whole.
fn count_one<R: Read>(input: &mut R, calls: &impl Calls, counts: &mut [u64]) -> Option<()> {
    match calls.replay(input)? {
        Outcome::Same(code) => add_to(counts, row(calls, code)),
        Outcome::Differs => add_to(counts, DIFFER),
    }
    Some(())
}

// Counts the vectors of a file, if they are whole.
fn count_all<R: Read>(input: &mut R, calls: &impl Calls, counts: &mut [u64]) -> Option<()> {
    let n = read_count(input)?;
    for _ in 0..n {
        count_one(input, calls, counts)?;
    }
    Some(())
}

fn print_row(rt: &impl Print, name: &str, count: u64) -> io::Result<()> {
    println!(rt; "{name} {count}")
}

fn print_last_rows(rt: &impl Print, counts: &[u64]) -> io::Result<()>
    requires { length counts.now ≡ 10 }
{
    print_row(rt, "19", counts[REFUSALS])?;
    print_row(rt, "20", counts[REFUSALS + 1])?;
    print_row(rt, "21", counts[REFUSALS + 2])?;
    print_row(rt, "22", counts[REFUSALS + 3])?;
    print_row(rt, "differ", counts[DIFFER])
}

// Whether the vectors of a file are whole, with the rows printed.
fn replay_all<R: Read>(rt: &impl Print, input: &mut R, calls: &impl Calls) -> io::Result<bool> {
    let mut counts = [0u64; ROWS];
    let whole = count_all(input, calls, &mut counts).is_some();
    calls.print_rows(rt, &counts)?;
    print_last_rows(rt, &counts)?;
    Ok(whole)
}

fn main(rt: HostRuntime) -> io::Result<()> {
    let mut input = rt.stdin();
    let whole = replay_all(&rt, &mut input, &Ring)? && replay_all(&rt, &mut input, &Slice)?;
    if whole && is_at_end(&mut input) {
        return Ok(());
    }
    println!(rt; "the vectors are not whole")
}
