// Reads frames from standard input, one a line in hexadecimal, and prints each answer as a line on standard output. Proved: in `lines`,
// which bytes are to be printed; and here, of any reader and writer that say what bytes they have, that `answer_input` writes what all of
// the input prints, once and in order, with the last line, or where it returns an error a front of that. No contract says what standard
// input and standard output have: so of the system it is believed that it reads and writes as a slice of bytes does. Not proved: that an
// error is returned only where a read or a write failed, which of the two it names, that it is told on standard error, and what is done
// with arguments (rust/program tests all of these). A line that a failed read cut off gets no answer: it is not the line that was sent.
#![tactic(auto)]

mod arguments;
mod streams;

ghost use Rattle.std.specs.Prelude.{◌≤◌, length, IfOk, OnOk, OnErr, IfSome};
ghost use Rattle.std.specs.Io.KnownBytes.{Appends};
ghost use Rattle.frame_bytes.specs.Frame.{longest};
ghost use Rattle.lines.specs.Lines.{printed};
ghost use Rattle.lines.specs.LineStep as LineStep;
ghost use Rattle.ringcut.specs.Internal as Internal;
ghost use Rattle.ringcut.specs.Streams as Streams;

use arguments::{asks_for_version, has_arguments};
use frame_bytes::reader::LONGEST;
use lines::feed::{TooShort, feed_lines, finish, start};
use lines::line::Line;
use std::io;
use std::io::{IsTerminal, Read, Write};
use std::rt::Clock;
use streams::{Stopped, close_out, say, tell, try_again, write_out};

// How much is read at once.
const BLOCK: usize = 65536;

// Room for the longest line, and for some answers that wait to be written: a write for each would cost more than the answer.
const OUTPUT: usize = 151552;

// What a block leaves: the line to go on with, or the line that the input ended in.
#[derive(Drop)]
enum Turn {
    More(Line),
    Ended(Line),
}

// Answers every line that ends in the block, and writes the answers out: the next read may wait for more. Returns the line to go on with.
// Stays a `while`: each call says how much of the block it took.
fn feed_all<W: Write>(
    clock: &impl Clock,
    to: &mut W,
    block: &[u8],
    line: Line,
    kept: &mut [u8],
    out: &mut [u8],
) -> Result<Line, Stopped>
    requires { (longest ≤ length kept.old) × (LineStep.line_room ≤ length out.old) }
    ensures goes_on { IfOk result (λ next. LineStep.GoesOn block.now line kept.old next kept.new) }
    ensures answers { Internal.Answers (W.contents to.old) (W.contents to.new) block.now line kept.old
        result }
{
    let mut known = line;
    let mut from = 0usize;
    while from < block.len() {
        let fed = feed_lines(&block[from..], known, kept, out);
        write_out(clock, to, &out[..fed.written])?;
        known = fed.line;
        from += fed.taken;
    }
    Ok(known)
}

fn read_block<R: Read, W: Write>(
    clock: &impl Clock,
    input: &mut R,
    to: &mut W,
    line: Line,
    kept: &mut [u8],
    out: &mut [u8],
) -> Result<Turn, Stopped>
    requires { (longest ≤ length kept.old) × (LineStep.line_room ≤ length out.old) }
    ensures turns { Internal.Turns (R.remaining input.old) (R.remaining input.new)
        (W.contents to.old) (W.contents to.new) line kept.old result kept.new }
{
    let mut block = [0u8; BLOCK];
    match input.read(&mut block) {
        Ok(0) => Ok(Turn::Ended(line)),
        Ok(n) => {
            let next = feed_all(clock, to, &block[..n], line, kept, out)?;
            Ok(Turn::More(next))
        }
        Err(error) => {
            if try_again(clock, &error) {
                Ok(Turn::More(line))
            } else {
                Err(Stopped::Reading(error))
            }
        }
    }
}

// A proved loop has to end, and nothing says that the input does: the turns are counted up to a number that no run comes to.
fn read_all<R: Read, W: Write>(
    clock: &impl Clock,
    input: &mut R,
    to: &mut W,
    kept: &mut [u8],
    out: &mut [u8],
) -> Result<Line, Stopped>
    requires { (longest ≤ length kept.old) × (LineStep.line_room ≤ length out.old) }
    ensures all { IfOk result (λ last. Internal.ReadsAll (R.remaining input.old) (R.remaining input.new)
        (W.contents to.old) (W.contents to.new) last kept.new) }
    ensures part { OnErr result (IfSome (R.remaining input.old)
        (λ characters. Streams.AppendsSome (W.contents to.old) (W.contents to.new) (printed characters))) }
{
    let mut line = start();
    for _ in 0..u64::MAX {
        match read_block(clock, input, to, line, kept, out)? {
            Turn::More(next) => line = next,
            Turn::Ended(last) => return Ok(last),
        }
    }
    Err(Stopped::Reading(io::Error::from(io::ErrorKind::TimedOut)))
}

fn answer_input<R: Read, W: Write>(
    clock: &impl Clock,
    input: &mut R,
    to: &mut W,
) -> Result<(), Stopped>
    ensures all { OnOk result (IfSome (R.remaining input.old)
        (λ characters. Appends (W.contents to.old) (W.contents to.new) (printed characters))) }
    ensures part { OnErr result (IfSome (R.remaining input.old)
        (λ characters. Streams.AppendsSome (W.contents to.old) (W.contents to.new) (printed characters))) }
{
    let mut kept = [0u8; LONGEST];
    let mut out = [0u8; OUTPUT];
    let line = read_all(clock, input, to, &mut kept, &mut out)?;
    match finish(line, &kept, &mut out) {
        Ok(waiting) => write_out(clock, to, &out[..waiting]),
        // Both slices are as long as `finish` asks, so it never answers that one is too short.
        Err(TooShort) => unreachable!(),
    }
}

fn say_version<W: Write>(clock: &impl Clock, to: &mut W) -> Result<(), Stopped> {
    let version = b"ringcut 1.0.0\n";
    write_out(clock, to, version)
}

// Tells what stopped the work, or else closes standard output.
fn end(rt: HostRuntime, outcome: Result<(), Stopped>) {
    match outcome {
        Ok(()) => close_out(rt),
        Err(Stopped::Reading(error)) => tell(
            rt,
            "ringcut: stopped, standard input can't be read",
            error,
        ),
        Err(Stopped::Writing(error)) => tell(
            rt,
            "ringcut: stopped, standard output can't be written",
            error,
        ),
    }
}

fn main(rt: HostRuntime) {
    let mut input = rt.stdin();
    let mut to = rt.stdout();
    if asks_for_version(&rt) {
        return end(rt, say_version(&rt, &mut to));
    }
    if has_arguments(&rt, 1) {
        say(
            rt,
            "usage: ringcut <FRAMES >ANSWERS\n       ringcut --version\n",
        );
        say(
            rt,
            "Reads frames from standard input, a line of hexadecimal digits each, and prints a line for each answer.\n",
        );
        return;
    }
    if input.is_terminal() {
        say(
            rt,
            "ringcut: waiting for frames from the terminal, a line of hexadecimal digits each; control-D ends them\n",
        );
    }
    end(rt, answer_input(&rt, &mut input, &mut to));
}
