// Writing all of some bytes, standard error, and what to do where a read or a write fails.
ghost use Rattle.std.specs.Prelude.{OnOk, OnErr};
ghost use Rattle.std.specs.Io.KnownBytes.{Appends};
ghost use Rattle.ringcut.specs.Streams.{AppendsSome};

use std::fmt::InlineText;
use std::fs::OpenFile;
use std::io::Write;
use std::os::fd::AsFd;
use std::rt::{Clock, Files};
use std::time::Duration;
use std::{fs, io, thread};

// Why the work ended before the input did: a read or a write that failed.
#[derive(Drop)]
pub enum Stopped {
    Reading(io::Error),
    Writing(io::Error),
}

// Room for the text of an error.
const TEXT: usize = 256;

// What the system answers for a descriptor that is not open.
const EBADF: i32 = 9;

// Where standard output goes, as Linux names it.
const OUT: &str = "/proc/self/fd/1";

fn wait_a_millisecond(clock: &impl Clock) {
    thread::sleep(clock, Duration::from_millis(1));
}

// Whether to make the call again that has just failed: a signal came before it moved a byte, or the descriptor is one that does not wait,
// and was not ready.
pub fn try_again(clock: &impl Clock, error: &io::Error) -> bool {
    match error.kind() {
        io::ErrorKind::WouldBlock => {
            wait_a_millisecond(clock);
            true
        }
        io::ErrorKind::Interrupted => true,
        _ => false,
    }
}

// Writes all of the bytes, or fails at the first write that fails. A write may take some of them only, or none. The turns are counted up to
// a number that no run comes to, since a proved loop has to end.
fn write_to<W: Write>(clock: &impl Clock, to: &mut W, bytes: &[u8]) -> io::Result<()>
    ensures all { OnOk result (Appends (W.contents to.old) (W.contents to.new) bytes.now) }
    ensures part { OnErr result (AppendsSome (W.contents to.old) (W.contents to.new) bytes.now) }
{
    let mut left = bytes;
    for _ in 0..u64::MAX {
        if left.is_empty() {
            return Ok(());
        }
        match to.write(left) {
            Ok(0) => wait_a_millisecond(clock),
            Ok(n) => left = &left[n..],
            Err(error) => {
                if !try_again(clock, &error) {
                    return Err(error);
                }
            }
        }
    }
    Err(io::Error::from(io::ErrorKind::TimedOut))
}

// There is nowhere to tell that standard error can't be written.
pub fn say(rt: HostRuntime, text: &str) {
    let mut to = rt.stderr();
    let _ = write_to(&rt, &mut to, text.as_bytes());
}

// The system's reason alone: the text of an error of the system goes on with its number.
fn reason(text: &str) -> &str {
    match text.split_once(" (os error ") {
        Some((before, _)) => before,
        None => text,
    }
}

// Tells what failed, with the system's reason.
pub fn tell(rt: HostRuntime, failed: &str, error: io::Error) {
    let text = InlineText::<TEXT>::of(error);
    say(rt, failed);
    say(rt, ": ");
    say(rt, reason(text.as_str()));
    say(rt, "\n");
}

// Writes all of the bytes, the answers that wait, say.
pub fn write_out<W: Write>(clock: &impl Clock, to: &mut W, bytes: &[u8]) -> Result<(), Stopped>
    ensures all { OnOk result (Appends (W.contents to.old) (W.contents to.new) bytes.now) }
    ensures part { OnErr result (AppendsSome (W.contents to.old) (W.contents to.new) bytes.now) }
{
    write_to(clock, to, bytes).map_err(Stopped::Writing)
}

// Whether standard output is open, asked by a copy of it, which is closed again here. That there may be no room for a copy says nothing.
fn check_is_open(rt: HostRuntime) -> io::Result<()> {
    match rt.stdout().as_fd().try_clone_to_owned() {
        Err(error) if error.raw_os_error() == Some(EBADF) => Err(error),
        _ => Ok(()),
    }
}

// Standard output's file, opened once more: for writing, or where its owner does not allow that any more, for reading.
fn open_out<R: Files>(files: &R) -> io::Result<R::File> {
    match fs::OpenOptions::new().write(true).open(files, OUT) {
        Err(_) => fs::File::open(files, OUT),
        opened => opened,
    }
}

// Where standard output is a file, has the system keep what was written to it. Where it has no name that can be opened, and where its file
// system keeps nothing, nothing can be asked.
fn sync_file(files: &impl Files) -> io::Result<()> {
    let Ok(found) = fs::metadata(files, OUT) else {
        return Ok(());
    };
    if !found.is_file() {
        return Ok(());
    }
    let Ok(file) = open_out(files) else {
        return Ok(());
    };
    match file.sync_data() {
        Err(error) if error.kind() == io::ErrorKind::InvalidInput => Ok(()),
        outcome => outcome,
    }
}

// Some file systems tell only at the end that something written was lost. Standard output is closed as the program ends, when nobody can be
// told, so what closing it would tell is asked for before.
pub fn close_out(rt: HostRuntime) {
    let outcome = match check_is_open(rt) {
        Ok(()) => sync_file(&rt),
        Err(error) => Err(error),
    };
    if let Err(error) = outcome {
        tell(
            rt,
            "ringcut: standard output can't be closed, so answers may be lost",
            error,
        );
    }
}
