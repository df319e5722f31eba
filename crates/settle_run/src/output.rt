// Writes to a pipe that may be full for now.
ghost use Rattle.std.specs.Prelude.{◌≡◌, ◌≤◌, ◌↔◌, IsTrue, IfOk, OnOk, IfErr, OnErr, length, take};
ghost use Rattle.std.specs.IoError.{error_kind};
ghost use Rattle.std.specs.Io.KnownBytes.{Appends, Keeps};
ghost use Rattle.settle_run.specs.Streams.{AppendsSome, Passes};

use std::io::{ErrorKind, Write};
use std::time::{Clock, Duration};
use std::{io, thread};

// How long a pipe that does not wait is given to take or to give bytes, before the next try.
const PAUSE_MILLIS: u64 = 1;

// The turns of a loop that waits for a pipe: so many that no run uses them up.
pub const TURNS: u64 = u64::MAX;

// Whether a call that failed may be made again: a signal came, or a pipe that does not wait is full or empty for now.
pub fn will_pass(clock: &impl Clock, error: io::Error) -> bool
    ensures { IsTrue result ↔ Passes error }
{
    match error.kind() {
        ErrorKind::Interrupted => true,
        ErrorKind::WouldBlock => {
            thread::sleep(clock, Duration::from_millis(PAUSE_MILLIS));
            true
        }
        _ => false,
    }
}

// The error of a loop that used up its turns, which no run does.
pub fn out_of_turns() -> io::Error
    ensures { error_kind result ≡ ErrorKind.TimedOut }
{
    io::Error::new(ErrorKind::TimedOut, "gave up after 2^64 turns")
}

// One write of some of the bytes: how many are written.
// Kept: std's `write_all` says nothing of what was written where it fails, and gives up at a pipe that is full for now.
fn write_some<W: Write>(clock: &impl Clock, writer: &mut W, bytes: &[u8]) -> io::Result<usize>
    ensures bound { IfOk result (λ n. n ≤ length bytes.now) }
    ensures written { IfOk result (λ n. Appends (W.contents writer.old) (W.contents writer.new) (take n bytes.now)) }
    ensures lasting { IfErr result (λ e. ¬ Passes e) }
    ensures err { OnErr result (Keeps (W.contents writer.old) (W.contents writer.new)) }
{
    match writer.write(bytes) {
        Ok(n) => Ok(n),
        Err(e) if will_pass(clock, e) => Ok(0),
        Err(e) => Err(e),
    }
}

// Writes all of the bytes, in as many calls as it takes.
pub fn write_out<W: Write>(clock: &impl Clock, writer: &mut W, bytes: &[u8]) -> io::Result<()>
    ensures ok { OnOk result (Appends (W.contents writer.old) (W.contents writer.new) bytes.now) }
    ensures lasting { IfErr result (λ e. ¬ Passes e) }
    ensures err { OnErr result (AppendsSome (W.contents writer.old) (W.contents writer.new) bytes.now) }
{
    let mut left = bytes;
    // Kept: a loop that may not end asks for a handle, and the project allows none: this counts turns that no run uses up.
    for _ in 0..TURNS {
        if left.is_empty() {
            return Ok(());
        }
        let n = write_some(clock, writer, left)?;
        left = &left[n..];
    }
    Err(out_of_turns())
}

// Has the writer write what it holds itself.
pub fn pass_on<W: Write>(clock: &impl Clock, writer: &mut W) -> io::Result<()>
    ensures lasting { IfErr result (λ e. ¬ Passes e) }
    ensures kept { Keeps (W.contents writer.old) (W.contents writer.new) }
{
    // Kept: a loop that may not end asks for a handle, and the project allows none: this counts turns that no run uses up.
    for _ in 0..TURNS {
        let Err(e) = writer.flush() else {
            return Ok(());
        };
        if !will_pass(clock, e) {
            return Err(e);
        }
    }
    Err(out_of_turns())
}
