// The body of the program `settle`: it reads a period file from standard input line by line, makes the call of each line, and
// prints what document 01 says. What a line means is in `period_file`, and what a call does is in `calls` and `allocation`.
#![tactic(auto)]

mod input;
mod lines;
mod output;

ghost use Rattle.std.specs.Prelude.{OnOk, IfErr, OnErr, IfSome, replicate, pos};
ghost use Rattle.std.specs.Io.KnownBytes.{Appends};
ghost use Rattle.running.specs.Words.{slice_words};
ghost use Rattle.settle_run.specs.Program.{by_cells, settle_text};
ghost use Rattle.settle_run.specs.Helpers.{HasRoom, Read};
ghost use Rattle.settle_run.specs.Streams.{AppendsSome, Passes, ReadOver, BrokenOff};

use crate::lines::Progress;
use std::io;
use std::io::{Read, Write};
use std::time::Clock;

// The words of 512 meters.
pub(crate) const ROW_WORDS: usize = 1_536;

// A byte of the input prints at most 50 bytes, and the end of the input at most 2,098: a text of this size holds what one
// read of at most 1,024 bytes and the end of the input can print.
pub(crate) const OUT_BYTES: usize = 65_536;

// How far the work is: the end of the input was met, or a line out of form ended it.
#[derive(Clone, Copy, Debug, PartialEq, Eq)]
pub enum Phase {
    Reading,
    InputEnded,
    Stopped,
}

// Reads to the end of the input, or to a line out of form.
fn read_all<R: Read, W: Write>(
    clock: &impl Clock,
    reader: &mut R,
    writer: &mut W,
    progress: &mut Progress,
) -> io::Result<()>
    requires { HasRoom progress.old }
    ensures ok { OnOk result (Read progress.old progress.new) }
    ensures streams { OnOk result (ReadOver progress.old progress.new (R.remaining reader.old) (R.remaining reader.new) (W.contents writer.old) (W.contents writer.new)) }
    ensures lasting { IfErr result (λ e. ¬ Passes e) }
    ensures err { OnErr result (Read progress.old progress.new) }
    ensures begun { OnErr result (BrokenOff progress.old (R.remaining reader.old) (R.remaining reader.new) (W.contents writer.old) (W.contents writer.new)) }
{
    // Kept: a loop that may not end asks for a handle, and the project allows none: this counts turns that no run uses up.
    for _ in 0..output::TURNS {
        if !progress.is_reading() {
            return Ok(());
        }
        input::turn(clock, reader, writer, progress)?;
    }
    Err(output::out_of_turns())
}

// Reads a period file and prints what comes of it.
pub fn run<R: Read, W: Write>(clock: &impl Clock, reader: &mut R, writer: &mut W) -> io::Result<()>
    ensures ok { OnOk result (IfSome (R.remaining reader.old) (λ input. Appends (W.contents writer.old) (W.contents writer.new) (settle_text by_cells (replicate ROW_WORDS 0) (replicate slice_words (pos 0)) input))) }
    ensures lasting { IfErr result (λ e. ¬ Passes e) }
    ensures err { OnErr result (IfSome (R.remaining reader.old) (λ input. AppendsSome (W.contents writer.old) (W.contents writer.new) (settle_text by_cells (replicate ROW_WORDS 0) (replicate slice_words (pos 0)) input))) }
{
    let mut progress = Progress::fresh();
    read_all(clock, reader, writer, &mut progress)?;
    progress.finish();
    progress.flush(clock, writer)
}
