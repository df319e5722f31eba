// Lines gathered from the bytes that reads give, whatever the sizes of the reads, and what is printed of them.
ghost use Rattle.std.specs.Prelude.{◌≡◌, ◌+◌, ◌*◌, ◌≤◌, ◌++◌, IfErr, OnOk, OnErr, length, replicate, pos};
ghost use Rattle.std.specs.Io.KnownBytes.{Appends};
ghost use Rattle.running.specs.Words.{slice_words};
ghost use Rattle.settle_run.specs.declared.TheConstants.{OUT_BYTES};
ghost use Rattle.settle_run.specs.Program.{is_reading, fresh_work, quiet, out_of_form, by_cells, end_line, take_byte, take_bytes, take_read, end_input, closing_text, end_text};
ghost use Rattle.settle_run.specs.Helpers.{Took};
ghost use Rattle.settle_run.specs.Streams.{AppendsSome, Passes};

use crate::output::{pass_on, write_out};
use crate::{OUT_BYTES, Phase, ROW_WORDS};
use allocation::Allocated;
use allocation::allocate::allocate;
use arrayvec::ArrayVec;
use book::Settings;
use period_file::LineKind;
use period_file::answer::answer_line;
use period_file::lines::LINE_MAX;
use report::lines::{put_allocation, put_bad_line, put_refused};
use running::SLICE_WORDS;
use std::io;
use std::io::Write;
use std::marker::Model;
use std::time::Clock;

const LINE_FEED: u8 = b'\n';

// What is held between two bytes of the input, with the text that was printed and not yet written.
#[derive(Drop)]
pub struct Progress {
    settings: Settings,
    rows: [u64; ROW_WORDS],
    cells: [i64; SLICE_WORDS],
    phase: Phase,
    // The kind of the last line, if there was one.
    last_kind: Option<LineKind>,
    // The number of the line that is being gathered, and its bytes so far.
    number: u64,
    gathered: ArrayVec<u8, LINE_MAX>,
    // The text that waits to be written.
    waiting: ArrayVec<u8, OUT_BYTES>,
}

impl Model for Progress {
    ghost use Rattle.running.specs.Running.{running_of};
    ghost use Rattle.settle_run.specs.Program.{Step};

    ghost Value = { Step };

    ghost view = { λ p. record {
      work = record {
        running = running_of p.settings p.rows p.cells;
        phase = p.phase;
        last_kind = p.last_kind;
        number = p.number;
        gathered = p.gathered.items;
      };
      text = p.waiting.items;
    } };
}

impl Progress {
    // Before the first byte.
    // Kept: named as the constructor of the settings is, and no `Default`: the first line is 1, and a derive would give 0.
    pub fn fresh() -> Progress
        ensures { result ≡ quiet (fresh_work (replicate ROW_WORDS 0) (replicate slice_words (pos 0))) }
    {
        Progress {
            settings: Settings::fresh(),
            rows: [0; ROW_WORDS],
            cells: [0; SLICE_WORDS],
            phase: Phase::Reading,
            last_kind: None,
            number: 1,
            gathered: ArrayVec::new(),
            waiting: ArrayVec::new(),
        }
    }

    pub fn is_reading(&self) -> bool
        ensures { result ≡ is_reading self.now.work.phase }
    {
        self.phase == Phase::Reading
    }

    // A line out of form: its number is printed, and the program ends.
    // Kept: each asks for the room of what it prints, which differs from one to the next, so that no invariant of the type says it.
    fn stop(&mut self)
        requires { length self.old.text + 50 ≤ OUT_BYTES }
        ensures { Took (out_of_form self.old.work) 50 self.old self.new }
    {
        put_bad_line(&mut self.waiting, self.number);
        self.phase = Phase::Stopped;
    }

    // The end of a line: its call is made, and a refusal printed.
    #[tactic(auto, unfolding(crate::specs::Program::by_cells, crate::specs::Program::end_line))]
    fn end_line(&mut self)
        requires { length self.old.text + 50 ≤ OUT_BYTES }
        ensures { Took (end_line by_cells self.old.work) 50 self.old self.new }
    {
        let line = self.gathered.as_slice();
        let settings = self.settings;
        let Some(taken) = answer_line(
            settings,
            self.last_kind,
            &mut self.rows,
            &mut self.cells,
            line,
        ) else {
            return self.stop();
        };
        let number = self.number;
        self.number = number.wrapping_add(1);
        self.last_kind = Some(taken.kind);
        self.gathered.clear();
        match taken.outcome {
            Ok(settings) => self.settings = settings,
            Err(refusal) => put_refused(&mut self.waiting, number, u64::from(refusal)),
        }
    }

    // One byte of the input; after a line out of form none changes anything.
    #[tactic(auto, unfolding(crate::specs::Program::take_byte))]
    fn take_byte(&mut self, byte: u8)
        requires { length self.old.text + 50 ≤ OUT_BYTES }
        ensures { Took (take_byte by_cells self.old.work byte) 50 self.old self.new }
    {
        if !self.is_reading() {
            return;
        }
        if byte == LINE_FEED {
            return self.end_line();
        }
        if self.gathered.is_full() {
            return self.stop();
        }
        self.gathered.push(byte);
    }

    // Takes all of the bytes.
    #[tactic(auto, using(crate::proofs::Bytes::one_taken, std::proofs::lemmas::Grind::common_steps), unfolding(crate::specs::Program::take_bytes))]
    fn feed(&mut self, bytes: &[u8])
        requires { length self.old.text + 50 * length bytes.now ≤ OUT_BYTES }
        ensures { Took (take_bytes by_cells self.old.work bytes.now) (50 * length bytes.now) self.old self.new }
    {
        for byte in bytes {
            self.take_byte(*byte);
        }
    }

    // What one read gave; no bytes are the end of the input.
    #[tactic(auto, unfolding(crate::specs::Program::take_read))]
    pub fn take_read(&mut self, bytes: &[u8])
        requires { length self.old.text + 50 * length bytes.now ≤ OUT_BYTES }
        ensures { Took (take_read by_cells self.old.work bytes.now) (50 * length bytes.now) self.old self.new }
    {
        if bytes.is_empty() {
            self.phase = Phase::InputEnded;
        } else {
            self.feed(bytes);
        }
    }

    // The end of the input: the last line's end may be missing.
    #[tactic(auto, unfolding(crate::specs::Program::end_input))]
    fn end_input(&mut self)
        requires { length self.old.text + 50 ≤ OUT_BYTES }
        ensures { Took (end_input by_cells self.old.work) 50 self.old self.new }
    {
        if self.phase == Phase::InputEnded && !self.gathered.is_empty() {
            self.end_line();
        }
    }

    // Allocates, where the whole input was in form, and prints the outcome.
    #[tactic(auto, unfolding(crate::specs::Program::by_cells, crate::specs::Program::closing_text))]
    fn print_allocation(&mut self)
        requires { length self.old.text + 2048 ≤ OUT_BYTES }
        ensures text { self.new.text ≡ self.old.text ++ closing_text by_cells self.old.work }
        ensures short { length self.new.text ≤ length self.old.text + 2048 }
    {
        if self.phase == Phase::InputEnded {
            let mut volumes = [0i64; 32];
            let outcome = allocate(self.settings, &self.rows, &self.cells, &mut volumes);
            put_allocation(&mut self.waiting, Allocated::from(outcome), &volumes);
        }
    }

    // Prints what comes once the input has ended.
    #[tactic(auto, unfolding(crate::specs::Program::end_text))]
    pub fn finish(&mut self)
        requires { length self.old.text + 2098 ≤ OUT_BYTES }
        ensures text { self.new.text ≡ self.old.text ++ end_text by_cells self.old.work }
        ensures short { length self.new.text ≤ length self.old.text + 2098 }
    {
        self.end_input();
        self.print_allocation();
    }

    // Writes the text that waits. It waits until `clear_written`, so that a caller whose next step fails has what it had.
    pub fn write_waiting<W: Write>(&self, clock: &impl Clock, writer: &mut W) -> io::Result<()>
        ensures ok { OnOk result (Appends (W.contents writer.old) (W.contents writer.new) self.now.text) }
        ensures lasting { IfErr result (λ e. ¬ Passes e) }
        ensures err { OnErr result (AppendsSome (W.contents writer.old) (W.contents writer.new) self.now.text) }
    {
        write_out(clock, writer, self.waiting.as_slice())?;
        pass_on(clock, writer)
    }

    // The text that waited was written, and none waits.
    pub fn clear_written(&mut self)
        ensures { self.new ≡ quiet self.old.work }
    {
        self.waiting.clear();
    }

    // Writes the text that waits, after which none does. Where it fails, the text still waits.
    pub fn flush<W: Write>(&mut self, clock: &impl Clock, writer: &mut W) -> io::Result<()>
        ensures ok { OnOk result (Appends (W.contents writer.old) (W.contents writer.new) self.old.text) }
        ensures empty { OnOk result (self.new ≡ quiet self.old.work) }
        ensures lasting { IfErr result (λ e. ¬ Passes e) }
        ensures err { OnErr result (AppendsSome (W.contents writer.old) (W.contents writer.new) self.old.text) }
        ensures waiting { OnErr result (self.new ≡ self.old) }
    {
        self.write_waiting(clock, writer)?;
        self.clear_written();
        Ok(())
    }
}
