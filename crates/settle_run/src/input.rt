// Reads of the input, of any size.
ghost use Rattle.std.specs.Prelude.{◌≡◌, IfErr, OnOk, OnErr};
ghost use Rattle.std.specs.Io.KnownBytes.{Keeps};
ghost use Rattle.settle_run.specs.Helpers.{HasRoom};
ghost use Rattle.settle_run.specs.Streams.{AppendsSome, Passes, TurnedOver};

use crate::lines::Progress;
use crate::output::will_pass;
use std::io;
use std::io::{Read, Write};
use std::time::Clock;

// One read, after what waits was written. At the end of the input the phase changes. Where a write or the read fails for good, what is held
// stays as it was, the text too.
// Kept: clock, reader and writer are lent one by one: a struct of them would hold two `&mut`, and each function that takes it would have to
// promise besides that they are still the same two.
pub fn turn<R: Read, W: Write>(
    clock: &impl Clock,
    reader: &mut R,
    writer: &mut W,
    progress: &mut Progress,
) -> io::Result<()>
    requires { HasRoom progress.old }
    ensures streams { OnOk result (TurnedOver progress.old progress.new (R.remaining reader.old) (R.remaining reader.new) (W.contents writer.old) (W.contents writer.new)) }
    ensures lasting { IfErr result (λ e. ¬ Passes e) }
    ensures waiting { OnErr result (progress.new ≡ progress.old) }
    ensures begun { OnErr result (AppendsSome (W.contents writer.old) (W.contents writer.new) progress.old.text × Keeps (R.remaining reader.old) (R.remaining reader.new)) }
{
    progress.write_waiting(clock, writer)?;
    let mut chunk = [0u8; 1_024];
    match reader.read(&mut chunk) {
        Ok(n) => {
            progress.clear_written();
            progress.take_read(&chunk[..n]);
            Ok(())
        }
        Err(e) if will_pass(clock, e) => {
            progress.clear_written();
            Ok(())
        }
        Err(e) => Err(e),
    }
}
