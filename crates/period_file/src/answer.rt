// The call of a line, and what it answers.
ghost use Rattle.running.specs.Running.{running_of};
ghost use Rattle.period_file.specs.Lines.{LineTakenWhere};

use crate::Taken;
use crate::lines::{LastKind, call_kind, read_line};
use book::Settings;
use calls::make::make_call;

// Reads a line that stands after a last one, or first, and makes its call; a line out of form makes none.
pub fn answer_line<K: LastKind>(
    settings: Settings,
    last: K,
    rows: &mut [u64],
    cells: &mut [i64],
    line: &[u8],
) -> Option<Taken>
    ensures { LineTakenWhere (running_of settings rows.old cells.old) (K.lets_follow last) line.now result rows.new cells.new }
{
    let call = read_line(line, last)?;
    let kind = call_kind(call);
    let outcome = make_call(settings, rows, cells, call);
    Some(Taken { kind, outcome })
}
