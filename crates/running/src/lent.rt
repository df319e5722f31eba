// The test of what is lent: the slice of running cells, alone or beside its book.
ghost use Rattle.std.specs.Prelude.{◌≡◌};
ghost use Rattle.running.specs.Running.{running_of};
ghost use Rattle.running.specs.Helpers.{slice_tested, lent_tested};

use crate::SLICE_WORDS;
use crate::limits::measure;
use book::Settings;
use book::formed::is_formed;
use refusals::Refusal;

// The causes of a slice beside a book that is known to be well formed; else the sizes of its cells, added up.
pub fn test_slice(cells: &[i64]) -> Result<u64, Refusal>
    ensures { result ≡ slice_tested cells.now }
{
    if cells.len() < SLICE_WORDS {
        return Err(Refusal::CellsShort);
    }
    measure(cells).ok_or(Refusal::BookIllFormed)
}

// The two causes that come before every other: a slice that is too short, and a book or a slice that is not well formed.
#[tactic(auto, unfolding(crate::specs::Running::running_formed))]
pub fn test_lent(settings: Settings, rows: &[u64], cells: &[i64]) -> Result<u64, Refusal>
    ensures { result ≡ lent_tested (running_of settings rows.now cells.now) }
{
    if cells.len() < SLICE_WORDS {
        return Err(Refusal::CellsShort);
    }
    if !is_formed(settings, rows) {
        return Err(Refusal::BookIllFormed);
    }
    measure(cells).ok_or(Refusal::BookIllFormed)
}
