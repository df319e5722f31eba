// The allocate call: the book and its slice of running cells are tested, every cell is rounded, and the shares are rounded to volumes.
ghost use Rattle.std.specs.Prelude.{◌≡◌, true, ◌≤◌, length};
ghost use Rattle.book.specs.Settings.{settings_formed};
ghost use Rattle.running.specs.Words.{slice_words};
ghost use Rattle.running.specs.Running.{running_of, within_limits};
ghost use Rattle.allocation.specs.Running.{slice_lacks, slice_counts, slice_cause, allocate_running, RunningAllocationGives};
ghost use Rattle.allocation.specs.Helpers.{allocated_of, allocation_answer, formed_cause, AllocatedBy};

use crate::Figures;
use book::Settings;
use cells::Counts;
use correction::correct::correct_units;
use correction::rounding::round_cells;
use correction::sums::all_units;
use refusals::Refusal;
use running::lent::{test_lent, test_slice};
use running::{CELL_WORDS, WAITING_WORDS};

// Whether a meter waits in a category whose shape is missing.
fn any_waits(shapes: &[u32; 64], cells: &[i64]) -> bool
    requires { slice_words ≤ length cells.now }
    ensures { result ≡ slice_lacks shapes.now cells.now }
{
    for (shape, waiting) in shapes.iter().zip(&cells[WAITING_WORDS..]) {
        if (u64::from(*shape) == Settings::SHAPE_MISSING) & (0 < *waiting) {
            return true;
        }
    }
    false
}

// The four counts, which stand after the cells. None is below 0, so that each is its size.
#[tactic(auto, unfolding(crate::specs::Running::slice_counts))]
fn counts(cells: &[i64]) -> Counts
    requires { slice_words ≤ length cells.now }
    ensures { result ≡ slice_counts cells.now }
{
    Counts {
        actual: cells[CELL_WORDS].unsigned_abs(),
        estimated: cells[CELL_WORDS + 1].unsigned_abs(),
        defaulted: cells[CELL_WORDS + 2].unsigned_abs(),
        idle: cells[CELL_WORDS + 3].unsigned_abs(),
    }
}

// The allocation of settings and of a slice that were tested before.
fn allocate_kept(settings: Settings, cells: &[i64], volumes: &mut [i64]) -> Result<Figures, Refusal>
    requires formed { settings_formed settings ≡ true }
    requires long { slice_words ≤ length cells.now }
    requires within { within_limits cells.now ≡ true }
    ensures { AllocatedBy (slice_cause settings cells.now volumes.old) settings cells.now volumes.old (allocated_of result) volumes.new }
{
    if volumes.len() < 32 {
        return Err(Refusal::VolumesShort);
    }
    if settings.take_set != Settings::TAKE_FLAG_SET {
        return Err(Refusal::TakeUnset);
    }
    if any_waits(&settings.shapes, cells) {
        return Err(Refusal::ShapeOfDefaultMissing);
    }
    let mut table = [[0i64; 24]; 32];
    let droppings = round_cells(cells, &mut table);
    let sums = all_units(&table, &settings.weights);
    let corrected = correct_units(settings.take_wh, settings.tolerance, &sums, volumes)?;
    Ok(Figures {
        corrected,
        counts: counts(cells),
        droppings,
    })
}

// The allocation of a book that is known to be well formed and is not tested again: its slice is tested alone.
pub fn allocate_formed(
    settings: Settings,
    cells: &[i64],
    volumes: &mut [i64],
) -> Result<Figures, Refusal>
    requires { settings_formed settings ≡ true }
    ensures { AllocatedBy (formed_cause settings cells.now volumes.old) settings cells.now volumes.old (allocated_of result) volumes.new }
{
    test_slice(cells)?;
    allocate_kept(settings, cells, volumes)
}

// Allocates the Take to the 32 units: writes the first 32 words of the volume slice, and changes nothing in the book or its cells.
pub fn allocate(
    settings: Settings,
    rows: &[u64],
    cells: &[i64],
    volumes: &mut [i64],
) -> Result<Figures, Refusal>
    ensures { RunningAllocationGives (allocate_running (running_of settings rows.now cells.now) volumes.old) (allocation_answer settings result) rows.now cells.now volumes.new }
{
    test_lent(settings, rows, cells)?;
    allocate_kept(settings, cells, volumes)
}
