// What another load shape changes in the slice of running cells: the cells of the meters that wait in its category.
ghost use Rattle.std.specs.Prelude.{◌≡◌, true, ◌<◌, pos, ◌-ℤ◌, get_or, map, take};
ghost use Rattle.integers.specs.Sum.{sizes};
ghost use Rattle.words.specs.Registration.{is_registration};
ghost use Rattle.book.specs.Limits.{categories, shape_missing};
ghost use Rattle.book.specs.Settings.{is_shape};
ghost use Rattle.book.specs.Rows.{first_row};
ghost use Rattle.cells.specs.Energy.{shape_wh};
ghost use Rattle.running.specs.Words.{cell_words};
ghost use Rattle.running.specs.Running.{sizes_most};
ghost use Rattle.running.specs.Ready.{CellsReady};
ghost use Rattle.running.specs.Lent.{lent_slice, lent_cells};
ghost use Rattle.running.specs.Helpers.{waits_in, first_waiting, waiting_cell, cells_give, shape_sum, cells_changed, change_of, ShapesFormed, RowsHeld, WaitingArguments, GatherArguments, ChangeArguments, Exchanges, KeepsUp, shape_change};

use crate::{CELL_SIZES_MAX, CELL_WORDS, RunningCells};
use book::Settings;
use cells::meters::class;
use cells::{Source, Status};
use refusals::Refusal;
use words::field::Field;

// The energy of a shape in Wh, none for a missing one.
#[tactic(auto, unfolding(cells::specs::Energy::shape_wh))]
fn shape_wh(shape: u64) -> u64
    ensures { result ≡ shape_wh shape }
{
    if shape == Settings::SHAPE_MISSING {
        0
    } else {
        shape
    }
}

// How many Wh more a meter has whose category gets this shape.
fn wh_more(shapes: &[u32; 64], category: u64, wh: u64) -> i64
    requires shapes { ShapesFormed shapes.now }
    requires category { category < categories }
    requires shape { is_shape wh ≡ true }
    ensures { result ≡ pos (shape_wh wh) -ℤ pos (shape_wh (get_or shapes.now category shape_missing)) }
{
    let before = shape_wh(u64::from(shapes[category as usize]));
    shape_wh(wh) as i64 - before as i64
}

// Whether a meter waits in a category: it is energised and has no reading. Nearly every meter has one, so that is looked at first.
#[tactic(auto, unfolding(cells::specs::Helpers::status_in))]
fn waits(registration: u64, reading: u64, category: u64) -> bool
    ensures { result ≡ waits_in category registration reading }
{
    reading == words::NO_READING
        && matches!(Status::of(registration), Status::Energised)
        && Field::CATEGORY.of(registration) == category
}

// The first row of a meter that waits in a category.
fn first_waiting(rows: &[[u64; 3]], category: u64) -> Option<usize>
    ensures { result ≡ first_waiting category rows.now }
{
    rows.iter().position(|&[_, registration, reading]| waits(registration, reading, category))
}

// Adds what a meter that waits has more, in thousandths of a Wh, to the changes of its two cells.
#[tactic(auto, using(crate::proofs::WaitingAdded::inside), unfolding(cells::specs::Cells::estimate_bit))]
fn add_waiting(change: &mut [i64; 768], registration: u64, wh: i64)
    requires { WaitingArguments change.old registration wh }
    ensures { change.new ≡ cells_changed (cells_give (waiting_cell registration) registration wh) change.old }
{
    let at = 24 * words::unit(registration) as usize
        + class(registration, Source::Defaulted) as usize;
    let excess = Field::LLF.of(registration) as i64 - 1000;
    change[at] += 1000 * wh;
    change[at + 1] += excess * wh;
}

// What the meters that wait in a category change in the cells. Nothing is written to the slice itself, since the change is made only
// if no limit is passed after all of it.
fn gather_change(change: &mut [i64; 768], rows: &[[u64; 3]], category: u64, wh: i64)
    requires { GatherArguments change.old (map first_row rows.now) wh }
    ensures { change.new ≡ cells_changed (shape_sum category wh (map first_row rows.now)) change.old }
{
    for &[_, registration, reading] in rows {
        if waits(registration, reading, category) {
            add_waiting(change, registration, wh);
        }
    }
}

// The sizes of the cells, added up, as they would be after a change.
fn changed_sizes(cells: &[i64], change: &[i64; 768]) -> u64
    requires { ChangeArguments cells.now change.now }
    ensures { result ≡ sizes (take cell_words (cells_changed (change_of change.now) cells.now)) }
{
    let mut total = 0;
    for (i, more) in change.iter().enumerate() {
        total += (cells[i] + more).unsigned_abs();
    }
    total
}

// Adds a change to the cells.
fn add_change(cells: &mut [i64], change: &[i64; 768])
    requires { ChangeArguments cells.old change.now }
    ensures { cells.new ≡ cells_changed (change_of change.now) cells.old }
{
    for (i, more) in change.iter().enumerate() {
        cells[i] += more;
    }
}

// Adds a change to the cells, unless their sizes would pass their limit then: nothing is written before that is known. Gives the sizes of
// the cells, added up, afterwards.
fn keep_change(cells: &mut [i64], change: &[i64; 768]) -> Option<u64>
    requires change { ChangeArguments cells.old change.now }
    requires ready { CellsReady cells.old sizes_most }
    ensures { Exchanges (change_of change.now) cells.old result cells.new }
{
    let most = changed_sizes(cells, change);
    if CELL_SIZES_MAX < most {
        return None;
    }
    add_change(cells, change);
    Some(most)
}

impl RunningCells<'_> {
    // Adds to the cells what another shape of a category changes in them, or nothing if a limit would be passed then. Counts and the
    // numbers of waiting meters do not depend on shapes. Often no meter waits in the category: the work over all cells is done only
    // from the first that does.
    pub fn keep_shape(
        &mut self,
        shapes: &[u32; 64],
        rows: &[[u64; 3]],
        category: u64,
        wh: u64,
    ) -> Result<(), Refusal>
        requires shapes { ShapesFormed shapes.now }
        requires rows { RowsHeld (map first_row rows.now) }
        requires category { category < categories }
        requires shape { is_shape wh ≡ true }
        ensures same_slice { lent_slice self.new ≡ lent_slice self.old }
        ensures kept { KeepsUp (shape_change shapes.now category wh (map first_row rows.now)) (lent_cells self.old) result (lent_cells self.new) }
    {
        let Some(first) = first_waiting(rows, category) else {
            return Ok(());
        };
        let more = wh_more(shapes, category, wh);
        let mut change = [0i64; CELL_WORDS];
        gather_change(&mut change, &rows[first..], category, more);
        let most = keep_change(self.cells, &change).ok_or(Refusal::BookIllFormed)?;
        self.most = most;
        Ok(())
    }
}
