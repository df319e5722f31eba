// Rows in which a call stores, wherever they stand in the slice that is lent.
ghost use Rattle.std.specs.Prelude.{◌≡◌, map};
ghost use Rattle.book.specs.Rows.{capacity, first_row, rows_of};
ghost use Rattle.book.specs.Helpers.{RowsReady};
ghost use Rattle.running.specs.Lent.{lent_slice, lent_cells};
ghost use Rattle.running.specs.Helpers.{ShapesFormed};
ghost use Rattle.calls.specs.Helpers.{LentRows, StoresIn, Registers, Records, InAnyOrder};
ghost use Rattle.calls.specs.InOrder.{lent_in_order};

use crate::store::{Entry, RegistrationWord, registration_asked};
use book::rows::{find, first_rows};
use refusals::Refusal;
use running::RunningCells;
use words::{Reading, Registration};

// What a call does to rows. A single call stores in rows in order, and a list's calls in rows in two parts.
pub trait Rows {
    // The rows as those of one book.
    ghost lent_rows: { Self → LentRows };

    // Stores or replaces a meter's registration, and gives the number of meters then.
    fn register(
        &mut self,
        mpan: u64,
        registration: Registration,
        shapes: &[u32; 64],
        cells: &mut RunningCells<'_>,
    ) -> Result<usize, Refusal>
        requires ready { RowsReady (lent_rows self.old).meters (lent_rows self.old).words }
        requires shapes { ShapesFormed shapes.now }
        ensures same_slice { lent_slice cells.new ≡ lent_slice cells.old }
        ensures registers { Registers mpan registration shapes.now (lent_rows self.old) (lent_cells cells.old) result (lent_rows self.new) (lent_cells cells.new) };

    // Stores a meter's reading if its issue is above the one held.
    fn record(
        &mut self,
        mpan: u64,
        reading: Reading,
        shapes: &[u32; 64],
        cells: &mut RunningCells<'_>,
    ) -> Result<usize, Refusal>
        requires ready { RowsReady (lent_rows self.old).meters (lent_rows self.old).words }
        requires shapes { ShapesFormed shapes.now }
        ensures same_slice { lent_slice cells.new ≡ lent_slice cells.old }
        ensures records { Records mpan reading shapes.now (lent_rows self.old) (lent_cells cells.old) result (lent_rows self.new) (lent_cells cells.new) };

    // The rows, in whatever order they stand.
    fn all(&self) -> &[[u64; 3]]
        requires { RowsReady (lent_rows self.now).meters (lent_rows self.now).words }
        ensures { InAnyOrder (rows_of (lent_rows self.now).meters (lent_rows self.now).words) (map first_row result.now) };
}

// The rows of a book, in order.
// Kept: no ghost field says that they are ready to be searched, as one of `Parts` does: these are made for one call, and would have to be shown
// to be ready again after it, where no call follows.
#[derive(Drop)]
pub(crate) struct InOrder<'a> {
    pub rows: &'a mut [u64],
    pub meters: usize,
}

impl InOrder<'_> {
    // Stores what is to stand under an MPAN.
    #[tactic(auto, using(crate::proofs::InOrder::in_order))]
    fn store<E: Entry>(
        &mut self,
        mpan: u64,
        entry: E,
        shapes: &[u32; 64],
        cells: &mut RunningCells<'_>,
    ) -> Result<usize, Refusal>
        requires ready { RowsReady self.old.meters self.old.rows.now }
        requires shapes { ShapesFormed shapes.now }
        ensures same_slice { lent_slice cells.new ≡ lent_slice cells.old }
        ensures stores { StoresIn (E.storing entry mpan (capacity self.old.rows.now)) shapes.now (lent_in_order self.old) (lent_cells cells.old) result (lent_in_order self.new) (lent_cells cells.new) }
    {
        let meters = self.meters;
        let rows = &mut *self.rows;
        let place = find(rows, meters, mpan);
        self.meters = entry.store(meters, place, rows, mpan, shapes, cells)?;
        Ok(self.meters)
    }
}

// Kept: both are a line or two over a `store`, as those of `Parts` in two_parts are over its own. A default of the trait for both would need one
// `store` that is promised alike, and the two ask for different things.
impl Rows for InOrder<'_> {
    ghost lent_rows = { λ r. lent_in_order r };

    fn register(
        &mut self,
        mpan: u64,
        registration: Registration,
        shapes: &[u32; 64],
        cells: &mut RunningCells<'_>,
    ) -> Result<usize, Refusal> {
        let word = registration_asked(mpan, registration)?;
        self.store(mpan, RegistrationWord { word }, shapes, cells)
    }

    fn record(
        &mut self,
        mpan: u64,
        reading: Reading,
        shapes: &[u32; 64],
        cells: &mut RunningCells<'_>,
    ) -> Result<usize, Refusal> {
        self.store(mpan, reading, shapes, cells)
    }

    #[tactic(auto, using(crate::proofs::InOrder::in_order))]
    fn all(&self) -> &[[u64; 3]] {
        first_rows(self.rows, self.meters)
    }
}
