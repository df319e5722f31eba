// Registrations and readings stored in rows in two parts, with the running cells kept up.
ghost use Rattle.std.specs.Prelude.{◌≡◌, ◌+◌, ◌<◌, ◌⊎◌, map};
ghost use Rattle.book.specs.Rows.{capacity, first_row, rows_of};
ghost use Rattle.book.specs.Helpers.{place_in, registration_storing, reading_storing};
ghost use Rattle.running.specs.Lent.{lent_slice, lent_cells};
ghost use Rattle.running.specs.Helpers.{ShapesFormed};
ghost use Rattle.calls.specs.Helpers.{InAnyOrder};
ghost use Rattle.two_parts.specs.Apart.{rows_together, meters_of, StoresApart};
ghost use Rattle.two_parts.specs.ByParts.{GoesByParts};

use crate::apart::store_apart;
use crate::merge::merge_rows;
use crate::{LATER_MAX, Parts};
use book::rows::{find_near, first_rows};
use calls::store::{Entry, RegistrationWord, registration_asked};
use refusals::Refusal;
use running::RunningCells;
use words::{Reading, Registration};

impl Parts<'_> {
    // How many meters have a row in either part.
    #[tactic(auto, using(crate::proofs::AsOne::ends))]
    fn meters(&self) -> usize
        ensures { result ≡ self.now.first + self.now.later }
    {
        self.first + self.later
    }

    // The row to try before a search: the other kind's, if it is the meter's, and else this kind's. Nothing is said of it, since any is right.
    #[tactic(auto, using(crate::proofs::AsOne::ends))]
    fn row_to_try(&self, mpan: u64) -> usize {
        let other = self.near_other;
        if other < self.first && self.rows[3 * other] == mpan {
            other
        } else {
            self.near
        }
    }

    // Where a meter's row stands or is to stand among those of the first part.
    #[tactic(auto, using(crate::proofs::AsOne::ends))]
    fn find_first(&self, mpan: u64) -> Result<usize, usize>
        ensures { result ≡ place_in mpan (rows_of self.now.first self.now.rows.now) }
    {
        find_near(self.rows, self.first, mpan, self.row_to_try(mpan))
    }

    // Stores what is to stand under an MPAN, and gives the number of meters then. Where the second part has its most rows, the parts are merged.
    // Nothing is said of the row to try first the next time, since any is right. That storing goes by parts is asked as in `store_apart`.
    #[tactic(auto, using(crate::proofs::AsOne::ends, crate::proofs::LaterStored::lent))]
    fn store<E: Entry>(
        &mut self,
        mpan: u64,
        entry: E,
        shapes: &[u32; 64],
        cells: &mut RunningCells<'_>,
    ) -> Result<usize, Refusal>
        requires by_parts { GoesByParts mpan (E.storing entry mpan) }
        requires shapes { ShapesFormed shapes.now }
        ensures border { (self.new.first ≡ self.old.first) ⊎ ((self.new.later ≡ 0) × (meters_of self.old < meters_of self.new)) }
        ensures same_slice { lent_slice cells.new ≡ lent_slice cells.old }
        ensures stored { StoresApart (E.storing entry mpan (capacity self.old.rows.now)) shapes.now self.old (lent_cells cells.old) self.new result (lent_cells cells.new) }
    {
        let first = self.first;
        let place = self.find_first(mpan);
        if let Ok(index) = place {
            self.near = index + 1;
        }
        let rows = &mut *self.rows;
        let later = store_apart(first, self.later, place, rows, mpan, entry, shapes, cells)?;
        let meters = first + later;
        // Kept: a call that adds no row ends here. Without this test each reading of a list took six instructions more.
        if later == self.later {
            return Ok(meters);
        }
        if later < LATER_MAX {
            self.later = later;
            return Ok(meters);
        }
        // Kept: the lines of `merge` stand here, since it takes parts whose second has fewer rows than this one has now.
        merge_rows(rows, first, later);
        self.first = meters;
        self.later = 0;
        Ok(meters)
    }

    // Stores or replaces a meter's registration. A registration has a row of its own to try, which stands in `near` meanwhile: were it that of the
    // readings, each reading of a list in order that follows the registration of another meter would search all rows.
    // Kept: this and `record` are a line or two over `store`, as those of rows in order are over theirs, and promise `border` besides.
    pub fn register(
        &mut self,
        mpan: u64,
        registration: Registration,
        shapes: &[u32; 64],
        cells: &mut RunningCells<'_>,
    ) -> Result<usize, Refusal>
        requires { ShapesFormed shapes.now }
        ensures border { (self.new.first ≡ self.old.first) ⊎ ((self.new.later ≡ 0) × (meters_of self.old < meters_of self.new)) }
        ensures same_slice { lent_slice cells.new ≡ lent_slice cells.old }
        ensures stored { StoresApart (registration_storing (capacity self.old.rows.now) mpan registration) shapes.now self.old (lent_cells cells.old) self.new result (lent_cells cells.new) }
    {
        let word = registration_asked(mpan, registration)?;
        let for_a_reading = self.near;
        self.near = self.near_other;
        self.near_other = for_a_reading;
        let stored = self.store(mpan, RegistrationWord { word }, shapes, cells);
        let for_a_registration = self.near;
        self.near = self.near_other;
        self.near_other = for_a_registration;
        stored
    }

    // Stores a meter's reading if its issue is above the one held.
    pub fn record(
        &mut self,
        mpan: u64,
        reading: Reading,
        shapes: &[u32; 64],
        cells: &mut RunningCells<'_>,
    ) -> Result<usize, Refusal>
        requires { ShapesFormed shapes.now }
        ensures border { self.new.first ≡ self.old.first }
        ensures same_slice { lent_slice cells.new ≡ lent_slice cells.old }
        ensures stored { StoresApart (reading_storing mpan reading) shapes.now self.old (lent_cells cells.old) self.new result (lent_cells cells.new) }
    {
        self.store(mpan, reading, shapes, cells)
    }

    // The rows of both parts, which stand one after the other.
    #[tactic(auto, using(crate::proofs::AsOne::ends))]
    pub fn all(&self) -> &[[u64; 3]]
        ensures { InAnyOrder (rows_of (meters_of self.now) (rows_together self.now)) (map first_row result.now) }
    {
        first_rows(self.rows, self.meters())
    }
}
