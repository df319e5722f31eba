// Registrations and readings stored in rows that were tested before, with the running cells kept up: the limit of these is the last cause of
// a call, and nothing is written to rows or cells before every cause was tested.
// Kept: the words and how many rows are in use are passed side by side, as in `book::rows`.
ghost use Rattle.std.specs.Prelude.{◌≡◌, ◌+◌, ◌*◌, ◌≤◌, ℕ, List, true, length, get_or};
ghost use Rattle.words.specs.Registration.{is_registration};
ghost use Rattle.book.specs.Rows.{Row, capacity, rows_of};
ghost use Rattle.book.specs.Helpers.{place_in, row_held, RowsReady, asked_of, Storing, word_storing, reading_storing};
ghost use Rattle.running.specs.Lent.{lent_slice, lent_cells};
ghost use Rattle.running.specs.Helpers.{ShapesFormed};
ghost use Rattle.calls.specs.Stores.{Stores};

use book::Held;
use book::ranges::{reading_in_range, register_in_range};
use book::rows::{insert_row, row_capacity};
use refusals::Refusal;
use running::RunningCells;
use words::field::Field;
use words::{Reading, Registration};

// Tests the arguments of a register call and packs its word. Storing the word is a function of its own, so that what is built into each of
// its callers is short.
pub fn registration_asked(mpan: u64, registration: Registration) -> Result<u64, Refusal>
    ensures { result ≡ asked_of mpan registration }
{
    if !register_in_range(mpan, registration) {
        return Err(Refusal::ArgumentOutOfRange);
    }
    Ok(registration.pack())
}

// What the row at a place holds. That the row is within the slice is said again afterwards, for what is written there next.
#[inline(always)]
fn held_at(rows: &[u64], index: usize) -> Held
    requires { 3 * (index + 1) ≤ length rows.now }
    ensures within { 3 * (index + 1) ≤ length rows.now }
    ensures held { result ≡ row_held (get_or rows.now (3 * index + 1) 0) (get_or rows.now (3 * index + 2) 0) }
{
    let at = 3 * index;
    Held {
        registration: rows[at + 1],
        reading: rows[at + 2],
    }
}

// What rows take under an MPAN: a registration's word or a reading. The steps around storing it are the same for both.
pub trait Entry {
    // What storing it under an MPAN leaves of rows that have a capacity.
    ghost storing: { Self → ℕ → ℕ → List Row → Storing };

    // Stores it, where a search of the rows gave `place`, and gives the number of meters then.
    fn store(
        self,
        meters: usize,
        place: Result<usize, usize>,
        rows: &mut [u64],
        mpan: u64,
        shapes: &[u32; 64],
        cells: &mut RunningCells<'_>,
    ) -> Result<usize, Refusal>
        requires ready { RowsReady meters rows.old }
        requires placed { place ≡ place_in mpan (rows_of meters rows.old) }
        requires shapes { ShapesFormed shapes.now }
        ensures same_slice { lent_slice cells.new ≡ lent_slice cells.old }
        ensures stores { Stores (storing self mpan (capacity rows.old)) shapes.now meters rows.old (lent_cells cells.old) result rows.new (lent_cells cells.new) };
}

// The word of a registration that was tested, as `registration_asked` gives it.
#[derive(Clone, Copy)]
pub struct RegistrationWord {
    pub word: u64,
    pub ghost formed: { is_registration word ≡ true },
}

impl Entry for RegistrationWord {
    ghost storing = { λ entry mpan capacity. word_storing capacity mpan entry.word };

    // Stores or replaces a meter's registration word. It neither packs nor searches.
    // Kept: `inline(always)`, here and on the `store` of a reading: a list of 8,192 meters in order took 470 µs without them, and 365 µs so.
    #[inline(always)]
    #[tactic(auto, using(crate::proofs::Storing::registered))]
    fn store(
        self,
        meters: usize,
        place: Result<usize, usize>,
        rows: &mut [u64],
        mpan: u64,
        shapes: &[u32; 64],
        cells: &mut RunningCells<'_>,
    ) -> Result<usize, Refusal> {
        let word = self.word;
        match place {
            Ok(index) => {
                let held = held_at(rows, index);
                let after = Held {
                    registration: word,
                    reading: held.reading,
                };
                cells.keep_meter(shapes, Some(held), after)?;
                rows[3 * index + 1] = word;
                Ok(meters)
            }
            Err(index) => {
                if row_capacity(rows) <= meters {
                    return Err(Refusal::CapacityReached);
                }
                let after = Held {
                    registration: word,
                    reading: words::NO_READING,
                };
                cells.keep_meter(shapes, None, after)?;
                insert_row(&mut rows[3 * index..], meters - index, mpan, word);
                Ok(meters + 1)
            }
        }
    }
}

impl Entry for Reading {
    ghost storing = { λ entry mpan capacity. reading_storing mpan entry };

    // Stores a meter's reading if its issue is above the one held.
    #[inline(always)]
    #[tactic(auto, using(crate::proofs::Storing::read))]
    fn store(
        self,
        meters: usize,
        place: Result<usize, usize>,
        rows: &mut [u64],
        mpan: u64,
        shapes: &[u32; 64],
        cells: &mut RunningCells<'_>,
    ) -> Result<usize, Refusal> {
        if !reading_in_range(mpan, self) {
            return Err(Refusal::ArgumentOutOfRange);
        }
        if !self.allowed() {
            return Err(Refusal::QualityRefused);
        }
        let Ok(index) = place else {
            return Err(Refusal::MeterUnknown);
        };
        let before = held_at(rows, index);
        if self.issue <= Field::ISSUE.of(before.reading) {
            return Err(Refusal::IssueNotAbove);
        }
        let after = Held {
            registration: before.registration,
            reading: self.pack(),
        };
        cells.keep_meter(shapes, Some(before), after)?;
        rows[3 * index + 2] = after.reading;
        Ok(meters)
    }
}
