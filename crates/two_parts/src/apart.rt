// Registrations and readings stored in rows that a caller lends in two rising parts: `first` rows and then `later` rows. They are stored in
// one part or the other, and the parts are never merged here.
// Kept: the words and the lengths of both parts are passed side by side, as in `book::rows`. The second part may be of any length that the
// slice has room for, and that of a `Parts` is short.
ghost use Rattle.std.specs.Prelude.{◌≡◌, ◌+◌, ◌≤◌};
ghost use Rattle.book.specs.Rows.{capacity, rows_of};
ghost use Rattle.book.specs.Helpers.{place_in, registration_storing, reading_storing};
ghost use Rattle.running.specs.Lent.{lent_slice, lent_cells};
ghost use Rattle.running.specs.Helpers.{ShapesFormed};
ghost use Rattle.calls.specs.Helpers.{meters_after};
ghost use Rattle.two_parts.specs.TwoParts.{later_rows, PartsReady};
ghost use Rattle.two_parts.specs.Apart.{LeavesApart};
ghost use Rattle.two_parts.specs.ByParts.{GoesByParts};

use book::rows::{find, find_near, row_capacity};
use calls::store::{Entry, RegistrationWord, registration_asked};
use refusals::Refusal;
use running::RunningCells;
use words::{Reading, Registration};

// What storing a reading gives: how many rows the second part has, or a refusal, and the row of the first part to try first for the next
// reading. Lists are often in order of MPAN, so that is the row after the one found last. It spares a search and changes no answer: any
// row is right.
#[derive(Clone, Copy)]
pub struct Recorded {
    pub outcome: Result<usize, Refusal>,
    pub near: usize,
}

// Where a meter's row stands or is to stand among those of the second part.
#[tactic(auto, using(crate::proofs::AsOne::ends, crate::proofs::LentPart::rest), unfolding(crate::specs::TwoParts::later_rows))]
fn find_later(first: usize, later: usize, rows: &[u64], mpan: u64) -> Result<usize, usize>
    requires { PartsReady first later rows.now }
    ensures { result ≡ place_in mpan (later_rows first later rows.now) }
{
    let start = 3 * first;
    find(&rows[start..], later, mpan)
}

// Stores what is to stand under an MPAN, where a search of the first part gave `place`, and gives how many rows the second part has then. A
// meter of the first part keeps its place, and any other is the second part's. That part is lent up to the book's capacity, so it is full
// exactly when the book is. That storing goes by parts is asked here and is no law of `Entry`: of a word it holds only under an MPAN that was
// tested with it.
#[tactic(auto, using(crate::proofs::AsOne::ends, crate::proofs::LaterStored::lent))]
pub fn store_apart<E: Entry>(
    first: usize,
    later: usize,
    place: Result<usize, usize>,
    rows: &mut [u64],
    mpan: u64,
    entry: E,
    shapes: &[u32; 64],
    cells: &mut RunningCells<'_>,
) -> Result<usize, Refusal>
    requires parts { PartsReady first later rows.old }
    requires placed { place ≡ place_in mpan (rows_of first rows.old) }
    requires by_parts { GoesByParts mpan (E.storing entry mpan) }
    requires shapes { ShapesFormed shapes.now }
    ensures same_slice { lent_slice cells.new ≡ lent_slice cells.old }
    ensures most { meters_after later result ≤ later + 1 }
    ensures stored { LeavesApart (E.storing entry mpan (capacity rows.old)) shapes.now first later rows.old (lent_cells cells.old) (meters_after later result) result rows.new (lent_cells cells.new) }
{
    if place.is_ok() {
        entry.store(first, place, rows, mpan, shapes, cells)?;
        return Ok(later);
    }
    let place = find_later(first, later, rows, mpan);
    let start = 3 * first;
    let end = 3 * row_capacity(rows);
    entry.store(later, place, &mut rows[start..end], mpan, shapes, cells)
}

// Stores or replaces a meter's registration, and gives how many rows the second part has then.
#[tactic(auto, using(crate::proofs::AsOne::ends))]
pub fn register_apart(
    first: usize,
    later: usize,
    rows: &mut [u64],
    mpan: u64,
    registration: Registration,
    shapes: &[u32; 64],
    cells: &mut RunningCells<'_>,
) -> Result<usize, Refusal>
    requires parts { PartsReady first later rows.old }
    requires shapes { ShapesFormed shapes.now }
    ensures same_slice { lent_slice cells.new ≡ lent_slice cells.old }
    ensures most { meters_after later result ≤ later + 1 }
    ensures stored { LeavesApart (registration_storing (capacity rows.old) mpan registration) shapes.now first later rows.old (lent_cells cells.old) (meters_after later result) result rows.new (lent_cells cells.new) }
{
    let word = registration_asked(mpan, registration)?;
    let place = find(rows, first, mpan);
    let entry = RegistrationWord { word };
    store_apart(first, later, place, rows, mpan, entry, shapes, cells)
}

// Stores a meter's reading if its issue is above the one held. Row `near` of the first part is tried before the search. Nothing is said of
// the row to try next, since any is right.
#[tactic(auto, using(crate::proofs::AsOne::ends))]
pub fn reading_apart(
    first: usize,
    later: usize,
    near: usize,
    rows: &mut [u64],
    mpan: u64,
    reading: Reading,
    shapes: &[u32; 64],
    cells: &mut RunningCells<'_>,
) -> Recorded
    requires parts { PartsReady first later rows.old }
    requires shapes { ShapesFormed shapes.now }
    ensures same_slice { lent_slice cells.new ≡ lent_slice cells.old }
    ensures as_many { meters_after later result.outcome ≡ later }
    ensures stored { LeavesApart (reading_storing mpan reading) shapes.now first later rows.old (lent_cells cells.old) (meters_after later result.outcome) result.outcome rows.new (lent_cells cells.new) }
{
    let place = find_near(rows, first, mpan, near);
    let outcome = store_apart(first, later, place, rows, mpan, reading, shapes, cells);
    let near = match place {
        Ok(index) => index + 1,
        Err(_) => near,
    };
    Recorded { outcome, near }
}
