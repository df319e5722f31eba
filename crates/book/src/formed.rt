// The test that a book is well formed.
ghost use Rattle.std.specs.Prelude.{◌≡◌, ◌&&◌, ltb, map};
ghost use Rattle.words.specs.Registration.{is_registration};
ghost use Rattle.words.specs.Reading.{is_reading};
ghost use Rattle.std.specs.List.{list_all};
ghost use Rattle.book.specs.Settings.{take_formed, settings_formed};
ghost use Rattle.book.specs.Rows.{first_row, rows_formed};
ghost use Rattle.book.specs.Book.{well_formed, lent};
ghost use Rattle.book.specs.Helpers.{within};

use crate::Settings;
use crate::ranges::is_take;
use crate::rows::{first_rows, row_capacity};

// Whether a flag and the Take beside it are well formed.
// Kept: the flag is a number, since any number that a C program passes for it has to be seen and tested.
#[tactic(auto, using(crate::proofs::TakeBits::takes), unfolding(crate::specs::Settings::take_formed))]
fn take_formed(flag: u32, wh: i64) -> bool
    ensures { result ≡ take_formed flag wh }
{
    ((flag == Settings::TAKE_FLAG_UNSET) & (wh == 0))
        | ((flag == Settings::TAKE_FLAG_SET) & is_take(wh))
}

// Whether every number of a list is at most `most` or is `other`. The outcomes are joined, with no way out of the loop before its
// end, so that the compiler tests several numbers at once. Nearly every list passes anyway.
#[tactic(auto, using(crate::proofs::AllOf::entries))]
fn all_within(xs: &[u32], most: u64, other: u64) -> bool
    ensures { result ≡ list_all (within most other) xs.now }
{
    let mut all = true;
    for x in xs {
        let x = u64::from(*x);
        all &= (x <= most) | (x == other);
    }
    all
}

// Whether each setting is one that accepted calls could have written.
#[tactic(auto, using(crate::proofs::AllOf::weights), unfolding(crate::specs::Settings::settings_formed))]
fn settings_formed(s: Settings) -> bool
    ensures { result ≡ settings_formed s }
{
    all_within(&s.weights, Settings::WEIGHT_MAX, 0)
        & all_within(&s.shapes, Settings::SHAPE_MAX, Settings::SHAPE_MISSING)
        & (u64::from(s.tolerance) <= Settings::TOLERANCE_MAX)
        & take_formed(s.take_set, s.take_wh)
}

// Whether a row stands above the one before it and its words 1 and 2 are well formed. Nearly every row passes, and a branch that
// goes the same way each time costs less than joining the outcomes of all tests.
fn row_rises(before: u64, mpan: u64, registration: u64, reading: u64) -> bool
    ensures { result ≡ (ltb before mpan && is_registration registration && is_reading reading) }
{
    if mpan <= before {
        return false;
    }
    if !words::is_registration(registration) {
        return false;
    }
    words::is_reading(reading)
}

// Whether the rows are well formed and rise strictly. Rows that rise from below the least MPAN up to one that is in range
// are all in range.
#[tactic(auto, using(crate::proofs::RowsFormed::turns))]
fn rows_formed(rows: &[[u64; 3]]) -> bool
    ensures { result ≡ rows_formed 0 (map first_row rows.now) }
{
    let mut before = words::MPAN_MIN - 1;
    for [mpan, registration, reading] in rows {
        if !row_rises(before, *mpan, *registration, *reading) {
            return false;
        }
        before = *mpan;
    }
    before <= words::MPAN_MAX
}

// Whether the book that a call is lent is well formed.
// Kept: settings and rows are passed side by side, here and by every call, as the C interface lends them: the settings by value, and the rows to
// be read by some calls and written by others, so that a struct of a tested book would be two, made in each call and taken apart in it.
#[tactic(auto, using(crate::proofs::WellFormed::tested))]
pub fn is_formed(settings: Settings, rows: &[u64]) -> bool
    ensures { result ≡ well_formed (lent settings rows.now) }
{
    let meters = settings.meters;
    if row_capacity(rows) < meters {
        return false;
    }
    if !settings_formed(settings) {
        return false;
    }
    rows_formed(first_rows(rows, meters))
}
