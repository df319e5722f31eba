// The limits of the slice of running cells, and the test that a slice passes none of them.
ghost use Rattle.std.specs.Prelude.{◌≡◌, ◌≤◌, length, drop};
ghost use Rattle.running.specs.Words.{cell_words, slice_words};
ghost use Rattle.running.specs.Running.{is_number, number_words, all_numbers};
ghost use Rattle.running.specs.Helpers.{cells_measured, measured};

use crate::{CELL_SIZES_MAX, CELL_WORDS, COUNT_MAX, SLICE_WORDS};

// A size of so much is above the limit, and 768 that are less add up within a u64.
const LARGE: u64 = 2_251_799_813_685_248;

// Whether a count or a waiting number is in its range.
pub fn is_number(x: i64) -> bool
    ensures { result ≡ is_number x }
{
    (0..=COUNT_MAX).contains(&x)
}

// The sizes of the 768 cells, added up, if they are within their limit. A cell may be any i64, and 768 such sizes can pass a u64. Their sum
// has not wrapped where each is below LARGE, and where one is not, that one alone is above the limit. The loop has no way out before its
// end, so that the compiler adds several sizes at once.
fn measure_cells(cells: &[i64]) -> Option<u64>
    requires { slice_words ≤ length cells.now }
    ensures { result ≡ cells_measured cells.now }
{
    let mut bits = 0;
    let mut total = 0u64;
    for cell in &cells[..CELL_WORDS] {
        let size = cell.unsigned_abs();
        bits |= size;
        total = total.wrapping_add(size);
    }
    if (bits < LARGE) & (total <= CELL_SIZES_MAX) {
        Some(total)
    } else {
        None
    }
}

// Whether each of the 68 numbers after the cells is in its range. As a u64 a negative number is 2^63 or more, and COUNT_MAX is the lower 32
// bits, all of them set: so each is in its range where no higher bit is set in any.
#[tactic(auto, unfolding(crate::specs::Running::all_numbers))]
fn numbers_fit(cells: &[i64]) -> bool
    requires { slice_words ≤ length cells.now }
    ensures { result ≡ all_numbers number_words (drop cell_words cells.now) }
{
    let mut bits = 0;
    for number in &cells[CELL_WORDS..SLICE_WORDS] {
        bits |= number.cast_unsigned();
    }
    bits <= COUNT_MAX.cast_unsigned()
}

// The sizes of the cells of a slice, added up, if it passes no limit.
#[tactic(auto, unfolding(crate::specs::Running::within_limits))]
pub fn measure(cells: &[i64]) -> Option<u64>
    requires { slice_words ≤ length cells.now }
    ensures { result ≡ measured cells.now }
{
    if !numbers_fit(cells) {
        return None;
    }
    measure_cells(cells)
}
