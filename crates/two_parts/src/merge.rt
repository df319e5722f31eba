// The two parts merged in place, from the back: no row of the first part is overwritten before it has moved.
// Kept: while rows move, the slice is not two parts, so that its lengths are passed beside it and not in a `Parts`. A struct of the rows and
// the two places that move, `left` and `at`, would be no plainer: one loop has them, and each step of it would write its new place back.
// Kept: the copy of the second part is words, as the rows are. With a copy of rows of three words a list of 65,536 meters shuffled took
// 33.4 ms, and 27.1 ms so.
ghost use Rattle.std.specs.Prelude.{◌≡◌, ◌+◌, ◌*◌, ◌-◌, ◌≤◌, ◌<◌, length};
ghost use Rattle.book.specs.Rows.{first_row, rows_of};
ghost use Rattle.two_parts.specs.TwoParts.{later_rows, as_one, later_most, PartsReady, HasRoom};
ghost use Rattle.two_parts.specs.Merge.{row_of, row_put, last_is_first, LastPlaced};

use crate::{LATER_MAX, Parts};

// The three words of row i.
#[tactic(auto, using(crate::proofs::Merging::last))]
fn row_at(words: &[u64], i: usize) -> [u64; 3]
    requires { 3 * (i + 1) ≤ length words.now }
    ensures { first_row result ≡ row_of i words.now }
{
    [words[3 * i], words[3 * i + 1], words[3 * i + 2]]
}

// Writes the three words of row i.
#[tactic(auto, using(crate::proofs::RowPut::put))]
fn put_row(rows: &mut [u64], i: usize, row: [u64; 3])
    requires { 3 * (i + 1) ≤ length rows.old }
    ensures { rows.new ≡ row_put i (first_row row) rows.old }
{
    rows[3 * i..3 * i + 3].copy_from_slice(&row);
}

// Whether the last row of all that are left is the first part's. No MPAN stands in both parts, so none are equal.
#[tactic(auto, using(crate::proofs::Merging::last), unfolding(crate::specs::Merge::last_is_first))]
fn last_is_first(rows: &[u64], held: &[u64], left: usize, at: usize) -> bool
    requires left_first { left ≤ at }
    requires left_within { 3 * left ≤ length rows.now }
    requires held_within { 3 * (at - left + 1) ≤ length held.now }
    ensures { result ≡ last_is_first left at held.now rows.now }
{
    if left == 0 {
        return false;
    }
    held[3 * (at - left)] < rows[3 * (left - 1)]
}

// Writes the last row of all that are left at row `at`, the last place that is free. Returns how many of the first part are left then.
#[tactic(auto, using(crate::proofs::Merging::some_left))]
fn place_last(rows: &mut [u64], held: &[u64], left: usize, at: usize) -> usize
    requires left_first { left ≤ at }
    requires place_within { 3 * (at + 1) ≤ length rows.old }
    requires held_within { 3 * (at - left + 1) ≤ length held.now }
    ensures { LastPlaced left at held.now rows.old result rows.new }
{
    if last_is_first(rows, held, left, at) {
        let moved = row_at(rows, left - 1);
        put_row(rows, at, moved);
        return left - 1;
    }
    put_row(rows, at, row_at(held, at - left));
    left
}

// Merges the rows that are held, a copy of the second part, into the first. Each turn puts one row in its place;
// when none held is left, the rows left of the first part stand where they stood.
// Kept: two places walk down until they meet. A `for` over the rows held, each with a search and a block moved, took 194 µs for 145 at 65,000 rows.
#[tactic(auto, using(crate::proofs::AsOne::ends, crate::proofs::Merging::merging))]
fn merge_held(rows: &mut [u64], first: usize, held: &[u64], later: usize)
    requires ready { PartsReady first later rows.old }
    requires held_within { 3 * later ≤ length held.now }
    requires copied { rows_of later held.now ≡ later_rows first later rows.old }
    ensures { rows.new ≡ as_one first later rows.old }
{
    let mut left = first;
    let mut at = first + later;
    while left < at {
        at -= 1;
        left = place_last(rows, held, left, at);
    }
}

// Merges the two parts. It is called once for many new rows, and stays out of the way of the calls between.
#[cold]
#[inline(never)]
#[tactic(auto, using(crate::proofs::AsOne::ends, crate::proofs::LentPart::copied))]
pub(crate) fn merge_rows(rows: &mut [u64], first: usize, later: usize)
    requires ready { PartsReady first later rows.old }
    requires short { later ≤ later_most }
    ensures { rows.new ≡ as_one first later rows.old }
{
    let mut words = [0; 3 * LATER_MAX];
    let held = &mut words[..3 * later];
    held.copy_from_slice(&rows[3 * first..3 * (first + later)]);
    merge_held(rows, first, held, later);
}

// Merges the two parts of rows that are lent: they rise as one part then. Where the second part has none, they do already.
#[tactic(auto, using(crate::proofs::AsOne::ends, crate::proofs::AsOne::merging))]
pub fn merge_parts(rows: &mut [u64], first: usize, later: usize)
    requires ready { PartsReady first later rows.old }
    requires short { later ≤ later_most }
    ensures { rows.new ≡ as_one first later rows.old }
{
    if later == 0 {
        return;
    }
    merge_rows(rows, first, later);
}

// Merges the parts, of `meters` rows in all, where the second has no room for one more. Returns the rows of the first part then.
#[tactic(auto, using(crate::proofs::AsOne::merging))]
pub fn with_room(rows: &mut [u64], first: usize, meters: usize) -> usize
    requires within { first ≤ meters }
    requires short { meters - first ≤ later_most }
    requires ready { PartsReady first (meters - first) rows.old }
    ensures { HasRoom first meters rows.old result rows.new }
{
    if meters - first < LATER_MAX {
        return first;
    }
    merge_parts(rows, first, meters - first);
    meters
}

impl Parts<'_> {
    // Merges the two parts: all rows are the first's then, and rise as one part. Where the second part has none, they do already.
    #[tactic(auto, using(crate::proofs::AsOne::ends, crate::proofs::AsOne::merging))]
    pub fn merge(&mut self)
        ensures same_slice { self.new.rows.ghost_name ≡ self.old.rows.ghost_name }
        ensures rows { self.new.rows.now ≡ as_one self.old.first self.old.later self.old.rows.now }
        ensures first { self.new.first ≡ self.old.first + self.old.later }
        ensures later { self.new.later ≡ 0 }
    {
        merge_parts(self.rows, self.first, self.later);
        self.first += self.later;
        self.later = 0;
    }
}
