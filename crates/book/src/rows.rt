// Where rows stand: capacity, the search for an MPAN, and the insertion of a row.
// Kept: the words and how many rows of them are in use are passed side by side, since a C program lends one slice, with words past the rows
// in use that keep what they hold, and the number of meters stands in the settings that it passes. What only reads them takes rows of three
// words (`first_rows`). A search takes the words too: what stores next writes them at its place, and asks for the place in these words.
ghost use Rattle.std.specs.Prelude.{◌≡◌, cond, ◌∷◌, ◌+◌, ◌*◌, ◌^◌, ◌≤◌, ◌<◌, min, ltb, length, map};
ghost use Rattle.std.specs.Simd.{first_chunks};
ghost use Rattle.book.specs.Rows.{capacity, first_row, new_row, rows_of, written};
ghost use Rattle.book.specs.Helpers.{place_of, place_in, Searchable};

use crate::Settings;

// Above every MPAN.
const TOP: u64 = 9_223_372_036_854_775_808;

// How many rows a slice has room for.
#[tactic(auto, unfolding(crate::specs::Rows::capacity))]
pub fn row_capacity(rows: &[u64]) -> usize
    ensures { result ≡ capacity rows.now }
{
    (rows.len() / 3).min(Settings::METERS_MAX)
}

// The first n rows, three words each.
#[tactic(auto, using(crate::proofs::Chunks::taken))]
pub fn first_rows(rows: &[u64], n: usize) -> &[[u64; 3]]
    requires { 3 * n ≤ length rows.now }
    ensures chunks { result.now ≡ first_chunks 3 n rows.now }
    ensures rows { map first_row result.now ≡ rows_of n rows.now }
{
    let (all, _) = rows.as_chunks::<3>();
    &all[..n]
}

// `step` if a is below b, else 0, by the top bit of a difference. A comparison would become a branch,
// which a search takes either way equally often, so that the processor guesses every other one wrong.
fn step_if_below(a: u64, b: u64, step: usize) -> usize
    requires below_top { a < 2 ^ 63 }
    requires up_to_top { b ≤ 2 ^ 63 }
    ensures { result ≡ cond (ltb a b) step 0 }
{
    // Kept: `as`, since there is no `From` of a u64 for a usize.
    let at_least = ((a + (TOP - b)) >> 63) as usize;
    step - step * at_least
}

// A number that compares with every MPAN as m does, and is small enough for `step_if_below`.
fn search_key(m: u64) -> u64
    ensures { result ≡ min m (2 ^ 63) }
{
    m.min(TOP)
}

// How many of the first n rows, which rise, have an MPAN below m: where m's row stands or is to stand.
// That number is at least `low` and at most `low + left`. Each turn halves `left`, whichever way the row
// in the middle compares, so the number of turns depends on n alone. A list of calls is often in order of MPAN, so the end is
// tried first.
// Kept: `partition_point` compiles to a branch: a search of 1,024 rows took 81 ns with it and 33 ns so, of 8,192 rows 101 and 41.
fn lower_bound(rows: &[u64], n: usize, m: u64) -> usize
    requires { Searchable n rows.now }
    ensures { result ≡ place_of m (rows_of n rows.now) }
{
    if n == 0 {
        return 0;
    }
    if rows[3 * (n - 1)] < m {
        return n;
    }
    let key = search_key(m);
    let mut low = 0;
    let mut left = n;
    while 1 < left {
        let half = left / 2;
        let row = rows[3 * (low + half)];
        low += step_if_below(row, key, half);
        left -= half;
    }
    let row = rows[3 * low];
    low + step_if_below(row, key, 1)
}

// Where m's row stands among the first n rows, or in an `Err` where it is to stand.
#[tactic(auto, using(crate::proofs::PlaceOf::found))]
pub fn find(rows: &[u64], n: usize, m: u64) -> Result<usize, usize>
    requires { Searchable n rows.now }
    ensures { result ≡ place_in m (rows_of n rows.now) }
{
    let index = lower_bound(rows, n, m);
    if n <= index {
        return Err(index);
    }
    if rows[3 * index] == m {
        Ok(index)
    } else {
        Err(index)
    }
}

// The same, with row `near` tried before the search. Any `near` gives the same answer; where it is m's row, one comparison does.
#[tactic(auto, using(crate::proofs::PlaceOf::near))]
pub fn find_near(rows: &[u64], n: usize, m: u64, near: usize) -> Result<usize, usize>
    requires { Searchable n rows.now }
    ensures { result ≡ place_in m (rows_of n rows.now) }
{
    if near < n {
        if rows[3 * near] == m {
            return Ok(near);
        }
    }
    find(rows, n, m)
}

// Writes a new row at the front of `part`, the rows from its place on: the `later` rows there move up, and it has no reading.
#[tactic(auto, using(crate::proofs::Inserted::inserted))]
pub fn insert_row(part: &mut [u64], later: usize, m: u64, registration: u64)
    requires { 3 * (later + 1) ≤ length part.old }
    ensures { part.new ≡ written (new_row m registration ∷ rows_of later part.old) part.old }
{
    part.copy_within(..3 * later, 3);
    part[0] = m;
    part[1] = registration;
    part[2] = words::NO_READING;
}
