// The change of one meter, from what it held to what it holds, added to the slice of running cells.
ghost use Rattle.std.specs.Prelude.{◌≡◌, ◌+◌, ◌<◌, ◌≤◌, pos, nat_abs, Some, take};
ghost use Rattle.integers.specs.Sum.{sizes};
ghost use Rattle.running.specs.Words.{cell_words, slice_words};
ghost use Rattle.running.specs.Running.{sizes_most, with_change};
ghost use Rattle.running.specs.Ready.{CellsReady};
ghost use Rattle.running.specs.Lent.{lent_slice, lent_cells};
ghost use Rattle.running.specs.Helpers.{entry_of, opposite_of, amount_at, entry_gives, entry_change, amount_most, EntryFormed, HeldFormed, BeforeFormed, ShapesFormed, cells_measured, Near, pair_size, PairArguments, numbers_fit_after, Exchanges, KeepsUp, meter_change};

use crate::limits::{is_number, measure};
use crate::{CELL_SIZES_MAX, CELL_WORDS, RunningCells, WAITING_WORDS};
use book::Held;
use cells::Source;
use cells::meters::{class, use_of};
use refusals::Refusal;
use words::field::Field;

// No exchange of a meter's words changes the sizes of the cells, added up, by more: two amounts are taken away and two are added.
const STEP: u64 = 40_000_000_000;

// Where a meter stands in the slice, and what it adds there: to two cells of its unit, to one of the counts, and to the number that
// waits in its category.
#[derive(Clone, Copy)]
pub(crate) struct Entry {
    at: usize,
    thousandths: i64,
    loss: i64,
    count: usize,
    meters: i64,
    category: usize,
    waiting: i64,
}

// The entry of a meter that holds these words. One that has no row stands with nothing.
// Kept: `inline(always)`, here and on `keep_exchange` and `keep_meter`, as hints to the compiler that change no proof. At a new meter
// `before` is None, and at a reading both registrations are the same word: where these are built in, half of the work is not done. With
// them, and with those on the two `store` of calls, a list of 8,192 meters in order took 375 µs, and 550 µs without.
#[inline(always)]
fn entry_of(shapes: &[u32; 64], held: Option<Held>) -> Entry
    requires shapes { ShapesFormed shapes.now }
    requires formed { BeforeFormed held }
    ensures is { result ≡ entry_of shapes.now held }
    ensures formed { EntryFormed result }
{
    let Some(held) = held else {
        return Entry {
            at: 0,
            thousandths: 0,
            loss: 0,
            count: CELL_WORDS,
            meters: 0,
            category: WAITING_WORDS,
            waiting: 0,
        };
    };
    let meter = use_of(shapes, held.registration, held.reading);
    let unit = words::unit(held.registration) as usize;
    let class = class(held.registration, meter.source) as usize;
    let wh = meter.wh.unwrap_or(0) as i64;
    Entry {
        at: 24 * unit + class,
        thousandths: 1000 * wh,
        loss: (Field::LLF.of(held.registration) as i64 - 1000) * wh,
        count: CELL_WORDS + usize::from(meter.source),
        meters: 1,
        category: WAITING_WORDS + Field::CATEGORY.of(held.registration) as usize,
        waiting: i64::from(meter.source == Source::Defaulted),
    }
}

impl Entry {
    // The entry with each amount of the other sign: adding it takes the entry away.
    fn opposite(self) -> Entry
        requires { EntryFormed self }
        ensures is { result ≡ opposite_of self }
        ensures formed { EntryFormed result }
    {
        Entry {
            at: self.at,
            thousandths: -self.thousandths,
            loss: -self.loss,
            count: self.count,
            meters: -self.meters,
            category: self.category,
            waiting: -self.waiting,
        }
    }

    // Adds the entry.
    fn add_to(self, cells: &mut [i64])
        requires formed { EntryFormed self }
        requires near { Near 4 cells.old }
        ensures { cells.new ≡ with_change (entry_gives self) cells.old }
    {
        add_word(cells, self.at, self.thousandths);
        add_word(cells, self.at + 1, self.loss);
        add_word(cells, self.count, self.meters);
        add_word(cells, self.category, self.waiting);
    }
}

// Adds an amount to one word of the slice.
fn add_word(cells: &mut [i64], at: usize, amount: i64)
    requires place { at < slice_words }
    requires amount { nat_abs amount ≤ amount_most }
    requires near { Near 7 cells.old }
    ensures { cells.new ≡ with_change (amount_at at amount) cells.old }
{
    cells[at] += amount;
}

// Takes one entry away and adds another.
fn exchange(cells: &mut [i64], old: Entry, new: Entry)
    requires old { EntryFormed old }
    requires new { EntryFormed new }
    requires near { Near 0 cells.old }
    ensures { cells.new ≡ with_change (entry_change old new) cells.old }
{
    old.opposite().add_to(cells);
    new.add_to(cells);
}

// What an amount that stands at one word adds to word k.
#[tactic(auto, unfolding(crate::specs::Helpers::amount_at))]
fn amount_at(word: usize, amount: i64, k: usize) -> i64
    ensures { result ≡ amount_at word amount k }
{
    if word == k { amount } else { 0 }
}

// Whether two numbers, which may be the same one, are in their range after an amount is taken from one and another is added to the
// other.
fn numbers_fit_after(cells: &[i64], from: usize, less: i64, to: usize, more: i64) -> bool
    requires from { from < slice_words }
    requires less { nat_abs less ≤ amount_most }
    requires to { to < slice_words }
    requires more { nat_abs more ≤ amount_most }
    requires near { Near 0 cells.now }
    ensures { result ≡ numbers_fit_after cells.now from less to more }
{
    let at_from = amount_at(to, more, from) - less;
    let at_to = more - amount_at(from, less, to);
    is_number(cells[from] + at_from) & is_number(cells[to] + at_to)
}

// The sizes of the cells, added up, after an amount is added to each of two that stand side by side, from the sizes before.
fn size_with(cells: &[i64], at: usize, first: i64, second: i64, size: u64) -> u64
    requires { PairArguments cells.now at first second size }
    ensures { result + pair_size cells.now at (pos 0) (pos 0) ≡ size + pair_size cells.now at first second }
{
    let x = cells[at];
    let y = cells[at + 1];
    let after = (x + first).unsigned_abs() + (y + second).unsigned_abs();
    size + after - (x.unsigned_abs() + y.unsigned_abs())
}

// The sizes of the cells, added up, as they would be after an exchange. The first of an entry's two cells has an even number, so two
// entries change the same two cells or four: each cell is counted once.
fn size_after(cells: &[i64], old: Entry, new: Entry, size: u64) -> u64
    requires old { EntryFormed old }
    requires new { EntryFormed new }
    requires near { Near 0 cells.now }
    requires size { size ≡ sizes (take cell_words cells.now) }
    requires within { size ≤ sizes_most }
    ensures { result ≡ sizes (take cell_words (with_change (entry_change old new) cells.now)) }
{
    if old.at == new.at {
        let energy = new.thousandths - old.thousandths;
        return size_with(cells, old.at, energy, new.loss - old.loss, size);
    }
    let taken = old.opposite();
    let without = size_with(cells, old.at, taken.thousandths, taken.loss, size);
    size_with(cells, new.at, new.thousandths, new.loss, without)
}

// The same where they stay within their limit: they are added up anew, which is only done where they may pass it. The entries are worked
// out here again: handed over, they would be written to memory for every call of a list.
#[cold]
#[inline(never)]
fn measure_after(
    cells: &[i64],
    shapes: &[u32; 64],
    before: Option<Held>,
    after: Held,
) -> Option<u64>
    requires shapes { ShapesFormed shapes.now }
    requires before { BeforeFormed before }
    requires after { HeldFormed after }
    requires ready { CellsReady cells.now sizes_most }
    ensures { result ≡ cells_measured (with_change (entry_change (entry_of shapes.now before) (entry_of shapes.now (Some after))) cells.now) }
{
    let old = entry_of(shapes, before);
    let new = entry_of(shapes, Some(after));
    let size = size_after(cells, old, new, measure(cells)?);
    if size <= CELL_SIZES_MAX {
        Some(size)
    } else {
        None
    }
}

// One entry exchanged for another, unless a limit would be passed then: nothing is written before that is known. Gives a number that the
// sizes of the cells, added up, do not exceed afterwards, where they were at most `most`.
#[inline(always)]
fn keep_exchange(
    cells: &mut [i64],
    shapes: &[u32; 64],
    before: Option<Held>,
    after: Held,
    most: u64,
) -> Option<u64>
    requires shapes { ShapesFormed shapes.now }
    requires before { BeforeFormed before }
    requires after { HeldFormed after }
    requires ready { CellsReady cells.old most }
    ensures { Exchanges (entry_change (entry_of shapes.now before) (entry_of shapes.now (Some after))) cells.old result cells.new }
{
    let old = entry_of(shapes, before);
    let new = entry_of(shapes, Some(after));
    let counts = numbers_fit_after(cells, old.count, old.meters, new.count, new.meters);
    let waiting = numbers_fit_after(cells, old.category, old.waiting, new.category, new.waiting);
    if !(counts & waiting) {
        return None;
    }
    let most = if most <= CELL_SIZES_MAX - STEP {
        most + STEP
    } else {
        // Kept: a copy, since an Option of this size is handed over by where it stands in memory. Without the copy, `before` is written there
        // for every call of a list. Of 8,192 meters in order, a list with statuses and qualities drawn evenly took 510 µs then and 465 µs so,
        // and one with nearly all meters energised 365 µs then and 375 µs so.
        let held = before;
        measure_after(cells, shapes, held, after)?
    };
    exchange(cells, old, new);
    Some(most)
}

impl RunningCells<'_> {
    // Adds the change of one meter, from what it held to what it holds, or nothing if a limit would be passed then.
    #[inline(always)]
    pub fn keep_meter(
        &mut self,
        shapes: &[u32; 64],
        before: Option<Held>,
        after: Held,
    ) -> Result<(), Refusal>
        requires shapes { ShapesFormed shapes.now }
        requires before { BeforeFormed before }
        requires after { HeldFormed after }
        ensures same_slice { lent_slice self.new ≡ lent_slice self.old }
        ensures kept { KeepsUp (meter_change shapes.now before (Some after)) (lent_cells self.old) result (lent_cells self.new) }
    {
        let kept = keep_exchange(self.cells, shapes, before, after, self.most);
        self.most = kept.ok_or(Refusal::BookIllFormed)?;
        Ok(())
    }
}
