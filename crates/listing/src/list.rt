// A whole list of calls in one call. The calls stand in a slice, twelve words a call: its kind, then its arguments.
ghost use Rattle.std.specs.Prelude.{◌≡◌, true, ◌≤◌, length};
ghost use Rattle.std.specs.Result.{result_ok};
ghost use Rattle.book.specs.Book.{well_formed, lent};
ghost use Rattle.book.specs.Helpers.{answer_of};
ghost use Rattle.running.specs.Running.{running_of};
ghost use Rattle.running.specs.Lent.{lent_slice, lent_cells};
ghost use Rattle.listing.specs.Listed.{registration_in, reading_in, call_of, list_call, ListGives};
ghost use Rattle.listing.specs.Kind.{kind_of};
ghost use Rattle.listing.specs.Helpers.{MakesEach};

use book::{Setting, Settings};
use calls::Call;
use calls::make::make;
use refusals::{Refusal, number_given};
use running::RunningCells;
use running::lent::test_lent;
use two_parts::Parts;
use words::{Reading, Registration};

pub const CALL_WORDS: usize = 12;

// The kinds of call, under the numbers that users give.
#[derive(Clone, Copy)]
pub enum Kind {
    Register = 1,
    Reading = 2,
    Shape = 3,
    Weight = 4,
    Tolerance = 5,
    Take = 6,
}

// A word that stands for no kind.
#[derive(Clone, Copy)]
pub struct UnknownKind;

impl TryFrom<u64> for Kind {
    type Error = UnknownKind;

    ghost try_from_gives = { λ word outcome. result_ok outcome ≡ kind_of word };

    // Kept: a match on numbers, since the words of a list are numbers that C programs write, and no derive reads them; and `as`, the one way
    // from an enum to its number.
    #[tactic(auto, unfolding(crate::specs::Kind::kind_of))]
    fn try_from(word: u64) -> Result<Kind, UnknownKind> {
        match word {
            _ if word == Kind::Register as u64 => Ok(Kind::Register),
            _ if word == Kind::Reading as u64 => Ok(Kind::Reading),
            _ if word == Kind::Shape as u64 => Ok(Kind::Shape),
            _ if word == Kind::Weight as u64 => Ok(Kind::Weight),
            _ if word == Kind::Tolerance as u64 => Ok(Kind::Tolerance),
            _ if word == Kind::Take as u64 => Ok(Kind::Take),
            _ => Err(UnknownKind),
        }
    }
}

// The registration that a register call gives.
fn registration_of(words: &[u64; CALL_WORDS]) -> Registration
    ensures { result ≡ registration_in words.now }
{
    let &[_, _, segment, direction, status, base, flag, additional, ..] = words;
    let &[.., category, llf, network, tariff] = words;
    Registration {
        segment,
        direction,
        status,
        base,
        flag,
        additional,
        category,
        llf,
        network,
        tariff,
    }
}

// The reading that a reading call gives.
fn reading_of(words: &[u64; CALL_WORDS]) -> Reading
    ensures { result ≡ reading_in words.now }
{
    let &[_, _, issue, quality, consumption, ..] = words;
    Reading {
        issue,
        quality,
        consumption,
    }
}

// The call that twelve words give. An unknown kind stands for a setting that is out of range.
// Kept: no Result, since the definitions read an unknown kind so, as a call that is refused with 2.
#[tactic(auto, unfolding(crate::specs::Kind::kind_of, crate::specs::Listed::call_of, crate::specs::Listed::setting_in))]
fn call_of(words: &[u64; CALL_WORDS]) -> Call
    ensures { result ≡ call_of words.now }
{
    let &[kind, first, second, ..] = words;
    match Kind::try_from(kind) {
        Ok(Kind::Register) => Call::Register {
            mpan: first,
            registration: registration_of(words),
        },
        Ok(Kind::Reading) => Call::Record {
            mpan: first,
            reading: reading_of(words),
        },
        Ok(Kind::Shape) => Call::Set(Setting::Shape {
            category: first,
            wh: second,
        }),
        Ok(Kind::Weight) => Call::Set(Setting::Weight {
            class: first,
            thousandths: second,
        }),
        Ok(Kind::Tolerance) => Call::Set(Setting::Tolerance(first)),
        Ok(Kind::Take) => Call::Set(Setting::GroupTake(first.cast_signed())),
        Err(UnknownKind) => Call::Set(Setting::Tolerance(Settings::TOLERANCE_MAX + 1)),
    }
}

// Makes each call of a list in turn, on a book and cells that were tested before: accepted calls keep them well formed, so no call tests
// them again. A new meter's row goes among the few of the second part, which are merged into the first when they are too many and at the
// end: to insert each in its place among all of them would move half of them on average.
fn make_each(
    settings: Settings,
    rows: &mut [u64],
    cells: &mut RunningCells<'_>,
    calls: &[[u64; CALL_WORDS]],
    numbers: &mut [u64],
) -> Settings
    requires formed { well_formed (lent settings rows.old) ≡ true }
    requires room { length calls.now ≤ length numbers.old }
    ensures same_slice { lent_slice cells.new ≡ lent_slice cells.old }
    ensures makes { MakesEach (running_of settings rows.old (lent_cells cells.old)) calls.now numbers.old result rows.new (lent_cells cells.new) numbers.new }
{
    let mut made = settings;
    let mut parts = Parts::new(rows, settings.meters);
    // Kept: tried with a zip of `iter_mut`, and the proof didn't close: nothing is known then of the numbers it has written, as in
    // `correction::sums::all_units`.
    for (i, words) in calls.iter().enumerate() {
        let outcome = make(&mut made, &mut parts, cells, call_of(words));
        numbers[i] = number_given(&outcome);
    }
    parts.merge();
    made
}

// Makes the calls of a list in order, as making them one by one does, and writes their numbers. The book and its cells are tested once;
// if they are refused, every call is refused for them.
#[tactic(auto, using(crate::proofs::ListMade::whole_lists))]
pub fn make_calls(
    settings: Settings,
    rows: &mut [u64],
    cells: &mut [i64],
    calls: &[u64],
    numbers: &mut [u64],
) -> Result<Settings, Refusal>
    ensures { ListGives (list_call (running_of settings rows.old cells.old) calls.now numbers.old) (answer_of settings result) rows.new cells.new numbers.new }
{
    let (calls, rest) = calls.as_chunks::<CALL_WORDS>();
    if !rest.is_empty() {
        return Err(Refusal::ListMisshapen);
    }
    if numbers.len() < calls.len() {
        return Err(Refusal::ListMisshapen);
    }
    match test_lent(settings, rows, cells) {
        Ok(size) => {
            let mut kept = RunningCells::new(cells, size);
            Ok(make_each(settings, rows, &mut kept, calls, numbers))
        }
        Err(refusal) => {
            numbers[..calls.len()].fill(u64::from(refusal));
            Ok(settings)
        }
    }
}
