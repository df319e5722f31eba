// The totals call: for each tariff, the energy and the meters of one direction and embedded network.
ghost use Rattle.std.specs.Prelude.{◌≡◌, ◌&&◌, ◌++◌, ◌+◌, ◌*◌, ◌≤◌, IfOk, OnOk, eqb, map, drop};
ghost use Rattle.refusals.specs.Causes.{accepted};
ghost use Rattle.refusals.specs.Refusal.{number_given};
ghost use Rattle.words.specs.Limits.{direction_most, network_most};
ghost use Rattle.words.specs.Registration.{direction_of, network_of, tariff_of};
ghost use Rattle.book.specs.Book.{lent};
ghost use Rattle.book.specs.Helpers.{answer_of};
ghost use Rattle.book.specs.Rows.{first_row};
ghost use Rattle.cells.specs.Energy.{any_lacks_shape};
ghost use Rattle.cells.specs.Cells.{estimate_bit};
ghost use Rattle.totals.specs.Totals.{totals_words, totals_of, arguments_cause, totals_call, TotalsGives};
ghost use Rattle.totals.specs.Helpers.{word_number, count_word, with_meter, AddArguments, AddRowsArguments};

use book::Settings;
use book::formed::is_formed;
use book::rows::first_rows;
use cells::meters::{lacks_shape, use_of};
use cells::{Source, Status, Use};
use refusals::Refusal;
use words::Registration;
use words::field::Field;

pub const TARIFFS: usize = 1_024;

// Four words for each tariff.
pub const TOTALS_WORDS: usize = 4 * TARIFFS;

// The four words of a tariff, in their order: two of energy, and two that count meters.
#[derive(Clone, Copy)]
enum TariffWord {
    ActualWh,
    OtherWh,
    Energised,
    DeEnergised,
}

// What is asked for: one direction and one embedded network.
#[derive(Clone, Copy)]
struct Asked {
    direction: u64,
    network: u64,
    ghost direction_within: { direction ≤ direction_most },
    ghost network_within: { network ≤ network_most },
}

impl Asked {
    // What is asked for and answered in a slice of so many words: a direction or a network out of range comes before a slice that is
    // too short.
    fn new(direction: u64, network: u64, words: usize) -> Result<Asked, Refusal>
        ensures number { number_given result ≡ arguments_cause direction network words accepted }
        ensures direction { IfOk result (λ asked. asked.direction ≡ direction) }
        ensures network { IfOk result (λ asked. asked.network ≡ network) }
        ensures room { OnOk result (totals_words ≤ words) }
    {
        let ranged = (direction <= Registration::DIRECTION_MAX)
            & (network <= Registration::NETWORK_MAX);
        let short = words < TOTALS_WORDS;
        if !ranged {
            return Err(Refusal::ArgumentOutOfRange);
        }
        if short {
            return Err(Refusal::TotalsShort);
        }
        Ok(Asked { direction, network })
    }

    // Whether a meter is of the direction and the network.
    fn includes(self, registration: u64) -> bool
        ensures { result ≡ (eqb (direction_of registration) self.direction && eqb (network_of registration) self.network) }
    {
        words::charged(registration) == words::charged_to(self.direction, self.network)
    }
}

// Whether a defaulted meter lacks its shape, whatever its direction and network. The outcomes are joined, with no way out of the loop
// before its end, since nearly every book has all the shapes that it uses.
#[tactic(auto, using(cells::proofs::AnyLacks::each_row), unfolding(cells::specs::Energy::any_lacks_shape))]
fn any_lacks(rows: &[[u64; 3]], shapes: &[u32; 64]) -> bool
    ensures { result ≡ any_lacks_shape shapes.now (map first_row rows.now) }
{
    let mut lacks = false;
    for &[_, registration, reading] in rows {
        lacks |= lacks_shape(shapes, registration, reading);
    }
    lacks
}

// Where a word of a meter's tariff stands.
// Kept: the words are numbered in one slice. The library's `as_chunks_mut`, which makes rows of four words of it, does not promise what
// the slice holds afterwards.
fn place(registration: u64, word: TariffWord) -> usize
    ensures { result ≡ 4 * tariff_of registration + word_number word }
{
    // Kept: `as`, since there is no `From` of a u64 for an index, and an enum gives the number of its place in no other way.
    4 * (Field::TARIFF.of(registration) as usize) + word as usize
}

// The word that the energy of a source goes to.
#[tactic(auto, unfolding(cells::specs::Cells::estimate_bit))]
fn energy_word(source: Source) -> TariffWord
    ensures { word_number result ≡ estimate_bit source }
{
    match source {
        Source::Actual => TariffWord::ActualWh,
        _ => TariffWord::OtherWh,
    }
}

// The word that counts a meter, by its status. A meter that is not idle and not energised is de-energised.
#[tactic(auto, unfolding(cells::specs::Helpers::status_in))]
fn count_word(registration: u64) -> TariffWord
    ensures { word_number result ≡ count_word registration }
{
    match Status::of(registration) {
        Status::Energised => TariffWord::Energised,
        _ => TariffWord::DeEnergised,
    }
}

// Adds a meter to the words of its tariff: its energy to the actual or the other Wh, and itself to the meters of its status.
#[tactic(auto, using(crate::proofs::OneMore::few), unfolding(crate::specs::Helpers::with_meter))]
fn add_meter(totals: &mut [u64], registration: u64, meter: Use)
    requires { AddArguments totals.old meter }
    ensures { totals.new ≡ with_meter totals.old registration meter }
{
    if meter.source == Source::Idle {
        return;
    }
    let energy = place(registration, energy_word(meter.source));
    let count = place(registration, count_word(registration));
    totals[energy] += meter.wh.unwrap_or(0);
    totals[count] += 1;
}

// Adds the rows to totals that are still 0. A meter of another direction or network is passed over before its energy is worked out.
#[tactic(auto, using(crate::proofs::AddedRows::each_row))]
fn add_rows(totals: &mut [u64], rows: &[[u64; 3]], shapes: &[u32; 64], asked: Asked)
    requires { AddRowsArguments totals.old (map first_row rows.now) shapes.now }
    ensures { totals.new ≡ totals_of shapes.now (map first_row rows.now) asked.direction asked.network ++ drop totals_words totals.old }
{
    for &[_, registration, reading] in rows {
        if asked.includes(registration) {
            add_meter(totals, registration, use_of(shapes, registration, reading));
        }
    }
}

// Writes the four words of each tariff to the first words of the totals slice, and changes nothing in the book. It gives the settings back,
// or the refusal of the call.
#[tactic(auto, using(book::proofs::WellFormed::meters_within))]
pub fn totals(
    settings: Settings,
    rows: &[u64],
    direction: u64,
    network: u64,
    totals: &mut [u64],
) -> Result<Settings, Refusal>
    ensures { TotalsGives (totals_call (lent settings rows.now) direction network totals.old) (answer_of settings result) rows.now totals.new }
{
    if !is_formed(settings, rows) {
        return Err(Refusal::BookIllFormed);
    }
    let asked = Asked::new(direction, network, totals.len())?;
    let meters = first_rows(rows, settings.meters);
    if any_lacks(meters, &settings.shapes) {
        return Err(Refusal::ShapeOfDefaultMissing);
    }
    totals[..TOTALS_WORDS].fill(0);
    add_rows(totals, meters, &settings.shapes, asked);
    Ok(settings)
}
