// The entry points for C: the same functions under one prefix, which promise the same. Where one of them gives a Result, C gets an
// `Answer` of it, and hands over a call's arguments one by one. A slice is a pointer and a length.
// Kept: these functions stand apart, since C knows each by its name.
ghost use Rattle.std.specs.Prelude.{◌≡◌};
ghost use Rattle.book.specs.declared.Setting.TheVariants.{Shape, Weight, Tolerance, GroupTake};
ghost use Rattle.book.specs.Settings.{fresh_settings};
ghost use Rattle.book.specs.Book.{lent};
ghost use Rattle.calls.specs.declared.Call.TheVariants.{Register, Record, Set};
ghost use Rattle.running.specs.Running.{running_of};
ghost use Rattle.calls.specs.Running.{running_call, RunningGives};
ghost use Rattle.allocation.specs.Running.{allocate_running, RunningAllocationGives};
ghost use Rattle.totals.specs.Totals.{totals_call, TotalsGives};
ghost use Rattle.listing.specs.Listed.{list_call, ListGives};
ghost use Rattle.listing.specs.Settle.{SettleGives};

use allocation::AllocationAnswer;
use allocation::allocate::allocate;
use book::{Answer, Setting, Settings};
use calls::Call;
use calls::make::{make_call, set, set_shape};
use listing::half_hour::settle_list;
use words::{Reading, Registration};

#[unsafe(no_mangle)]
pub extern "C" fn cepnhoy_fresh() -> Settings
    ensures { result ≡ fresh_settings }
{
    Settings::fresh()
}

#[unsafe(no_mangle)]
pub extern "C" fn cepnhoy_register(
    settings: Settings,
    rows: &mut [u64],
    cells: &mut [i64],
    mpan: u64,
    registration: Registration,
) -> Answer
    ensures { RunningGives (running_call (running_of settings rows.old cells.old) (Register mpan registration)) result rows.new cells.new }
{
    let outcome = make_call(settings, rows, cells, Call::Register { mpan, registration });
    Answer::of(settings, outcome)
}

#[unsafe(no_mangle)]
pub extern "C" fn cepnhoy_record_reading(
    settings: Settings,
    rows: &mut [u64],
    cells: &mut [i64],
    mpan: u64,
    reading: Reading,
) -> Answer
    ensures { RunningGives (running_call (running_of settings rows.old cells.old) (Record mpan reading)) result rows.new cells.new }
{
    let outcome = make_call(settings, rows, cells, Call::Record { mpan, reading });
    Answer::of(settings, outcome)
}

#[unsafe(no_mangle)]
pub extern "C" fn cepnhoy_set_shape(
    settings: Settings,
    rows: &[u64],
    cells: &mut [i64],
    category: u64,
    wh: u64,
) -> Answer
    ensures { RunningGives (running_call (running_of settings rows.now cells.old) (Set (Shape category wh))) result rows.now cells.new }
{
    Answer::of(settings, set_shape(settings, rows, cells, category, wh))
}

#[unsafe(no_mangle)]
pub extern "C" fn cepnhoy_set_weight(
    settings: Settings,
    rows: &[u64],
    cells: &[i64],
    class: u64,
    thousandths: u64,
) -> Answer
    ensures { RunningGives (running_call (running_of settings rows.now cells.now) (Set (Weight class thousandths))) result rows.now cells.now }
{
    Answer::of(
        settings,
        set(
            settings,
            rows,
            cells,
            Setting::Weight { class, thousandths },
        ),
    )
}

#[unsafe(no_mangle)]
pub extern "C" fn cepnhoy_set_tolerance(
    settings: Settings,
    rows: &[u64],
    cells: &[i64],
    g: u64,
) -> Answer
    ensures { RunningGives (running_call (running_of settings rows.now cells.now) (Set (Tolerance g))) result rows.now cells.now }
{
    Answer::of(settings, set(settings, rows, cells, Setting::Tolerance(g)))
}

#[unsafe(no_mangle)]
pub extern "C" fn cepnhoy_set_take(
    settings: Settings,
    rows: &[u64],
    cells: &[i64],
    wh: i64,
) -> Answer
    ensures { RunningGives (running_call (running_of settings rows.now cells.now) (Set (GroupTake wh))) result rows.now cells.now }
{
    Answer::of(settings, set(settings, rows, cells, Setting::GroupTake(wh)))
}

#[unsafe(no_mangle)]
pub extern "C" fn cepnhoy_allocate(
    settings: Settings,
    rows: &[u64],
    cells: &[i64],
    volumes: &mut [i64],
) -> AllocationAnswer
    ensures { RunningAllocationGives (allocate_running (running_of settings rows.now cells.now) volumes.old) result rows.now cells.now volumes.new }
{
    AllocationAnswer::of(settings, allocate(settings, rows, cells, volumes))
}

#[unsafe(no_mangle)]
pub extern "C" fn cepnhoy_totals(
    settings: Settings,
    rows: &[u64],
    direction: u64,
    network: u64,
    totals: &mut [u64],
) -> Answer
    ensures { TotalsGives (totals_call (lent settings rows.now) direction network totals.old) result rows.now totals.new }
{
    let outcome = totals::totals::totals(settings, rows, direction, network, totals);
    Answer::of(settings, outcome)
}

#[unsafe(no_mangle)]
pub extern "C" fn cepnhoy_make_calls(
    settings: Settings,
    rows: &mut [u64],
    cells: &mut [i64],
    calls: &[u64],
    numbers: &mut [u64],
) -> Answer
    ensures { ListGives (list_call (running_of settings rows.old cells.old) calls.now numbers.old) result rows.new cells.new numbers.new }
{
    let outcome = listing::list::make_calls(settings, rows, cells, calls, numbers);
    Answer::of(settings, outcome)
}

#[unsafe(no_mangle)]
pub extern "C" fn cepnhoy_settle_list(
    rows: &mut [u64],
    cells: &mut [i64],
    calls: &[u64],
    numbers: &mut [u64],
    volumes: &mut [i64],
) -> AllocationAnswer
    ensures { SettleGives rows.old cells.old calls.now numbers.old volumes.old result rows.new cells.new numbers.new volumes.new }
{
    let made = settle_list(rows, cells, calls, numbers, volumes);
    AllocationAnswer::of(made.settings, made.outcome)
}
