// A whole half hour in one call.
ghost use Rattle.allocation.specs.Helpers.{allocation_answer};
ghost use Rattle.listing.specs.Settle.{SettleGives};

use crate::list::make_calls;
use allocation::Figures;
use allocation::allocate::allocate_formed;
use book::Settings;
use refusals::Refusal;

// What a half hour leaves beside what it writes: the settings after the list, and the outcome of the allocation.
#[derive(Clone, Copy)]
pub struct HalfHour {
    pub settings: Settings,
    pub outcome: Result<Figures, Refusal>,
}

// Makes a list of calls on a fresh book over these rows and cells, writes the calls' numbers, and allocates. The book is not tested
// again before the allocation: a list of calls from the fresh settings leaves it well formed. The cells are: nothing is known of those
// that were lent.
pub fn settle_list(
    rows: &mut [u64],
    cells: &mut [i64],
    calls: &[u64],
    numbers: &mut [u64],
    volumes: &mut [i64],
) -> HalfHour
    ensures { SettleGives rows.old cells.old calls.now numbers.old volumes.old (allocation_answer result.settings result.outcome) rows.new cells.new numbers.new volumes.new }
{
    let fresh = Settings::fresh();
    match make_calls(fresh, rows, cells, calls, numbers) {
        Ok(settings) => HalfHour {
            settings,
            outcome: allocate_formed(settings, cells, volumes),
        },
        Err(refusal) => HalfHour {
            settings: fresh,
            outcome: Err(refusal),
        },
    }
}
