// One call made on a lent book with its running cells.
ghost use Rattle.std.specs.Prelude.{◌≡◌, true, map};
ghost use Rattle.book.specs.declared.Setting.TheVariants.{Shape};
ghost use Rattle.book.specs.Settings.{settings_formed};
ghost use Rattle.book.specs.Rows.{first_row};
ghost use Rattle.book.specs.Book.{well_formed, lent};
ghost use Rattle.book.specs.Helpers.{answer_of};
ghost use Rattle.running.specs.Running.{running_of};
ghost use Rattle.running.specs.Lent.{lent_slice, lent_cells};
ghost use Rattle.running.specs.Helpers.{RowsHeld};
ghost use Rattle.calls.specs.declared.Call.TheVariants.{Set};
ghost use Rattle.calls.specs.Running.{running_call, RunningGives};
ghost use Rattle.calls.specs.Helpers.{answer_with, keeps_cells, SetKept};

use crate::Call;
use crate::rows::{InOrder, Rows};
use book::ranges::setting_in_range;
use book::replace::{put_setting, replace};
use book::rows::first_rows;
use book::{Setting, Settings};
use refusals::Refusal;
use running::RunningCells;
use running::lent::test_lent;

// Makes a call on a book and cells that were tested before. A register or reading call changes no setting but the number of meters, so the
// settings are not copied for it.
#[tactic(auto, using(crate::proofs::Answers::made))]
pub fn make<R: Rows>(
    made: &mut Settings,
    rows: &mut R,
    cells: &mut RunningCells<'_>,
    call: Call,
) -> Result<(), Refusal>
    requires formed { well_formed (lent made.old (R.lent_rows rows.old).words) ≡ true }
    requires counted { made.old.meters ≡ (R.lent_rows rows.old).meters }
    ensures same_slice { (R.lent_rows rows.new).slice ≡ (R.lent_rows rows.old).slice }
    ensures same_cells { lent_slice cells.new ≡ lent_slice cells.old }
    ensures counted { made.new.meters ≡ (R.lent_rows rows.new).meters }
    ensures gives { RunningGives (running_call (running_of made.old (R.lent_rows rows.old).words (lent_cells cells.old)) call) (answer_with result made.new) (R.lent_rows rows.new).words (lent_cells cells.new) }
{
    match call {
        Call::Register { mpan, registration } => {
            made.meters = rows.register(mpan, registration, &made.shapes, cells)?;
        }
        Call::Record { mpan, reading } => {
            made.meters = rows.record(mpan, reading, &made.shapes, cells)?;
        }
        Call::Set(setting) => {
            set_kept(made, rows.all(), cells, setting)?;
        }
    }
    Ok(())
}

// Replaces a setting of a book that was tested before, where the settings stand. A shape changes the cells of the meters that wait in its
// category; no other setting changes a cell. It is built into its callers, since a list makes it for each of its settings.
#[inline(always)]
fn set_kept(
    made: &mut Settings,
    rows: &[[u64; 3]],
    cells: &mut RunningCells<'_>,
    setting: Setting,
) -> Result<(), Refusal>
    requires rows { RowsHeld (map first_row rows.now) }
    requires settings { settings_formed made.old ≡ true }
    ensures same_slice { lent_slice cells.new ≡ lent_slice cells.old }
    ensures gives { SetKept made.old (map first_row rows.now) (lent_cells cells.old) setting (answer_with result made.new) (lent_cells cells.new) }
{
    if !setting_in_range(setting) {
        return Err(Refusal::ArgumentOutOfRange);
    }
    if let Setting::Shape { category, wh } = setting {
        cells.keep_shape(&made.shapes, rows, category, wh)?;
    }
    put_setting(made, setting);
    Ok(())
}

// Makes a call, and gives the settings afterwards. A registration is stored or replaced: a new meter gets its row in order and has no
// reading, a known one keeps its reading. A reading is stored if its issue is above the one held, whatever the order of arrival. A
// setting is replaced. The running cells are kept up.
pub fn make_call(
    settings: Settings,
    rows: &mut [u64],
    cells: &mut [i64],
    call: Call,
) -> Result<Settings, Refusal>
    ensures { RunningGives (running_call (running_of settings rows.old cells.old) call) (answer_of settings result) rows.new cells.new }
{
    let size = test_lent(settings, rows, cells)?;
    let mut made = settings;
    let meters = settings.meters;
    let mut kept = RunningCells::new(cells, size);
    make(&mut made, &mut InOrder { rows, meters }, &mut kept, call)?;
    Ok(made)
}

// Makes a call that replaces a shape, on rows that are lent to be read only.
pub fn set_shape(
    settings: Settings,
    rows: &[u64],
    cells: &mut [i64],
    category: u64,
    wh: u64,
) -> Result<Settings, Refusal>
    ensures { RunningGives (running_call (running_of settings rows.now cells.old) (Set (Shape category wh))) (answer_of settings result) rows.now cells.new }
{
    let size = test_lent(settings, rows, cells)?;
    let mut kept = RunningCells::new(cells, size);
    let meters = first_rows(rows, settings.meters);
    let mut made = settings;
    set_kept(
        &mut made,
        meters,
        &mut kept,
        Setting::Shape { category, wh },
    )?;
    Ok(made)
}

// Makes a call that replaces another setting, on rows and cells that are lent to be read only.
pub fn set(
    settings: Settings,
    rows: &[u64],
    cells: &[i64],
    setting: Setting,
) -> Result<Settings, Refusal>
    requires { keeps_cells setting ≡ true }
    ensures { RunningGives (running_call (running_of settings rows.now cells.now) (Set setting)) (answer_of settings result) rows.now cells.now }
{
    test_lent(settings, rows, cells)?;
    replace(settings, setting)
}
