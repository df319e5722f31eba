// Whether the arguments of a call are in their ranges, as numbers of the full width.
ghost use Rattle.std.specs.Prelude.{◌≡◌};
ghost use Rattle.book.specs.declared.Setting.TheVariants.{Shape, Weight};
ghost use Rattle.book.specs.Settings.{is_tolerance, is_take, setting_in_range};
ghost use Rattle.book.specs.Store.{register_in_range, reading_call_in_range};

use crate::{Setting, Settings};
use words::{Reading, Registration};

pub fn is_tolerance(g: u64) -> bool
    ensures { result ≡ is_tolerance g }
{
    g <= Settings::TOLERANCE_MAX
}

pub fn is_take(wh: i64) -> bool
    ensures { result ≡ is_take wh }
{
    (Settings::TAKE_MIN..=Settings::TAKE_MAX).contains(&wh)
}

// Whether a setting's number and its value are in range.
pub fn setting_in_range(setting: Setting) -> bool
    ensures { result ≡ setting_in_range setting }
{
    match setting {
        Setting::Shape { category, wh } => {
            (category < Settings::CATEGORIES)
                & ((wh <= Settings::SHAPE_MAX) | (wh == Settings::SHAPE_MISSING))
        }
        Setting::Weight { class, thousandths } => {
            (class < Settings::CLASSES) & (thousandths <= Settings::WEIGHT_MAX)
        }
        Setting::Tolerance(g) => is_tolerance(g),
        Setting::GroupTake(wh) => is_take(wh),
    }
}

// Whether the arguments of a register call are in range.
pub fn register_in_range(mpan: u64, registration: Registration) -> bool
    ensures { result ≡ register_in_range mpan registration }
{
    words::is_mpan(mpan) & registration.in_range()
}

// Whether those of a reading call are.
pub fn reading_in_range(mpan: u64, reading: Reading) -> bool
    ensures { result ≡ reading_call_in_range mpan reading }
{
    words::is_mpan(mpan) & reading.in_range()
}
