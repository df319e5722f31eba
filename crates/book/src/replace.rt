// A setting replaced in settings that were tested before.
ghost use Rattle.std.specs.Prelude.{◌≡◌, true};
ghost use Rattle.book.specs.Settings.{with_setting, setting_in_range};
ghost use Rattle.book.specs.Helpers.{setting_replaced};

use crate::ranges::setting_in_range;
use crate::{Setting, Settings};
use refusals::Refusal;

// Puts a setting in the place of the one held, where the settings stand: a list of calls replaces many, and to copy all of them for each
// took longer than the rest of such a call.
#[tactic(auto, unfolding(crate::specs::Settings::with_setting))]
pub fn put_setting(made: &mut Settings, setting: Setting)
    requires { setting_in_range setting ≡ true }
    ensures { made.new ≡ with_setting setting made.old }
{
    // Kept: `as`, since there is no `From` of a u64 for an index or a u32, and both were tested to be in range: a `try_from` would ask for a
    // refusal that never comes.
    match setting {
        Setting::Shape { category, wh } => {
            made.shapes[category as usize] = wh as u32;
        }
        Setting::Weight { class, thousandths } => {
            made.weights[class as usize] = thousandths as u32;
        }
        Setting::Tolerance(g) => {
            made.tolerance = g as u32;
        }
        Setting::GroupTake(wh) => {
            made.take_wh = wh;
            made.take_set = Settings::TAKE_FLAG_SET;
        }
    }
}

// Replaces a setting if its number and its value are in range. SHAPE_MISSING sets a shape back to missing.
#[tactic(auto, unfolding(crate::specs::Helpers::setting_replaced))]
pub fn replace(settings: Settings, setting: Setting) -> Result<Settings, Refusal>
    ensures { result ≡ setting_replaced setting settings }
{
    if !setting_in_range(setting) {
        return Err(Refusal::ArgumentOutOfRange);
    }
    let mut made = settings;
    put_setting(&mut made, setting);
    Ok(made)
}
