// The six kinds of line, and the order in which they may stand.
ghost use Rattle.std.specs.Prelude.{◌≡◌, Bool};
ghost use Rattle.period_file.specs.declared.LineKind.{LineKind};
ghost use Rattle.period_file.specs.Lines.{registration_at, meter_line, reading_line, keyed_line, setting_kind, call_kind, kind_place, kind_of, kind_follows, place_follows, line_allowed};

use crate::LineKind;
use crate::fields::{additional_at, field_count, number_at, two_numbers};
use crate::numbers::{number, signed};
use book::Setting;
use calls::Call;
use words::{Reading, Registration};

// The bytes of a line, at most, without its line feed.
pub const LINE_MAX: usize = 80;

// The fields of a meter line after its MPAN.
#[tactic(auto, unfolding(crate::specs::Lines::registration_at))]
fn registration_at(value: &[u8]) -> Option<Registration>
    ensures { result ≡ registration_at value.now }
{
    let segment = number_at(value, 1)?;
    let direction = number_at(value, 2)?;
    let status = number_at(value, 3)?;
    let base = number_at(value, 4)?;
    let additional = additional_at(value, 5)?;
    let category = number_at(value, 6)?;
    let llf = number_at(value, 7)?;
    let network = number_at(value, 8)?;
    let tariff = number_at(value, 9)?;
    Some(Registration {
        segment,
        direction,
        status,
        base,
        flag: u64::from(additional.is_some()),
        additional: additional.unwrap_or(0),
        category,
        llf,
        network,
        tariff,
    })
}

#[tactic(auto, unfolding(crate::specs::Lines::meter_line))]
fn meter_line(value: &[u8]) -> Option<Call>
    ensures { result ≡ meter_line value.now }
{
    if field_count(value) != 10 {
        return None;
    }
    let mpan = number_at(value, 0)?;
    let registration = registration_at(value)?;
    Some(Call::Register { mpan, registration })
}

#[tactic(auto, unfolding(crate::specs::Lines::reading_line))]
fn reading_line(value: &[u8]) -> Option<Call>
    ensures { result ≡ reading_line value.now }
{
    if field_count(value) != 4 {
        return None;
    }
    let mpan = number_at(value, 0)?;
    let issue = number_at(value, 1)?;
    let quality = number_at(value, 2)?;
    let consumption = number_at(value, 3)?;
    let reading = Reading {
        issue,
        quality,
        consumption,
    };
    Some(Call::Record { mpan, reading })
}

// The call of a line, by the key that its bytes start with.
#[tactic(auto, using(crate::proofs::Prefixes::prefix_test), unfolding(crate::specs::Lines::keyed_line, crate::specs::Lines::take_line, crate::specs::Lines::tolerance_line, crate::specs::Lines::weight_line, crate::specs::Lines::shape_line))]
fn keyed_line(line: &[u8]) -> Option<Call>
    ensures { result ≡ keyed_line line.now }
{
    if let Some(value) = line.strip_prefix(b"take=") {
        return Some(Call::Set(Setting::GroupTake(signed(value)?)));
    }
    if let Some(value) = line.strip_prefix(b"tolerance=") {
        return Some(Call::Set(Setting::Tolerance(number(value)?)));
    }
    if let Some(value) = line.strip_prefix(b"weight=") {
        let (class, thousandths) = two_numbers(value)?;
        return Some(Call::Set(Setting::Weight { class, thousandths }));
    }
    if let Some(value) = line.strip_prefix(b"shape=") {
        let (category, wh) = two_numbers(value)?;
        return Some(Call::Set(Setting::Shape { category, wh }));
    }
    if let Some(value) = line.strip_prefix(b"meter=") {
        return meter_line(value);
    }
    reading_line(line.strip_prefix(b"reading=")?)
}

// The kind of a line that sets this.
fn setting_kind(setting: Setting) -> LineKind
    ensures { result ≡ setting_kind setting }
{
    match setting {
        Setting::GroupTake(_) => LineKind::Take,
        Setting::Tolerance(_) => LineKind::Tolerance,
        Setting::Weight { .. } => LineKind::Weight,
        Setting::Shape { .. } => LineKind::Shape,
    }
}

// The kind of a line that makes this call.
pub(crate) fn call_kind(call: Call) -> LineKind
    ensures { result ≡ call_kind call }
{
    match call {
        Call::Set(setting) => setting_kind(setting),
        Call::Register { .. } => LineKind::Meter,
        Call::Record { .. } => LineKind::Reading,
    }
}

// The place of the kind of a line in the order, from 1; 0 for a line out of form, which makes no call.
pub fn kind_of(line: Option<Call>) -> u64
    ensures { result ≡ kind_of line }
{
    line.map_or(0, |call| call_kind(call).place())
}

impl LineKind {
    // The place of this kind in the order, from 1.
    pub fn place(self) -> u64
        ensures { result ≡ kind_place self }
    {
        match self {
            LineKind::Take => 1,
            LineKind::Tolerance => 2,
            LineKind::Weight => 3,
            LineKind::Shape => 4,
            LineKind::Meter => 5,
            LineKind::Reading => 6,
        }
    }

    // Whether a line of this kind may stand after the last one, or first: only the kinds after tolerance may stand again.
    fn may_follow(self, last: Option<LineKind>) -> bool
        ensures { result ≡ kind_follows last self }
    {
        match last {
            Some(last) => last < self || (last == self && LineKind::Tolerance < self),
            None => true,
        }
    }
}

// What is known of the last line: its kind, if there was a line, or a number for it.
pub trait LastKind: Copy {
    // Whether a line of a kind may stand after it.
    ghost lets_follow: { Self → LineKind → Bool };

    fn lets(self, kind: LineKind) -> bool
        ensures { result ≡ lets_follow self kind };
}

impl LastKind for Option<LineKind> {
    ghost lets_follow = { λ last. kind_follows last };

    fn lets(self, kind: LineKind) -> bool {
        kind.may_follow(self)
    }
}

// The place of the last line's kind in the order, 0 before the first line. After any number above 6 no line may stand.
impl LastKind for u64 {
    ghost lets_follow = { λ last. place_follows last };

    fn lets(self, kind: LineKind) -> bool {
        let place = kind.place();
        self < place || (self == place && LineKind::Tolerance.place() < place)
    }
}

// The call of the line that these bytes are, after a last line of which this is known.
#[tactic(auto, unfolding(crate::specs::Lines::line_allowed, crate::specs::Lines::line_of))]
pub fn read_line<K: LastKind>(line: &[u8], last: K) -> Option<Call>
    ensures { result ≡ line_allowed (K.lets_follow last) line.now }
{
    if LINE_MAX < line.len() {
        return None;
    }
    let call = keyed_line(line)?;
    if last.lets(call_kind(call)) {
        Some(call)
    } else {
        None
    }
}
