// The lines of a period file: whether a line is in form, which kind it is, and which call it makes.
#![tactic(auto)]

use book::Settings;
use refusals::Refusal;

pub mod answer;
pub mod fields;
pub mod lines;
pub mod numbers;

// The kinds of line, in the order in which they may stand.
#[derive(Clone, Copy, Debug, PartialEq, Eq, PartialOrd, Ord)]
pub enum LineKind {
    Take,
    Tolerance,
    Weight,
    Shape,
    Meter,
    Reading,
}

// A line in form whose call was made: its kind, and the settings afterwards or the call's refusal.
#[derive(Clone, Copy)]
pub struct Taken {
    pub kind: LineKind,
    pub outcome: Result<Settings, Refusal>,
}
