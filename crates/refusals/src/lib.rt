// What a call answers: an acceptance, or the one refusal given, under the numbers of the table. Every crate takes them from here.
#![tactic(auto)]

ghost use Rattle.std.specs.Prelude.{◌≡◌};
ghost use Rattle.refusals.specs.Refusal.{number_of, number_given};

// Kept: a number, since users see it beside those of the refusals; in the code an acceptance is an `Ok`.
pub const ACCEPTED: u64 = 0;

// Why a call is refused. Each is the number that users see.
#[derive(Clone, Copy, Debug, PartialEq, Eq)]
pub enum Refusal {
    BookIllFormed = 1,
    ArgumentOutOfRange = 2,
    QualityRefused = 3,
    MeterUnknown = 4,
    IssueNotAbove = 5,
    CapacityReached = 6,
    VolumesShort = 7,
    TakeUnset = 8,
    ShapeOfDefaultMissing = 9,
    WeightedBelowOne = 10,
    ToleranceExceeded = 11,
    TotalsShort = 12,
    CellsShort = 13,
    // A calls slice that is no whole number of calls, or a numbers slice that is too short.
    ListMisshapen = 19,
}

impl From<Refusal> for u64 {
    ghost from_gives = { λ refusal number. number ≡ number_of refusal };

    fn from(refusal: Refusal) -> u64 {
        // Kept: `as`, the one way from an enum to its number.
        refusal as u64
    }
}

// The number of an outcome.
pub fn number_given<T>(outcome: &Result<T, Refusal>) -> u64
    ensures { result ≡ number_given outcome.now }
{
    match outcome {
        Ok(_) => ACCEPTED,
        Err(refusal) => u64::from(*refusal),
    }
}
