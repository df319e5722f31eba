// From meters to cells: the energy of a meter, and its class.
#![tactic(auto)]

ghost use Rattle.std.specs.Prelude.{◌≡◌};
ghost use Rattle.cells.specs.Cells.{estimate_bit};
ghost use Rattle.cells.specs.Energy.{source_number};
ghost use Rattle.cells.specs.Helpers.{status_in};

pub mod meters;

use words::field::Field;

// The three statuses of a meter, which a registration has as the numbers 0, 1 and 2.
#[derive(Clone, Copy)]
pub enum Status {
    Disconnected,
    DeEnergised,
    Energised,
}

// Where a meter's energy comes from, in the order of the four counts.
#[derive(Clone, Copy, Debug, PartialEq, Eq)]
pub enum Source {
    Actual,
    Estimated,
    Defaulted,
    Idle,
}

// What a meter comes to: where its energy comes from, and the energy in Wh, or none where it lacks its shape.
#[derive(Clone, Copy)]
pub struct Use {
    pub source: Source,
    pub wh: Option<u64>,
}

// How many meters have each source.
#[derive(Clone, Copy)]
pub struct Counts {
    pub actual: u64,
    pub estimated: u64,
    pub defaulted: u64,
    pub idle: u64,
}

impl Status {
    // The status of a registration, from word 1. A number that is none of the three is in no well-formed book, and taken as disconnected.
    // Kept: numbers, since C programs write a status as one and word 1 holds it. They are told apart here and nowhere else.
    #[tactic(auto, unfolding(crate::specs::Helpers::status_in))]
    pub fn of(registration: u64) -> Status
        ensures { result ≡ status_in registration }
    {
        match Field::STATUS.of(registration) {
            2 => Status::Energised,
            1 => Status::DeEnergised,
            _ => Status::Disconnected,
        }
    }
}

impl Source {
    // e of a class: 0 for an actual reading, and 1 for every other source.
    #[tactic(auto, unfolding(crate::specs::Cells::estimate_bit))]
    pub fn estimate_bit(self) -> u64
        ensures { result ≡ estimate_bit self }
    {
        match self {
            Source::Actual => 0,
            _ => 1,
        }
    }
}

impl From<Source> for usize {
    ghost from_gives = { λ source number. number ≡ source_number source };

    fn from(source: Source) -> usize {
        // Kept: `as`, the one way from an enum to the number of its place.
        source as usize
    }
}
