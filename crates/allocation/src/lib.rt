// The allocate call.
#![tactic(auto)]

ghost use Rattle.std.specs.Prelude.{◌≡◌};
ghost use Rattle.allocation.specs.Allocate.{refused_with};
ghost use Rattle.allocation.specs.Helpers.{allocated_of, allocation_answer};

use book::Settings;
use cells::Counts;
use correction::Corrected;
use refusals::{ACCEPTED, Refusal};

pub mod allocate;

// What an accepted allocation works out: U and W, the four counts, and for each unit the thousandths of a Wh that rounding its losses
// dropped, import minus export.
#[derive(Clone, Copy)]
pub struct Figures {
    pub corrected: Corrected,
    pub counts: Counts,
    pub droppings: [i64; 32],
}

// The number given, and the figures; zeros beside a refusal's number.
// Kept: C reads it, so the number stands beside the figures and is no Result.
#[repr(C)]
#[derive(Clone, Copy)]
pub struct Allocated {
    pub number: u64,
    pub unallocated: i64,
    pub weighted: i64,
    pub actual: u64,
    pub estimated: u64,
    pub defaulted: u64,
    pub idle: u64,
    pub droppings: [i64; 32],
}

// A refusal's number, with U, W, the counts and the droppings at 0.
// Kept: a number and no `Refusal`, since it stands beside any number, and a narrower type would ask more of its callers.
pub fn refused(number: u64) -> Allocated
    ensures { result ≡ refused_with number }
{
    Allocated {
        number,
        unallocated: 0,
        weighted: 0,
        actual: 0,
        estimated: 0,
        defaulted: 0,
        idle: 0,
        droppings: [0; 32],
    }
}

impl From<Result<Figures, Refusal>> for Allocated {
    ghost from_gives = { λ outcome answer. answer ≡ allocated_of outcome };

    fn from(outcome: Result<Figures, Refusal>) -> Allocated {
        match outcome {
            Ok(figures) => {
                let droppings = figures.droppings;
                Allocated {
                    number: ACCEPTED,
                    unallocated: figures.corrected.unallocated,
                    weighted: figures.corrected.weighted,
                    actual: figures.counts.actual,
                    estimated: figures.counts.estimated,
                    defaulted: figures.counts.defaulted,
                    idle: figures.counts.idle,
                    droppings,
                }
            }
            Err(refusal) => refused(u64::from(refusal)),
        }
    }
}

// What a C program is answered by an allocation: the figures, or zeros beside the number of its refusal, and the settings.
// Kept: the C interface has this struct; the calls themselves give a Result.
#[repr(C)]
#[derive(Clone, Copy)]
pub struct AllocationAnswer {
    pub answer: Allocated,
    pub settings: Settings,
}

impl AllocationAnswer {
    // The answer to an allocation of a book that has these settings.
    pub fn of(settings: Settings, outcome: Result<Figures, Refusal>) -> AllocationAnswer
        ensures { result ≡ allocation_answer settings outcome }
    {
        AllocationAnswer {
            answer: Allocated::from(outcome),
            settings,
        }
    }
}
