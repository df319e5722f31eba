// From the cells of the units to their volumes: every cell rounded, n and a, U and W, shares rounded down, and the last watt-hours.
#![tactic(auto)]

ghost use Rattle.correction.specs.Helpers.{IsWithinTolerance};

pub mod correct;
pub mod rounding;
pub mod shares;
pub mod sums;

// A unit's n and a.
// Kept: no ghost field bounds the two, since `all_units` gives an a of up to 24 × 1.4 × 10^15, and a share can be worked only of one of at
// most 1.4 × 10^15; so `share_down` and the method that it calls ask for that.
#[derive(Clone, Copy)]
pub struct UnitSums {
    pub net: i64,
    pub weighted: i64,
}

// U and W, which an accepted correction answers.
#[derive(Clone, Copy)]
pub struct Corrected {
    pub unallocated: i64,
    pub weighted: i64,
}

// U and W of an accepted correction, from which every share is worked.
#[derive(Clone, Copy)]
pub struct WithinTolerance {
    pub corrected: Corrected,
    pub ghost within: { IsWithinTolerance corrected },
}
