// From the units' sums to their volumes: shares rounded down, and the last watt-hours.
ghost use Rattle.std.specs.Prelude.{◌≡◌, ◌≤◌, ◌<◌};
ghost use Rattle.integers.specs.Helpers.{weighted_most};
ghost use Rattle.correction.specs.Volumes.{rounded_volumes};
ghost use Rattle.correction.specs.Helpers.{share_of, UnitBound, ShareDownArguments, SharedDown, FractionsBound, order_key, OrderKeys, HandOutArguments};

use crate::{UnitSums, WithinTolerance};
use integers::{Quotient, share_quotient};
use std::array;

impl WithinTolerance {
    // A unit's share rounded down, and its fraction times W.
    fn share(self, sums: UnitSums) -> Quotient
        requires { UnitBound sums }
        ensures { result ≡ share_of self.corrected sums }
    {
        let correction = share_quotient(
            self.corrected.unallocated,
            sums.weighted,
            self.corrected.weighted,
        );
        Quotient {
            floor: sums.net + correction.floor,
            fraction: correction.fraction,
        }
    }
}

// The fractions of the 32 units, times W.
#[derive(Clone, Copy)]
pub struct Fractions {
    pub times_w: [u64; 32],
    pub ghost bound: { FractionsBound times_w },
}

// Each unit's share rounded down, and its fraction times W.
// Kept: the two stand apart, since the floors go into the slice that the caller lent.
pub fn share_down(within: WithinTolerance, sums: &[UnitSums; 32], floors: &mut [i64]) -> Fractions
    requires { ShareDownArguments sums.now floors.old }
    ensures { SharedDown within.corrected sums.now floors.new result.times_w }
{
    let mut times_w = [0u64; 32];
    // Kept: tried with the shares made by `array::from_fn`, and their floors and fractions by `map`, and the proof didn't close: what std says
    // of call k does not say what the closure then holds, and the search for all 32 calls one by one stopped at its limit of case splits.
    // With a zip of `iter_mut` nothing would be known of the floors and the fractions, as in `sums::all_units`.
    for (unit, x) in sums.iter().enumerate() {
        let share = within.share(*x);
        floors[unit] = share.floor;
        times_w[unit] = share.fraction;
    }
    Fractions { times_w }
}

// A unit's key in the order of handing out: the larger fraction has the larger key, and of equal fractions the lower unit number.
fn order_key(unit: usize, fraction: u64) -> u64
    requires { (unit < 32) × (fraction ≤ weighted_most) }
    ensures { result ≡ order_key unit fraction }
{
    // Kept: `as`, since there is no `From` of a `usize` for a `u64`.
    32 * fraction + (31 - unit as u64)
}

impl Fractions {
    // The keys of the 32 units.
    fn order_keys(&self) -> [u64; 32]
        ensures { OrderKeys self.now.times_w result }
    {
        array::from_fn(|unit| order_key(unit, self.times_w[unit]))
    }
}

// Hands out the Wh that lack, one each to the units that fewer than `lack` units come before, until none lack.
#[tactic(auto, using(crate::proofs::HandedOut::handing))]
pub fn hand_out(volumes: &mut [i64], fractions: &Fractions, lack: u64)
    requires { HandOutArguments volumes.old lack }
    ensures { volumes.new ≡ rounded_volumes lack fractions.now.times_w 0 volumes.old fractions.now.times_w }
{
    let keys = fractions.order_keys();
    let mut left = lack;
    // Kept: nested loops that a label leaves, since document 01 asks for this form here; so no `filter` and `count` within.
    'units: for (unit, key) in keys.iter().enumerate() {
        let mut before = 0;
        for other in &keys {
            // None lack: as many units as Wh get one, so no unit from here on does.
            if left == 0 {
                break 'units;
            }
            if key < other {
                before += 1;
            }
        }
        if before < lack {
            volumes[unit] += 1;
            left -= 1;
        }
    }
}
