// From rounded cells to the units' sums: n and a of a unit.
ghost use Rattle.std.specs.Prelude.{◌≡◌, ◌<◌, ◌^◌, nat_abs, map};
ghost use Rattle.correction.specs.Correction.{by_direction, sums_of};
ghost use Rattle.correction.specs.Helpers.{UnitArguments, AllUnitsArguments};

use crate::UnitSums;

// A cell as it counts in n: import as it is, export negated.
pub(crate) fn by_direction(class: usize, c: i64) -> i64
    requires { nat_abs c < 2 ^ 63 }
    ensures { result ≡ by_direction class c }
{
    if class / 4 % 2 == 0 { c } else { -c }
}

// n and a of a unit, from its rounded cells and the weights. The classes go in pairs of one direction: consumption, and its losses.
#[tactic(auto, using(crate::proofs::PairSums::pair_sums))]
fn unit_sums(cells: &[i64; 24], weights: &[u32; 24]) -> UnitSums
    requires { UnitArguments cells.now weights.now }
    ensures { result ≡ sums_of cells.now weights.now }
{
    let mut net = 0;
    let mut weighted = 0;
    // Kept: the number of a pair gives its direction, so a zip would be counted too, under a pattern three deep in place of one number.
    for pair in 0..12 {
        let class = 2 * pair;
        let used = cells[class];
        let lost = cells[class + 1];
        net += by_direction(class, used + lost);
        weighted += used * i64::from(weights[class]);
        weighted += lost * i64::from(weights[class + 1]);
    }
    UnitSums { net, weighted }
}

// n and a of each of the 32 units.
pub fn all_units(cells: &[[i64; 24]; 32], weights: &[u32; 24]) -> [UnitSums; 32]
    requires { AllUnitsArguments cells.now weights.now }
    ensures { result ≡ map (λ row. sums_of row weights.now) cells.now }
{
    let mut sums = [UnitSums {
        net: 0,
        weighted: 0,
    }; 32];
    // Kept: tried with a zip of `iter_mut`, and the proof didn't close: std says nothing of what such a chain has written.
    for (unit, row) in cells.iter().enumerate() {
        sums[unit] = unit_sums(row, weights);
    }
    sums
}
