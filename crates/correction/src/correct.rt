// The correction of the units' sums: U and W, the causes that rest on them, and the volumes.
ghost use Rattle.std.specs.Prelude.{◌≡◌, IfOk};
ghost use Rattle.refusals.specs.Refusal.{number_given};
ghost use Rattle.correction.specs.Outcome.{corrected_of, CorrectionGives};
ghost use Rattle.correction.specs.Helpers.{cause_of, CorrectedBound, SumsArguments, ToleranceArguments, CorrectArguments};

use crate::shares::{hand_out, share_down};
use crate::{Corrected, UnitSums, WithinTolerance};
use refusals::Refusal;

impl Corrected {
    // U and W of a Take and the sums of the 32 units.
    fn of(take_wh: i64, sums: &[UnitSums; 32]) -> Corrected
        requires { SumsArguments take_wh sums.now }
        ensures is { result ≡ corrected_of take_wh sums.now }
        ensures bound { CorrectedBound result }
    {
        let net: i64 = sums.iter().map(|x| x.net).sum();
        let weighted = sums.iter().map(|x| x.weighted).sum();
        Corrected {
            unallocated: take_wh - net,
            weighted,
        }
    }

    // These U and W, unless W is below 1 or the size of U × 1,000,000 is above g × W.
    #[tactic(auto, unfolding(crate::specs::Correction::exceeds_tolerance))]
    fn within(self, tolerance: u32) -> Result<WithinTolerance, Refusal>
        requires { ToleranceArguments tolerance self }
        ensures number { number_given result ≡ cause_of tolerance self }
        ensures same { IfOk result (λ within. within.corrected ≡ self) }
    {
        if self.weighted < 1 {
            return Err(Refusal::WeightedBelowOne);
        }
        let most = u64::from(tolerance) * self.weighted.unsigned_abs();
        if most < self.unallocated.unsigned_abs() * 1_000_000 {
            return Err(Refusal::ToleranceExceeded);
        }
        Ok(WithinTolerance { corrected: self })
    }
}

// Corrects the sums of the 32 units to the Take: writes their volumes to the first 32 words of the slice. Each is its share rounded
// down, and the Wh that lack are handed out.
pub fn correct_units(
    take_wh: i64,
    tolerance: u32,
    sums: &[UnitSums; 32],
    volumes: &mut [i64],
) -> Result<Corrected, Refusal>
    requires { CorrectArguments take_wh tolerance sums.now volumes.old }
    ensures { CorrectionGives take_wh tolerance sums.now volumes.old result volumes.new }
{
    let corrected = Corrected::of(take_wh, sums);
    let within = corrected.within(tolerance)?;
    let part = &mut volumes[0..32];
    let fractions = share_down(within, sums, part);
    let shared: i64 = part.iter().sum();
    let lack = (take_wh - shared).unsigned_abs();
    hand_out(part, &fractions, lack);
    Ok(corrected)
}
