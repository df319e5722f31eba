// Rows in two parts, as those in which a call stores.
ghost use Rattle.two_parts.specs.Apart.{lent_parts};

use crate::Parts;
use calls::rows::Rows;
use refusals::Refusal;
use running::RunningCells;
use words::{Reading, Registration};

// Kept: all pass on to the methods of `Parts`, which ask nothing of the rows and promise more than a call needs (`border`).
impl Rows for Parts<'_> {
    ghost lent_rows = { λ p. lent_parts p };

    #[tactic(auto, using(crate::proofs::AsOne::as_lent))]
    fn register(
        &mut self,
        mpan: u64,
        registration: Registration,
        shapes: &[u32; 64],
        cells: &mut RunningCells<'_>,
    ) -> Result<usize, Refusal> {
        Parts::register(self, mpan, registration, shapes, cells)
    }

    #[tactic(auto, using(crate::proofs::AsOne::as_lent))]
    fn record(
        &mut self,
        mpan: u64,
        reading: Reading,
        shapes: &[u32; 64],
        cells: &mut RunningCells<'_>,
    ) -> Result<usize, Refusal> {
        Parts::record(self, mpan, reading, shapes, cells)
    }

    #[tactic(auto, using(crate::proofs::AsOne::as_lent))]
    fn all(&self) -> &[[u64; 3]] {
        Parts::all(self)
    }
}
