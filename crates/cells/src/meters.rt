// The energy of a meter, and the class it goes to.
// Kept: registration and reading are passed as the two words that they are, and not as a `Held` of book: energy and class are defined over the
// words, apart from what stores them, and a row has them side by side already.
ghost use Rattle.std.specs.Prelude.{◌≡◌};
ghost use Rattle.cells.specs.Energy.{used_de_energised, source_of, shape_of, lacks_shape};
ghost use Rattle.cells.specs.Cells.{estimate_bit, class_of};
ghost use Rattle.cells.specs.Helpers.{shape_if_set, use_of};

use crate::{Source, Status, Use};
use words::field::Field;

// Whether a de-energised meter uses its reading: if there is one and its code is actual.
#[tactic(auto, unfolding(crate::specs::Energy::used_de_energised))]
fn used_de_energised(reading: u64) -> bool
    ensures { result ≡ used_de_energised reading }
{
    (reading != words::NO_READING) & words::is_actual(Field::QUALITY.of(reading))
}

// Where a meter's energy comes from.
// Kept: `if`, where a match on the status would stand: an allocation of 65,536 meters took 6.21 million instructions with one and 5.88 million so.
#[tactic(auto, using(crate::proofs::Statuses::by_status), unfolding(crate::specs::Energy::reading_source, crate::specs::Energy::used_de_energised))]
pub fn source(registration: u64, reading: u64) -> Source
    ensures { result ≡ source_of registration reading }
{
    let status = Status::of(registration);
    if matches!(status, Status::Energised) {
        if reading == words::NO_READING {
            Source::Defaulted
        } else if words::is_actual(Field::QUALITY.of(reading)) {
            Source::Actual
        } else {
            Source::Estimated
        }
    } else if matches!(status, Status::DeEnergised) && used_de_energised(reading) {
        Source::Actual
    } else {
        Source::Idle
    }
}

// The shape of a meter's category in Wh, if it is set.
fn shape(shapes: &[u32; 64], registration: u64) -> Option<u64>
    ensures { result ≡ shape_if_set (shape_of shapes.now registration) }
{
    // Kept: `as`, since there is no `From` of a u64 for an index.
    let wh = u64::from(shapes[Field::CATEGORY.of(registration) as usize]);
    if wh == book::Settings::SHAPE_MISSING {
        None
    } else {
        Some(wh)
    }
}

// Whether a meter is defaulted and its shape is missing: what `use_of` tells of it, for a caller that asks nothing else. Nearly every
// meter has a reading, so that is looked at first.
#[tactic(auto, using(crate::proofs::Statuses::by_status), unfolding(crate::specs::Energy::reading_source, crate::specs::Energy::lacks_shape_from))]
pub fn lacks_shape(shapes: &[u32; 64], registration: u64, reading: u64) -> bool
    ensures { result ≡ lacks_shape shapes.now registration reading }
{
    reading == words::NO_READING
        && matches!(Status::of(registration), Status::Energised)
        && shape(shapes, registration).is_none()
}

// What a meter comes to under these shapes.
#[tactic(auto, unfolding(crate::specs::Energy::energy_wh, crate::specs::Energy::energy_from, crate::specs::Energy::shape_wh, crate::specs::Energy::lacks_shape_from))]
pub fn use_of(shapes: &[u32; 64], registration: u64, reading: u64) -> Use
    ensures { result ≡ use_of shapes.now registration reading }
{
    let source = source(registration, reading);
    let wh = match source {
        Source::Actual | Source::Estimated => Some(Field::CONSUMPTION.of(reading)),
        Source::Defaulted => shape(shapes, registration),
        Source::Idle => Some(0),
    };
    Use { source, wh }
}

// The class of a meter's consumption, from its registration and where its energy comes from.
#[tactic(auto, using(crate::proofs::RowBounds::few))]
pub fn class(registration: u64, source: Source) -> u64
    ensures { result ≡ class_of (estimate_bit source) registration }
{
    8 * Field::SEGMENT.of(registration)
        + 4 * Field::DIRECTION.of(registration)
        + 2 * source.estimate_bit()
}
