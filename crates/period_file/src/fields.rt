// The fields of a text, by commas, and the numbers in them.
ghost use Rattle.std.specs.Prelude.{◌≡◌};
ghost use Rattle.period_file.specs.Fields.{starts_with, field_count, field, number_at, two_numbers, additional_of, additional_at};

use crate::numbers::number;

const COMMA: u8 = b',';

// Whether a line starts with these bytes.
#[tactic(auto, using(crate::proofs::Prefixes::prefix_test))]
pub fn starts_with(line: &[u8], key: &[u8]) -> bool
    ensures { result ≡ starts_with key.now line.now }
{
    line.strip_prefix(key).is_some()
}

// How many fields a text has: one more than it has commas.
pub fn field_count(text: &[u8]) -> usize
    ensures { result ≡ field_count text.now }
{
    text.split(|byte| *byte == COMMA).count()
}

// The field after so many commas, which is empty where there are fewer.
pub(crate) fn field_at(text: &[u8], place: usize) -> &[u8]
    ensures { result.now ≡ field place text.now }
{
    text.split(|byte| *byte == COMMA).nth(place).unwrap_or(&[])
}

// The number in a field.
#[tactic(auto, unfolding(crate::specs::Fields::number_at))]
pub fn number_at(text: &[u8], place: usize) -> Option<u64>
    ensures { result ≡ number_at place text.now }
{
    number(field_at(text, place))
}

// The numbers of a text of two fields.
#[tactic(auto, unfolding(crate::specs::Fields::two_numbers))]
pub(crate) fn two_numbers(text: &[u8]) -> Option<(u64, u64)>
    ensures { result ≡ two_numbers text.now }
{
    if field_count(text) != 2 {
        return None;
    }
    Some((number_at(text, 0)?, number_at(text, 1)?))
}

// The additional unit in a text: a minus alone is none.
#[tactic(auto, unfolding(crate::specs::Fields::additional_of))]
pub(crate) fn additional(text: &[u8]) -> Option<Option<u64>>
    ensures { result ≡ additional_of text.now }
{
    match text {
        b"-" => Some(None),
        _ => number(text).map(Some),
    }
}

// The additional unit in a field.
#[tactic(auto, unfolding(crate::specs::Fields::additional_at))]
pub fn additional_at(text: &[u8], place: usize) -> Option<Option<u64>>
    ensures { result ≡ additional_at place text.now }
{
    additional(field_at(text, place))
}
