// Numbers as texts of digits.
ghost use Rattle.std.specs.Prelude.{◌≡◌, ◌^◌, ◌≤◌, ◌<◌, length, IfSome};
ghost use Rattle.period_file.specs.Numbers.{digits_of, number_of, signed_of};

pub const DIGITS_MAX: usize = 18;

const ZERO: u8 = b'0';

// The value of a text of digits. 18 of them stay below 10^18, so the sum never wraps.
// Kept: std's `parse` is no plainer: it takes a `str`, and a plus before the digits, which no number has and would have to be tested for.
#[tactic(auto, using(crate::proofs::Digits::digit_steps))]
fn read_digits(text: &[u8]) -> Option<u64>
    requires { length text.now ≤ 18 }
    ensures value { result ≡ digits_of text.now }
    ensures value_bound { IfSome result (λ n. n < 10 ^ 18) }
{
    let mut value = 0;
    for byte in text {
        if !byte.is_ascii_digit() {
            return None;
        }
        value = 10 * value + u64::from(*byte - ZERO);
    }
    Some(value)
}

// The number that a text is.
#[tactic(auto, unfolding(crate::specs::Numbers::number_of))]
pub fn number(text: &[u8]) -> Option<u64>
    ensures value { result ≡ number_of text.now }
    ensures value_bound { IfSome result (λ n. n < 10 ^ 18) }
{
    if text.is_empty() || DIGITS_MAX < text.len() {
        return None;
    }
    if let [ZERO, _, ..] = text {
        return None;
    }
    read_digits(text)
}

// The number that a text is, where a minus may stand before a number that is not 0.
// Kept: std's `parse` would take a plus, a minus before 0 and leading zeros.
#[tactic(auto, using(crate::proofs::Prefixes::signed_by_test))]
pub fn signed(text: &[u8]) -> Option<i64>
    ensures { result ≡ signed_of text.now }
{
    match text.strip_prefix(b"-") {
        Some(after_minus) => number(after_minus)
            .filter(|size| *size != 0)
            .map(|size| -size.cast_signed()),
        None => number(text).map(|size| size.cast_signed()),
    }
}
