// Signed whole numbers: division rounded down, thousandths rounded to the nearest whole, and U × a / W with nothing lost.
#![tactic(auto)]

ghost use Rattle.std.specs.Prelude.{◌≡◌, ◌≤◌, ◌*◌, ◌/◌, ◌^◌, pos, nat_abs, ◌+ℤ◌, ◌*ℤ◌, ◌<ℤ◌};
ghost use Rattle.integers.specs.Quotient.{quotient_of};
ghost use Rattle.integers.specs.Rounding.{rounded_of};
ghost use Rattle.integers.specs.Helpers.{energy_most, ShareArguments, DigitArguments};

// A quotient rounded down, and the fraction above it, times the divisor.
#[derive(Clone, Copy)]
pub struct Quotient {
    pub floor: i64,
    pub fraction: u64,
}

// x / d rounded toward minus infinity, and the fraction above it. The processor's quotient is toward zero: where its remainder is
// below 0, the floor is one less and the fraction d more.
// Kept: with `div_euclid` and `rem_euclid`, which divide twice and branch on the sign of x, a quotient took 1.4 to 1.8 times as long.
fn floor_quotient(x: i64, d: i64) -> Quotient
    requires { pos 0 <ℤ d }
    ensures { result ≡ quotient_of x (nat_abs d) }
{
    // Kept: `as`, which is proved to lose nothing, where `cast_unsigned` would take a number below 0 too.
    let quotient = x / d;
    let remainder = x % d;
    if remainder < 0 {
        return Quotient {
            floor: quotient - 1,
            fraction: (remainder + d) as u64,
        };
    }
    Quotient {
        floor: quotient,
        fraction: remainder as u64,
    }
}

// Thousandths of a Wh rounded: the whole Wh, and the thousandths that were dropped.
#[derive(Clone, Copy)]
pub struct Rounded {
    pub wh: i64,
    pub dropped: i64,
}

// Thousandths of a Wh to the nearest Wh, halves away from zero, and what is dropped so. The remainder has the sign of the
// thousandths: half a Wh or more of it is one Wh more of that sign. The rounded Wh are not multiplied, since their thousandths can
// leave the range. The compiler makes the two tests without a branch: the processor could not guess the signs of losses.
pub fn nearest_wh(thousandths: i64) -> Rounded
    ensures { result ≡ rounded_of thousandths }
{
    let whole = thousandths / 1000;
    let rest = thousandths % 1000;
    let away = if rest < -499 {
        -1
    } else if 499 < rest {
        1
    } else {
        0
    };
    Rounded {
        wh: whole + away,
        dropped: rest - 1000 * away,
    }
}

// One more digit of the first factor, in base 2,048, after `done`, the quotient of what the digits before it give.
// Kept: a and w are passed side by side, here and below, as `share_quotient` gets them, out of two structs of its caller: a struct of the two
// would be made there and taken apart here. It would say three bounds once that stand in two records, for a type more.
#[tactic(auto, using(crate::proofs::Digit::digit_sums))]
fn next_digit(done: Quotient, digit: u64, a: i64, w: i64) -> Quotient
    requires { DigitArguments done digit a w }
    ensures { result ≡ quotient_of ((done.floor *ℤ w +ℤ pos done.fraction) *ℤ pos 2048 +ℤ pos digit *ℤ a) (nat_abs w) }
{
    // Kept: `as`, which is proved to lose nothing, where `cast_signed` would take a number of 2^63 and above too.
    let left = done.fraction as i64 * 2048 + digit as i64 * a;
    let step = floor_quotient(left, w);
    Quotient {
        floor: done.floor * 2048 + step.floor,
        fraction: step.fraction,
    }
}

// How many digits of m in base 2,048 there are to take: those above are 0. A U of up to 4,194,303 Wh has two.
fn digit_count(m: u64) -> u64
    requires { m ≤ energy_most }
    ensures { (result ≤ 4) × (m / 2 ^ (11 * result) ≡ 0) }
{
    if m < 2048 {
        return 1;
    }
    if m < 4194304 {
        return 2;
    }
    4
}

// m × a / w. The product can pass 10^27, so it is never formed: the digits of m in base 2,048 are taken one at a time, the highest first.
// Kept: i128 proves, with `div_euclid` and `rem_euclid` or `/` and `%`, but for a U of two digits and W past 2^32 it took 1.08 to 1.38 of this time.
fn product_quotient(m: u64, a: i64, w: i64) -> Quotient
    requires { ShareArguments (pos m) a w }
    ensures { result ≡ quotient_of (pos m *ℤ a) (nat_abs w) }
{
    let mut done = Quotient {
        floor: 0,
        fraction: 0,
    };
    for i in (0..digit_count(m)).rev() {
        done = next_digit(done, (m >> (11 * i)) % 2048, a, w);
    }
    done
}

// U × a / W rounded down, with its fraction. The digits taken are those of |U|, so the sign of U goes to a.
pub fn share_quotient(u: i64, a: i64, w: i64) -> Quotient
    requires { ShareArguments u a w }
    ensures { result ≡ quotient_of (u *ℤ a) (nat_abs w) }
{
    let signed = if u < 0 { -a } else { a };
    product_quotient(u.unsigned_abs(), signed, w)
}
