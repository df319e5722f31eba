// The words of a row. A registration and a reading are packed into a word, and taken out of it, by shifts and masks.
#![tactic(auto)]

ghost use Rattle.std.specs.Prelude.{◌≡◌, true, ◌+◌, ◌*◌, ◌^◌, ◌≤◌};
ghost use Rattle.words.specs.Limits.{direction_most, network_most};
ghost use Rattle.words.specs.Mpan.{is_mpan};
ghost use Rattle.words.specs.Registration.{direction_of, network_of, unit_of, registration_of, registration_word, registration_in_range, is_registration};
ghost use Rattle.words.specs.Reading.{reading_of, reading_word, reading_in_range, quality_allowed, is_actual, is_reading};

pub mod field;

use field::Field;

pub const MPAN_MIN: u64 = 1_000_000_000_000;

pub const MPAN_MAX: u64 = 9_999_999_999_999;

// Word 2 of a meter that has no reading.
// Kept: a number, and no Option, since C programs hold word 2 as one.
pub const NO_READING: u64 = 0;

// How a meter is registered, as numbers of the full width, so that one out of range is seen and never cut.
// Kept: `flag` and `additional` are two numbers, and no Option, since a C program passes them, and any number that it passes has to be
// seen: a unit under a flag that is not set is refused.
// Kept: the segment, the direction and the status are numbers, and no enums, for the same reason.
#[repr(C)]
#[derive(Clone, Copy)]
pub struct Registration {
    pub segment: u64,
    pub direction: u64,
    pub status: u64,
    pub base: u64,
    pub flag: u64,
    pub additional: u64,
    pub category: u64,
    pub llf: u64,
    pub network: u64,
    pub tariff: u64,
}

// A reading: its issue number, its quality code and the consumption in Wh.
// Kept: the quality is a number, and no enum, since a C program passes it, and a code that is not in use has to be seen and refused.
#[repr(C)]
#[derive(Clone, Copy)]
pub struct Reading {
    pub issue: u64,
    pub quality: u64,
    pub consumption: u64,
}

// Whether m is in the range of an MPAN.
#[tactic(auto, unfolding(crate::specs::Mpan::is_mpan))]
pub fn is_mpan(m: u64) -> bool
    ensures { result ≡ is_mpan m }
{
    (MPAN_MIN..=MPAN_MAX).contains(&m)
}

// The unit that a meter's energy goes to: the additional one if there is one, else the base one.
#[tactic(auto, unfolding(crate::specs::Registration::unit_of))]
pub fn unit(w: u64) -> u64
    ensures { result ≡ unit_of w }
{
    if Field::FLAG.of(w) == 1 {
        Field::ADDITIONAL.of(w)
    } else {
        Field::BASE.of(w)
    }
}

// The direction and the network of a word, each at its place, and 0 elsewhere. A pass over all rows compares the two at once.
pub fn charged(w: u64) -> u64
    ensures { result ≡ direction_of w * 2 ^ 2 + network_of w * 2 ^ 33 }
{
    charged_to(Field::DIRECTION.of(w), Field::NETWORK.of(w))
}

// The same for a direction and a network by themselves.
pub fn charged_to(direction: u64, network: u64) -> u64
    requires direction_bound { direction ≤ direction_most }
    requires network_bound { network ≤ network_most }
    ensures { result ≡ direction * 2 ^ 2 + network * 2 ^ 33 }
{
    let placed = Field::DIRECTION.put(0, direction);
    Field::NETWORK.put(placed, network)
}

impl Registration {
    pub const SEGMENT_MAX: u64 = 2;

    pub const DIRECTION_MAX: u64 = 1;

    pub const STATUS_MAX: u64 = 2;

    pub const UNIT_MAX: u64 = 31;

    pub const CATEGORY_MAX: u64 = 63;

    pub const LLF_MIN: u64 = 500;

    pub const LLF_MAX: u64 = 2_000;

    pub const NETWORK_MAX: u64 = 63;

    pub const TARIFF_MAX: u64 = 1_023;

    // Whether each field is in its range.
    #[tactic(auto, unfolding(crate::specs::Registration::registration_in_range))]
    pub fn in_range(self) -> bool
        ensures { result ≡ registration_in_range self }
    {
        (self.segment <= Self::SEGMENT_MAX)
            & (self.direction <= Self::DIRECTION_MAX)
            & (self.status <= Self::STATUS_MAX)
            & (self.base <= Self::UNIT_MAX)
            & (((self.flag == 0) & (self.additional == 0))
                | ((self.flag == 1) & (self.additional <= Self::UNIT_MAX)))
            & (self.category <= Self::CATEGORY_MAX)
            & (Self::LLF_MIN..=Self::LLF_MAX).contains(&self.llf)
            & (self.network <= Self::NETWORK_MAX)
            & (self.tariff <= Self::TARIFF_MAX)
    }

    // The word of these fields.
    #[tactic(auto, using(crate::proofs::Ranges::bounds), unfolding(crate::specs::Registration::registration_word))]
    pub fn pack(self) -> u64
        requires { registration_in_range self ≡ true }
        ensures { result ≡ registration_word self }
    {
        // Each name says up to which field the word is filled.
        let to_direction = Field::DIRECTION.put(self.segment, self.direction);
        let to_status = Field::STATUS.put(to_direction, self.status);
        let to_base = Field::BASE.put(to_status, self.base);
        let to_flag = Field::FLAG.put(to_base, self.flag);
        let to_additional = Field::ADDITIONAL.put(to_flag, self.additional);
        let to_category = Field::CATEGORY.put(to_additional, self.category);
        let to_llf = Field::LLF.put(to_category, self.llf);
        let to_network = Field::NETWORK.put(to_llf, self.network);
        Field::TARIFF.put(to_network, self.tariff)
    }

    // The fields of a word.
    // Kept: no `From<u64>`, which is no plainer: this is the other half of `pack`, which is asked only of fields in range and so can be no `From`.
    #[tactic(auto, unfolding(crate::specs::Registration::registration_of))]
    pub fn unpack(w: u64) -> Registration
        ensures { result ≡ registration_of w }
    {
        Registration {
            segment: Field::SEGMENT.of(w),
            direction: Field::DIRECTION.of(w),
            status: Field::STATUS.of(w),
            base: Field::BASE.of(w),
            flag: Field::FLAG.of(w),
            additional: Field::ADDITIONAL.of(w),
            category: Field::CATEGORY.of(w),
            llf: Field::LLF.of(w),
            network: Field::NETWORK.of(w),
            tariff: Field::TARIFF.of(w),
        }
    }
}

// The numbers that the six bits of the flag and the additional unit may be, the flag lowest: bit x is set if x is 0 or odd.
const ADDITIONAL_FIELDS: u64 = 12_297_829_382_473_034_411;

// Whether w is a well-formed word 1. Every number that fits in the bits of a unit, of the category, of the network or of the tariff
// is in range. A segment or a status of 3 has two bits set side by side: bits 0 and 1, or 3 and 4. Each test has a return of its own,
// so that the compiler keeps what it needs beside it: the test of a book is mostly this one and that of word 2, and a joined test
// takes a fifth longer.
pub fn is_registration(w: u64) -> bool
    ensures { result ≡ is_registration w }
{
    if w >> 49 != 0 {
        return false;
    }
    let low = Field::BELOW_BASE.of(w);
    if (low & (low >> 1)) & 9 != 0 {
        return false;
    }
    let flagged = Field::FLAG_AND_ADDITIONAL.of(w);
    let allowed = ADDITIONAL_FIELDS >> flagged;
    if allowed % 2 == 0 {
        return false;
    }
    let llf = Field::LLF.of(w);
    (Registration::LLF_MIN..=Registration::LLF_MAX).contains(&llf)
}

// The actual codes, a bit for each: those up to AAE3, E2 and E6.
const ACTUAL_CODES: u64 = ((2 << Reading::QUALITY_AAE3) - 1)
    | (1 << Reading::QUALITY_E2)
    | (1 << Reading::QUALITY_E6);

// Whether the code q is actual. It is asked of every meter, so the codes are looked up as bits. A word's code has five bits, so that
// there the compiler leaves the first test out.
pub fn is_actual(q: u64) -> bool
    ensures { result ≡ is_actual q }
{
    if q > 31 {
        return false;
    }
    (ACTUAL_CODES >> q) % 2 == 1
}

impl Reading {
    pub const CONSUMPTION_MAX: u64 = 10_000_000;

    pub const QUALITY_MAX: u64 = 20;

    pub const ISSUE_MIN: u64 = 1;

    pub const ISSUE_MAX: u64 = 4_294_967_295;

    // Quality codes: the last of A to AAE3, three of E0 to E9, and the first and the last ZE.
    // Kept: numbers, as the quality of a reading is one.
    pub const QUALITY_AAE3: u64 = 6;

    pub const QUALITY_E2: u64 = 9;

    pub const QUALITY_E6: u64 = 13;

    pub const QUALITY_E7: u64 = 14;

    pub const QUALITY_ZE: u64 = 17;

    pub const QUALITY_ZE3: u64 = 20;

    // Whether each field is in its range.
    #[tactic(auto, unfolding(crate::specs::Reading::reading_in_range))]
    pub fn in_range(self) -> bool
        ensures { result ≡ reading_in_range self }
    {
        (Self::ISSUE_MIN..=Self::ISSUE_MAX).contains(&self.issue)
            & (self.quality <= Self::QUALITY_MAX)
            & (self.consumption <= Self::CONSUMPTION_MAX)
    }

    // Whether the code is in use here, and has no energy if it is a ZE.
    #[tactic(auto, unfolding(crate::specs::Reading::quality_allowed))]
    pub fn allowed(self) -> bool
        ensures { result ≡ quality_allowed self }
    {
        (self.quality != Self::QUALITY_E7)
            & (!(Self::QUALITY_ZE..=Self::QUALITY_ZE3).contains(&self.quality)
                | (self.consumption == 0))
    }

    // The word of these fields.
    #[tactic(auto, using(crate::proofs::Ranges::bounds), unfolding(crate::specs::Reading::reading_word))]
    pub fn pack(self) -> u64
        requires { reading_in_range self ≡ true }
        ensures { result ≡ reading_word self }
    {
        let to_quality = Field::QUALITY.put(self.consumption, self.quality);
        Field::ISSUE.put(to_quality, self.issue)
    }

    // The fields of a word.
    // Kept: no `From<u64>`, as with a registration.
    #[tactic(auto, unfolding(crate::specs::Reading::reading_of))]
    pub fn unpack(w: u64) -> Reading
        ensures { result ≡ reading_of w }
    {
        Reading {
            issue: Field::ISSUE.of(w),
            quality: Field::QUALITY.of(w),
            consumption: Field::CONSUMPTION.of(w),
        }
    }
}

// Whether w is a well-formed word 2: no reading, or one that could have been stored. A test of all rows is mostly this test, so
// the words of no reading and of the codes up to E6, with any energy, pass first; the other words are tested field by field.
#[tactic(auto, unfolding(crate::specs::Reading::is_reading))]
pub fn is_reading(w: u64) -> bool
    ensures { result ≡ is_reading w }
{
    let code = Field::QUALITY_AND_RESERVED.of(w);
    let wh = Field::CONSUMPTION.of(w);
    if (code <= Reading::QUALITY_E6)
        & (wh <= Reading::CONSUMPTION_MAX)
        & ((w >> 32 != 0) | (w == NO_READING))
    {
        return true;
    }
    let r = Reading::unpack(w);
    (w == NO_READING) | ((Field::RESERVED.of(w) == 0) & r.in_range() & r.allowed())
}
