// Where each field of a row's words stands. A field is read and put by shifts and masks.
#![tactic(auto)]

ghost use Rattle.std.specs.Prelude.{◌≡◌, ◌+◌, ◌*◌, ◌^◌, ◌<◌};
ghost use Rattle.words.specs.Registration.{bit_field};

// A field's first bit, and how many bits it has.
#[derive(Clone, Copy)]
pub struct Field {
    pub at: u64,
    pub width: u64,
    ghost starts: { at < 64 },
    ghost short: { width < 64 },
}

impl Field {
    // Word 1.
    pub const SEGMENT: Field = Field { at: 0, width: 2 };

    pub const DIRECTION: Field = Field { at: 2, width: 1 };

    pub const STATUS: Field = Field { at: 3, width: 2 };

    pub const BASE: Field = Field { at: 5, width: 5 };

    pub const FLAG: Field = Field { at: 10, width: 1 };

    pub const ADDITIONAL: Field = Field { at: 11, width: 5 };

    pub const CATEGORY: Field = Field { at: 16, width: 6 };

    pub const LLF: Field = Field { at: 22, width: 11 };

    // The embedded network, 0 for a meter that is on none.
    pub const NETWORK: Field = Field { at: 33, width: 6 };

    pub const TARIFF: Field = Field { at: 39, width: 10 };

    // The segment, the direction and the status together; and the flag with the additional unit.
    pub const BELOW_BASE: Field = Field { at: 0, width: 5 };

    pub const FLAG_AND_ADDITIONAL: Field = Field { at: 10, width: 6 };

    // Word 2. Between the quality and the issue are three bits that stay 0. The consumption is in Wh, and the issue is 0 where there is no
    // reading.
    pub const CONSUMPTION: Field = Field { at: 0, width: 24 };

    pub const QUALITY: Field = Field { at: 24, width: 5 };

    pub const RESERVED: Field = Field { at: 29, width: 3 };

    pub const QUALITY_AND_RESERVED: Field = Field { at: 24, width: 8 };

    pub const ISSUE: Field = Field { at: 32, width: 32 };

    // The number that a word has in this field.
    pub fn of(self, w: u64) -> u64
        ensures { result ≡ bit_field w self.at self.width }
    {
        (w >> self.at) & ((1 << self.width) - 1)
    }

    // The word w, which has nothing from this field on, with x put there.
    // Kept: no `From`, since it takes a word and the number of one field to put in it.
    pub fn put(self, w: u64, x: u64) -> u64
        requires below { w < 2 ^ self.at }
        requires room { x * 2 ^ self.at < 2 ^ 64 }
        ensures { result ≡ w + x * 2 ^ self.at }
    {
        w | (x << self.at)
    }
}
