// The state of the book of one GSP Group and one Settlement Period: its settings and its rows, the test that they are well formed, how a
// setting is replaced, and where a row stands or is put.
#![tactic(auto)]

ghost use Rattle.std.specs.Prelude.{◌≡◌};
ghost use Rattle.book.specs.Settings.{fresh_settings};
ghost use Rattle.book.specs.Helpers.{answer_of};

use refusals::{Refusal, number_given};

pub mod formed;
pub mod ranges;
pub mod replace;
pub mod rows;

// The settings, passed in and returned. Whatever bytes a C program passes are numbers that the contracts speak of, and the order of
// the fields leaves no padding.
// Kept: the C interface has the Take's flag beside its value, and a program may pass any number for it, so that it is no Option or bool.
// Kept: how many weights and shapes there are stands in their types as a number, and not as CLASSES and CATEGORIES: the check of the
// interface reads it there (`interface/drift/laid_out.awk`), and a length is a usize, but the classes and categories of calls are u64.
#[repr(C)]
#[derive(Clone, Copy)]
pub struct Settings {
    pub meters: usize,
    pub weights: [u32; 24],
    pub shapes: [u32; 64],
    pub tolerance: u32,
    pub take_set: u32,
    pub take_wh: i64,
}

// What a C program is answered by a call that writes the book: 0 or the number of its refusal, and the settings.
// Kept: the C interface has this struct; the calls themselves give a Result.
#[repr(C)]
#[derive(Clone, Copy)]
pub struct Answer {
    pub number: u64,
    pub settings: Settings,
}

impl Answer {
    // The answer to a call that was handed these settings. On a refusal they are handed back as given.
    pub fn of(settings: Settings, outcome: Result<Settings, Refusal>) -> Answer
        ensures { result ≡ answer_of settings outcome }
    {
        Answer {
            number: number_given(&outcome),
            settings: outcome.unwrap_or(settings),
        }
    }
}

// One of the four settings that a call replaces, with its new value.
#[derive(Clone, Copy)]
pub enum Setting {
    Shape { category: u64, wh: u64 },
    Weight { class: u64, thousandths: u64 },
    Tolerance(u64),
    GroupTake(i64),
}

// What a meter holds: words 1 and 2 of its row.
#[derive(Clone, Copy)]
pub struct Held {
    pub registration: u64,
    pub reading: u64,
}

impl Settings {
    pub const METERS_MAX: usize = 65_536;

    pub const CLASSES: u64 = 24;

    pub const WEIGHT_MAX: u64 = 1_000;

    pub const CATEGORIES: u64 = 64;

    pub const SHAPE_MAX: u64 = 10_000_000;

    // Kept: a number for a missing shape, and no Option, since C programs hold the shapes as numbers.
    pub const SHAPE_MISSING: u64 = 4_294_967_295;

    pub const TOLERANCE_MAX: u64 = 1_000;

    pub const TAKE_MIN: i64 = -5_000_000_000;

    pub const TAKE_MAX: i64 = 5_000_000_000;

    // The two numbers that the flag of the Take may be.
    // Kept: numbers, and no bool, since the flag is a number in the C interface.
    pub const TAKE_FLAG_UNSET: u32 = 0;

    pub const TAKE_FLAG_SET: u32 = 1;

    // The settings of a fresh book.
    // Kept: `as`, which is proved to lose nothing: the two constants are u64, as what calls are given, and settings hold u32, for which there
    // is no `From` of a u64.
    pub fn fresh() -> Settings
        ensures { result ≡ fresh_settings }
    {
        Settings {
            meters: 0,
            weights: [0; 24],
            shapes: [Self::SHAPE_MISSING as u32; 64],
            tolerance: Self::TOLERANCE_MAX as u32,
            take_set: Self::TAKE_FLAG_UNSET,
            take_wh: 0,
        }
    }
}
