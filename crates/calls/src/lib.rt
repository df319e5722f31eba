// The calls that write the book, and keep up its running cells. Each tests what it is lent first, then its arguments, and gives the first
// refusal that applies; `make` takes a book and cells that were tested.
#![tactic(auto)]

use book::Setting;
use words::{Reading, Registration};

pub mod make;
pub mod rows;
pub mod store;

// A call with its arguments, wherever it comes from: a function call, the words of a list, or a line of a period file.
#[derive(Clone, Copy)]
pub enum Call {
    Register {
        mpan: u64,
        registration: Registration,
    },
    Record {
        mpan: u64,
        reading: Reading,
    },
    Set(Setting),
}
