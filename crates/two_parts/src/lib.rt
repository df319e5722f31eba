// Rows in two rising parts, as a list of calls keeps them while it is made.
#![tactic(auto)]

ghost use Rattle.std.specs.Prelude.{◌≡◌, ◌+◌, ◌≤◌, ◌<◌};
ghost use Rattle.book.specs.Helpers.{RowsReady};
ghost use Rattle.two_parts.specs.TwoParts.{as_one, later_most, PartsReady};

use crate::merge::with_room;

pub mod apart;
pub mod merge;
pub mod rows;
pub mod store;

// At how many rows the second part is merged into the first. More rows would move at each insertion; fewer would be merged more often.
pub const LATER_MAX: usize = 512;

// Rows that are lent in two parts, one behind the other: `first` rows and then `later` rows. Both rise, and no meter stands in both.
// Row `near` of the first part is a reading's own to try before a search, and row `near_other` a registration's; each tries the other's too.
// Lists are often in order of MPAN, so each is the row after the one that a call of its kind found last. It spares a search and changes no
// answer: any row is right.
#[derive(Drop)]
pub struct Parts<'a> {
    rows: &'a mut [u64],
    pub first: usize,
    pub later: usize,
    near: usize,
    near_other: usize,
    pub ghost ready: { PartsReady first later rows.now },
    pub ghost short: { later < later_most },
}

impl<'a> Parts<'a> {
    // The rows of a book as the first part, with none in the second.
    // Kept: the words and how many rows are in use come side by side, as in `book::rows`.
    #[tactic(auto, using(crate::proofs::AsOne::begun))]
    pub fn new(rows: &'a mut [u64], meters: usize) -> Parts<'a>
        requires { RowsReady meters rows.old }
        ensures same_slice { result.rows.ghost_name ≡ rows.entry.ghost_name }
        ensures rows { result.rows.now ≡ rows.old }
        ensures first { result.first ≡ meters }
        ensures later { result.later ≡ 0 }
    {
        Parts {
            rows,
            first: meters,
            later: 0,
            near: 0,
            near_other: 0,
        }
    }

    // Rows that stand in two parts. Where the second has its most rows, they are merged.
    #[tactic(auto, using(crate::proofs::AsOne::ends))]
    pub fn in_two(rows: &'a mut [u64], first: usize, later: usize) -> Parts<'a>
        requires parts { PartsReady first later rows.old }
        requires short { later ≤ later_most }
        ensures same_slice { result.rows.ghost_name ≡ rows.entry.ghost_name }
        ensures same_rows { as_one result.first result.later result.rows.now ≡ as_one first later rows.old }
        ensures meters { result.first + result.later ≡ first + later }
    {
        let meters = first + later;
        let first = with_room(rows, first, meters);
        Parts {
            rows,
            first,
            later: meters - first,
            near: 0,
            near_other: 0,
        }
    }
}
