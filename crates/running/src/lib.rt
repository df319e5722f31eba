// The slice of running cells that is lent beside the rows: the test of its limits, and the changes that calls make in it.
#![tactic(auto)]

ghost use Rattle.std.specs.Prelude.{◌≡◌};
ghost use Rattle.running.specs.Ready.{CellsReady};

pub mod lent;
pub mod limits;
pub mod meters;
pub mod shape;

// How many words of the slice are used, and how many of them, the first ones, are cells. Then stand the four counts, and from
// WAITING_WORDS on a number for each category.
pub const SLICE_WORDS: usize = 836;

pub const CELL_WORDS: usize = 768;

pub const WAITING_WORDS: usize = 772;

// What the sizes of the cells may add up to, and what a count or a waiting number may be.
pub const CELL_SIZES_MAX: u64 = 1_310_720_000_000_000;

pub const COUNT_MAX: i64 = 4_294_967_295;

// A slice that was tested, while calls keep it up. The sizes of its cells, added up, are at most `most`: to add them up exactly at each call
// of a list would cost more than the call.
#[derive(Drop)]
pub struct RunningCells<'a> {
    cells: &'a mut [i64],
    most: u64,
    pub ghost ready: { CellsReady cells.now most },
}

impl<'a> RunningCells<'a> {
    // A slice whose test gave this size.
    pub fn new(cells: &'a mut [i64], size: u64) -> RunningCells<'a>
        requires { CellsReady cells.old size }
        ensures same_slice { result.cells.ghost_name ≡ cells.entry.ghost_name }
        ensures cells { result.cells.now ≡ cells.old }
    {
        RunningCells { cells, most: size }
    }
}
