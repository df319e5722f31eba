// From a slice of cells in thousandths of a Wh to a table of whole Wh: each cell rounded, and what that drops of the losses.
ghost use Rattle.std.specs.Prelude.{◌≡◌, ◌≤◌, ◌*◌, map, length};
ghost use Rattle.integers.specs.Rounding.{nearest_wh};
ghost use Rattle.book.specs.Limits.{classes};
ghost use Rattle.cells.specs.Cells.{units, count_from};
ghost use Rattle.correction.specs.Slice.{unit_cells, rounded_cells};
ghost use Rattle.correction.specs.Helpers.{droppings_of};

use crate::sums::by_direction;
use integers::nearest_wh;

// The 24 cells of a unit rounded, and the thousandths that rounding its losses dropped, import minus export. The classes go in pairs of
// one direction: consumption, and its losses.
fn round_unit(cells: &[i64; 24], rounded: &mut [i64; 24]) -> i64
    ensures cells { rounded.new ≡ map nearest_wh cells.now }
    ensures droppings { result ≡ droppings_of cells.now }
{
    let mut droppings = 0;
    for pair in 0..12 {
        let class = 2 * pair;
        let used = nearest_wh(cells[class]);
        let lost = nearest_wh(cells[class + 1]);
        rounded[class] = used.wh;
        rounded[class + 1] = lost.wh;
        droppings += by_direction(class, lost.dropped);
    }
    droppings
}

// The cells of the 32 units, which stand one unit after the other in the slice, rounded into a table; and the droppings of each unit.
// Kept: the caller lends the table. A table in the answer is copied, 6 KiB.
pub fn round_cells(cells: &[i64], table: &mut [[i64; 24]; 32]) -> [i64; 32]
    requires { classes * units ≤ length cells.now }
    ensures table { table.new ≡ map (rounded_cells cells.now) (count_from 0 units) }
    ensures droppings { result ≡ map (λ unit. droppings_of (unit_cells cells.now unit)) (count_from 0 units) }
{
    let mut droppings = [0i64; 32];
    let (rows, _) = cells.as_chunks::<24>();
    // Kept: tried with `enumerate` over `rows[..32]`, and no index was proved by itself: that its numbers are below 32 had to be told each time.
    for unit in 0..32 {
        droppings[unit] = round_unit(&rows[unit], &mut table[unit]);
    }
    droppings
}
