//! Functions that visit an image pixel by pixel: exchanging two rows, painting a checkerboard, and summing a row. Each
//! loop has one invariant, which states the contract as far as the loop has come.
#![tactic(auto, using(nd_array_core::proofs::AxesOfDimensionTypes::known_axes))]

ghost use Rattle.std.specs.Prelude.{◌≡◌, ◌<◌};
ghost use Rattle.nd_array_core.specs.Prelude.{rows_of, columns_of, table_of, table_of_cells, row_of, with_rows_exchanged, ShowsTable};
ghost use Rattle.uses_nd_array_core.specs.RowsColumnsAndBorders.{chequered};
ghost use Rattle.uses_nd_array_core.specs.NumberSums.{line_sum};

use nd_array_core::prelude::*;

/// Exchanges two rows of an image.
#[tactic(auto, using(std::proofs::lemmas::Bool::Decides::nat_tests, nd_array_core::proofs::AxesOfDimensionTypes::known_axes))]
pub fn swap_rows<S: DataMut>(image: &mut ArrayBase<S, Ix2>, first: usize, second: usize)
    requires first { first < rows_of image.old }
    requires second { second < rows_of image.old }
    ensures { ShowsTable image.new (with_rows_exchanged first second (table_of image.old)) }
{
    let columns = image.ncols();
    for column in 0..columns {
        image.swap([first, column], [second, column]);
    }
}

/// Paints a checkerboard: a pixel gets the colour `even` if the sum of its row and its column is even, and `odd`
/// otherwise.
#[tactic(auto, using(std::proofs::lemmas::Bool::Decides::nat_tests))]
pub fn checkerboard<A: Copy + Drop, S: DataMut<Elem = A>>(
    image: &mut ArrayBase<S, Ix2>,
    even: A,
    odd: A,
)
    ensures { ShowsTable image.new (table_of_cells (rows_of image.old) (columns_of image.old) (chequered even odd)) }
{
    let (rows, columns) = image.dim();
    for row in 0..rows {
        for column in 0..columns {
            image[[row, column]] = if (row + column) % 2 == 0 { even } else { odd };
        }
    }
}

/// Returns the sum of a row, modulo 2 to the 64th.
pub fn row_sum<S: Data<Elem = u64>>(image: &ArrayBase<S, Ix2>, row: usize) -> u64
    requires { row < rows_of image.now }
    ensures { result ≡ line_sum (row_of row (table_of image.now)) }
{
    let columns = image.ncols();
    let mut total: u64 = 0;
    for column in 0..columns {
        total = total.wrapping_add(image[[row, column]]);
    }
    total
}
