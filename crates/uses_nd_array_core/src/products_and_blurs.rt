//! New matrices of what a closure returns for each row and column: a matrix product and a blurred image. Both contracts
//! state the cell at each row and column, and both proofs are the same one line.
#![tactic(auto, using(nd_array_core::proofs::AxesOfDimensionTypes::known_axes))]

ghost use Rattle.std.specs.Prelude.{◌≡◌, ◌<◌, ◌≤◌, [], ◌∷◌, IfOk};
ghost use Rattle.nd_array_core.specs.Prelude.{shape_of, rows_of, columns_of, table_of, HasRowsAndColumns, HasCellsOf, HasCheckedSize};
ghost use Rattle.uses_nd_array_core.specs.MatrixProductsAndBlurs.{product_cell, product_of, three_of, mean_around, means_of};

use nd_array_core::laws::shape_is_checked;
use nd_array_core::prelude::*;
use std::alloc::Global;

/// Returns the cell of the matrix product at `row` and `column`: the sum of the products of the elements of that row of
/// `one` and that column of `other`, modulo 2 to the 64th.
#[tactic(auto, using(nd_array_core::proofs::AxesOfDimensionTypes::rows_and_columns))]
fn product_at<S: Data<Elem = u64>, Z: Data<Elem = u64>>(
    one: &ArrayBase<S, Ix2>,
    other: &ArrayBase<Z, Ix2>,
    row: usize,
    column: usize,
) -> u64
    requires inner { columns_of one.now ≡ rows_of other.now }
    requires row { row < rows_of one.now }
    requires column { column < columns_of other.now }
    ensures { result ≡ product_cell (table_of one.now) (table_of other.now) row column }
{
    let inner = one.ncols();
    let mut total: u64 = 0;
    for k in 0..inner {
        total = total.wrapping_add(one[[row, k]].wrapping_mul(other[[k, column]]));
    }
    total
}

/// Returns the product of two matrices, modulo 2 to the 64th.
pub fn product<S: Data<Elem = u64>, Z: Data<Elem = u64>>(
    alloc: Global,
    one: &ArrayBase<S, Ix2>,
    other: &ArrayBase<Z, Ix2>,
) -> Result<Array2<u64>, NoMemory>
    requires inner { columns_of one.now ≡ rows_of other.now }
    requires checked { HasCheckedSize (rows_of one.now ∷ columns_of other.now ∷ []) }
    ensures shape { IfOk result (λ c. HasRowsAndColumns c (rows_of one.now) (columns_of other.now)) }
    ensures cells { IfOk result (λ c. HasCellsOf c (product_of (table_of one.now) (table_of other.now))) }
{
    let rows = one.nrows();
    let columns = other.ncols();
    Array::from_shape_fn(
        alloc,
        (rows, columns),
        |(row, column)| product_at(one, other, row, column),
    )
}

/// Returns the number of rows and the number of columns of an image. Its contract also says that the product of the
/// lengths other than 0 fits an `isize`, as a new array of that shape requires.
fn sides<S: Data>(image: &ArrayBase<S, Ix2>) -> (usize, usize)
    ensures shape { HasRowsAndColumns image.now result.0 result.1 }
    ensures checked { HasCheckedSize (result.0 ∷ result.1 ∷ []) }
{
    shape_is_checked(image);
    image.dim()
}

/// Returns the sum of the pixel at `row` and `column`, the pixel before it in its row, and the pixel after it. At both
/// ends of the row, the pixel itself takes the place of a missing neighbour.
fn three_pixels<S: Data<Elem = u8>>(image: &ArrayBase<S, Ix2>, row: usize, column: usize) -> u64
    requires row { row < rows_of image.now }
    requires column { column < columns_of image.now }
    ensures sum { result ≡ three_of (table_of image.now) row column }
    ensures bound { result ≤ 765 }
{
    let columns = image.ncols();
    let before = image[[row, column.saturating_sub(1)]] as u64;
    let here = image[[row, column]] as u64;
    let after = image[[row, (column + 1).min(columns - 1)]] as u64;
    before + here + after
}

/// Returns the mean of the pixel at `row` and `column` and of its eight neighbours, rounded down.
fn mean_at<S: Data<Elem = u8>>(image: &ArrayBase<S, Ix2>, row: usize, column: usize) -> u8
    requires row { row < rows_of image.now }
    requires column { column < columns_of image.now }
    ensures { result ≡ mean_around (table_of image.now) row column }
{
    let rows = image.nrows();
    let above = three_pixels(image, row.saturating_sub(1), column);
    let here = three_pixels(image, row, column);
    let below = three_pixels(image, (row + 1).min(rows - 1), column);
    ((above + here + below) / 9) as u8
}

/// Returns a blurred copy of an image: each pixel is the mean of the nine pixels around it. The nearest pixel of the
/// image takes the place of a neighbour outside of it.
pub fn blurred<S: Data<Elem = u8>>(
    alloc: Global,
    image: &ArrayBase<S, Ix2>,
) -> Result<Array2<u8>, NoMemory>
    ensures shape { IfOk result (λ a. shape_of a ≡ shape_of image.now) }
    ensures cells { IfOk result (λ a. HasCellsOf a (means_of (table_of image.now))) }
{
    let (rows, columns) = sides(image);
    Array::from_shape_fn(
        alloc,
        (rows, columns),
        |(row, column)| mean_at(image, row, column),
    )
}
