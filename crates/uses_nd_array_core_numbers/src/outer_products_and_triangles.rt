//! New tables of what a closure returns for each row and column.
#![tactic(auto, using(std::proofs::lemmas::Bool::Decides::nat_tests, nd_array_core::proofs::AxesOfDimensionTypes::known_axes))]

ghost use Rattle.std.specs.Prelude.{◌≡◌, ◌<◌, [], ◌∷◌, IfOk};
ghost use Rattle.nd_array_core.specs.Prelude.{rows_of, columns_of, table_of, line_of, ShowsTable, HasRowsAndColumns, HasCellsOf, HasCheckedSize};
ghost use Rattle.uses_nd_array_core_numbers.specs.SwappedHalvesAndNewTables.{product_at, products_of, upper_cell, upper_cells_of, upper_triangle_of};

use nd_array_core::laws::shape_is_checked;
use nd_array_core::prelude::*;
use std::alloc::Global;

/// Returns the element of `down` at `row` times the element of `across` at `column`, modulo 2 to the 64th.
fn times<S: Data<Elem = u64>, Z: Data<Elem = u64>>(
    down: &ArrayBase<S, Ix1>,
    across: &ArrayBase<Z, Ix1>,
    row: usize,
    column: usize,
) -> u64
    requires row { row < (line_of down.now).count }
    requires column { column < (line_of across.now).count }
    ensures { result ≡ product_at (line_of down.now) (line_of across.now) row column }
{
    down[row].wrapping_mul(across[column])
}

/// Returns the outer product of two lists, modulo 2 to the 64th: a table with a row for each element of `down` and a
/// column for each element of `across`.
pub fn outer_product<S: Data<Elem = u64>, Z: Data<Elem = u64>>(
    alloc: Global,
    down: &ArrayBase<S, Ix1>,
    across: &ArrayBase<Z, Ix1>,
) -> Result<Array2<u64>, NoMemory>
    requires { HasCheckedSize ((line_of down.now).count ∷ (line_of across.now).count ∷ []) }
    ensures shape { IfOk result (λ a. HasRowsAndColumns a (line_of down.now).count (line_of across.now).count) }
    ensures cells { IfOk result (λ a. HasCellsOf a (products_of (line_of down.now) (line_of across.now))) }
{
    Array::from_shape_fn(
        alloc,
        (down.dim(), across.dim()),
        |(row, column)| times(down, across, row, column),
    )
}

/// Returns 0 if `row` and `column` lie below the diagonal, and the number of `table` there otherwise.
fn upper_at<S: Data<Elem = u64>>(table: &ArrayBase<S, Ix2>, row: usize, column: usize) -> u64
    requires row { row < rows_of table.now }
    requires column { column < columns_of table.now }
    ensures { result ≡ upper_cell (table_of table.now) row column }
{
    if column < row {
        0
    } else {
        table[(row, column)]
    }
}

/// Returns the number of rows and the number of columns of a table. Its contract also says that the product of the
/// lengths other than 0 fits an `isize`, as a new array of that shape requires.
fn sides<S: Data>(table: &ArrayBase<S, Ix2>) -> (usize, usize)
    ensures shape { HasRowsAndColumns table.now result.0 result.1 }
    ensures checked { HasCheckedSize (result.0 ∷ result.1 ∷ []) }
{
    shape_is_checked(table);
    table.dim()
}

/// Returns a copy of `table` with 0 at each index below the diagonal.
pub fn upper_triangle<S: Data<Elem = u64>>(
    alloc: Global,
    table: &ArrayBase<S, Ix2>,
) -> Result<Array2<u64>, NoMemory>
    ensures shape { IfOk result (λ a. HasRowsAndColumns a (rows_of table.now) (columns_of table.now)) }
    ensures cells { IfOk result (λ a. HasCellsOf a (upper_cells_of (table_of table.now))) }
{
    let (rows, columns) = sides(table);
    Array::from_shape_fn(
        alloc,
        (rows, columns),
        |(row, column)| upper_at(table, row, column),
    )
}

/// Writes 0 below the diagonal of a table.
pub fn clear_below_diagonal<S: DataMut<Elem = u64>>(table: &mut ArrayBase<S, Ix2>)
    ensures { ShowsTable table.new (upper_triangle_of (table_of table.old)) }
{
    let (rows, columns) = table.dim();
    for row in 0..rows {
        for column in 0..row.min(columns) {
            table[(row, column)] = 0;
        }
    }
}
