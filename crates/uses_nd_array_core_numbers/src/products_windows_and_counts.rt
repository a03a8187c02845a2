//! New arrays of one axis and of three axes, made of what a closure returns for each index.
#![tactic(auto, using(nd_array_core::proofs::AxesOfDimensionTypes::known_axes, nd_array_core::proofs::CheckedSizes::list_checked))]

ghost use Rattle.std.specs.Prelude.{◌≡◌, ◌+◌, ◌<◌, ◌≤◌, ◌∷◌, IfOk, slice_index};
ghost use Rattle.nd_array_core.specs.Prelude.{meaning_of, shape_of, HasCheckedSize};
ghost use Rattle.uses_nd_array_core_numbers.specs.RowAndColumnReductions.{IsByColumn, IsByRow, column_count, row_by_list};
ghost use Rattle.uses_nd_array_core_numbers.specs.WindowMaximaAndPlanes.{greatest_from, HasWeightedPlanes, HasWindowMaxima, weighted};

use nd_array_core::prelude::*;
use std::alloc::Global;

/// Returns the sum of the products of the elements of a row of `matrix` and the elements of `vector`, modulo 2 to the
/// 64th.
fn product_of_row<S: Data<Elem = u64>, Z: Data<Elem = u64>>(
    matrix: &ArrayBase<S, Ix2>,
    vector: &ArrayBase<Z, Ix1>,
    row: usize,
) -> u64
    requires inner { slice_index (shape_of matrix.now) 1 ≡ slice_index (shape_of vector.now) 0 }
    requires row { row < slice_index (shape_of matrix.now) 0 }
    ensures { result ≡ row_by_list (meaning_of vector.now) (meaning_of matrix.now) row }
{
    let inner = matrix.ncols();
    let mut total: u64 = 0;
    for k in 0..inner {
        total = total.wrapping_add(matrix[[row, k]].wrapping_mul(vector[k]));
    }
    total
}

/// Returns the product of a matrix and a vector, modulo 2 to the 64th.
pub fn matrix_times_vector<S: Data<Elem = u64>, Z: Data<Elem = u64>>(
    alloc: Global,
    matrix: &ArrayBase<S, Ix2>,
    vector: &ArrayBase<Z, Ix1>,
) -> Result<Array1<u64>, NoMemory>
    requires { slice_index (shape_of matrix.now) 1 ≡ slice_index (shape_of vector.now) 0 }
    ensures { IfOk result (λ a. IsByRow (row_by_list (meaning_of vector.now)) (meaning_of matrix.now) (meaning_of a)) }
{
    Array1::from_shape_fn(
        alloc,
        matrix.nrows(),
        |row| product_of_row(matrix, vector, row),
    )
}

/// Returns the greatest of the `width` numbers of `list` that begin at the coordinate `from`, or 0 if `width` is 0.
fn greatest_of_window<S: Data<Elem = u64>>(
    list: &ArrayBase<S, Ix1>,
    width: usize,
    from: usize,
) -> u64
    requires { from + width ≤ slice_index (shape_of list.now) 0 }
    ensures { result ≡ greatest_from width (meaning_of list.now) from }
{
    let mut most: u64 = 0;
    for k in 0..width {
        most = most.max(list[from + k]);
    }
    most
}

/// Returns the greatest number of each window of `width` neighbours of `list`. `width` must be at least 1 and at most
/// the length of the list.
#[tactic(auto, using(std::proofs::lemmas::Bool::Decides::nat_tests, nd_array_core::proofs::AxesOfDimensionTypes::known_axes, nd_array_core::proofs::CheckedSizes::list_checked))]
pub fn sliding_maximum<S: Data<Elem = u64>>(
    alloc: Global,
    list: &ArrayBase<S, Ix1>,
    width: usize,
) -> Result<Array1<u64>, NoMemory>
    requires some { 1 ≤ width }
    requires fits { width ≤ slice_index (shape_of list.now) 0 }
    ensures { IfOk result (λ a. HasWindowMaxima width (meaning_of list.now) (meaning_of a)) }
{
    let windows = list.dim() + 1 - width;
    Array1::from_shape_fn(alloc, windows, |from| greatest_of_window(list, width, from))
}

/// Returns how many numbers of a column equal `value`.
fn count_in_column<S: Data<Elem = u64>>(
    table: &ArrayBase<S, Ix2>,
    value: u64,
    column: usize,
) -> usize
    requires { column < slice_index (shape_of table.now) 1 }
    ensures { result ≡ column_count value (meaning_of table.now) column }
{
    let rows = table.nrows();
    let mut count: usize = 0;
    for row in 0..rows {
        if table[[row, column]] == value {
            count += 1;
        }
    }
    count
}

/// Returns for each column how many of its numbers equal `value`.
pub fn counts_by_column<S: Data<Elem = u64>>(
    alloc: Global,
    table: &ArrayBase<S, Ix2>,
    value: u64,
) -> Result<Array1<usize>, NoMemory>
    ensures { IfOk result (λ a. IsByColumn (column_count value) (meaning_of table.now) (meaning_of a)) }
{
    Array1::from_shape_fn(
        alloc,
        table.ncols(),
        |column| count_in_column(table, value, column),
    )
}

/// Returns the weight of number `plane` times the element of `table` at `row` and `column`, modulo 2 to the 64th.
fn weighted_at<S: Data<Elem = u64>, Z: Data<Elem = u64>>(
    weights: &ArrayBase<S, Ix1>,
    table: &ArrayBase<Z, Ix2>,
    plane: usize,
    row: usize,
    column: usize,
) -> u64
    requires plane { plane < slice_index (shape_of weights.now) 0 }
    requires row { row < slice_index (shape_of table.now) 0 }
    requires column { column < slice_index (shape_of table.now) 1 }
    ensures { result ≡ weighted (meaning_of weights.now) (meaning_of table.now) plane row column }
{
    weights[plane].wrapping_mul(table[[row, column]])
}

/// Returns an array of one plane for each weight: the table, with each number multiplied by that weight, modulo 2 to
/// the 64th.
#[tactic(auto, using(std::proofs::lemmas::Bool::Decides::nat_tests, nd_array_core::proofs::AxesOfDimensionTypes::known_axes, nd_array_core::proofs::CheckedSizes::list_checked))]
pub fn weighted_planes<S: Data<Elem = u64>, Z: Data<Elem = u64>>(
    alloc: Global,
    weights: &ArrayBase<S, Ix1>,
    table: &ArrayBase<Z, Ix2>,
) -> Result<Array3<u64>, NoMemory>
    requires { HasCheckedSize (slice_index (shape_of weights.now) 0 ∷ shape_of table.now) }
    ensures { IfOk result (λ a. HasWeightedPlanes (meaning_of weights.now) (meaning_of table.now) (meaning_of a)) }
{
    let planes = weights.dim();
    let (rows, columns) = table.dim();
    Array3::from_shape_fn(
        alloc,
        (planes, rows, columns),
        |(plane, row, column)| weighted_at(weights, table, plane, row, column),
    )
}
