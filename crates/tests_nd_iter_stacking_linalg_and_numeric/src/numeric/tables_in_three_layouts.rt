//! Tables of two rows and three columns in three layouts, and tables of floats.

ghost use Rattle.std.specs.Prelude.{IsTrue};
ghost use Rattle.nd_array_core.specs.arithmetic.ElementwiseArithmetic.{CanMeet};

use nd_array_core::{Array, Array1, Array2, ArrayBase, Data};
use nd_shape_and_slice::{Dimension, Ix1, Ix2, NdIndex, NoMemory, ShapeBuilder};
use nd_test_arrays::{shows, table_by};
use std::alloc::Global;

/// Returns the table 1 2 3 / 4 5 6 in row-major order for 0, in column-major order for 1, and with steps between the
/// columns, which go backwards, for 2. For other numbers it returns a table of three columns without rows. Returns
/// `None` where memory is refused.
pub fn one_to_six(alloc: Global, layout: usize) -> Option<Array2<u64>> {
    match layout {
        0 => table_by(alloc, (2, 3), [3, 1], &[1, 2, 3, 4, 5, 6]),
        1 => table_by(alloc, (2, 3), [1, 2], &[1, 4, 2, 5, 3, 6]),
        2 => table_by(alloc, (2, 3), [6, -2], &[3, 9, 2, 9, 1, 9, 6, 9, 5, 9, 4]),
        _ => table_by(alloc, (0, 3), [0, 0], &[]),
    }
}

/// Returns the table 11 12 13 / 14 15 16 in a layout, or one without rows, as `one_to_six` does.
pub fn eleven_on(alloc: Global, layout: usize) -> Option<Array2<u64>> {
    match layout {
        0 => table_by(alloc, (2, 3), [3, 1], &[11, 12, 13, 14, 15, 16]),
        1 => table_by(alloc, (2, 3), [1, 2], &[11, 14, 12, 15, 13, 16]),
        2 => table_by(
            alloc,
            (2, 3),
            [6, -2],
            &[13, 9, 12, 9, 11, 9, 16, 9, 15, 9, 14],
        ),
        _ => table_by(alloc, (0, 3), [0, 0], &[]),
    }
}

/// Returns the row with this number. Where there are fewer rows, it returns a row without numbers.
pub fn row_of(rows: &[[u64; 6]], number: usize) -> &[u64] {
    match rows.get(number) {
        Some(row) => row.as_slice(),
        None => &[],
    }
}

/// Returns whether an array was made, and has this shape and these numbers row by row. This is for functions over any
/// number of axes. It takes the array by value, so that the caller has nothing to drop.
pub fn gives<D: Dimension>(
    made: Result<Array<u64, D>, NoMemory>,
    shape: [usize; 2],
    wanted: &[u64],
) -> bool
where
    [usize; 2]: NdIndex<D>,
{
    match made {
        Ok(array) => shows(&array, shape, wanted),
        Err(_) => false,
    }
}

/// Returns whether an array was made, lies in row-major order, and has these elements. Like `gives`, it takes the array by
/// value.
pub fn lists<A: PartialEq + Drop, D: Dimension>(
    made: Result<Array<A, D>, NoMemory>,
    wanted: &[A],
) -> bool {
    match made {
        Ok(array) => array.as_slice() == Some(wanted),
        Err(_) => false,
    }
}

/// Returns whether there is a result, and `lists` holds of it; or there is none, if `wanted` is `None`.
pub fn lists_if_any<A: PartialEq + Drop, D: Dimension>(
    made: Option<Result<Array<A, D>, NoMemory>>,
    wanted: Option<&[A]>,
) -> bool {
    match made {
        Some(made) => match wanted {
            Some(wanted) => lists(made, wanted),
            None => false,
        },
        None => wanted.is_none(),
    }
}

/// Returns whether the second array can be broadcast to the shape of the first.
pub fn meets<S: Data, D: Dimension, Z: Data, E: Dimension>(
    table: &ArrayBase<S, D>,
    row: &ArrayBase<Z, E>,
) -> bool
    ensures { IsTrue result → CanMeet table.now row.now }
{
    row.broadcast(table.raw_dim()).is_some()
}

/// Returns the table of this shape that is stored as these floats by these strides. Returns `None` where memory is
/// refused, or the floats don't fit the shape.
pub fn floats_by(
    alloc: Global,
    shape: (usize, usize),
    strides: [isize; 2],
    items: &[f64],
) -> Option<Array2<f64>> {
    match Vec::from_slice(alloc, items) {
        Ok(items) => match Array2::from_shape_vec(shape.strides(&strides), items) {
            Ok(table) => Some(table),
            Err(_) => None,
        },
        Err(_) => None,
    }
}

/// Returns the list of these floats, or `None` where memory is refused.
pub fn float_list(alloc: Global, items: &[f64]) -> Option<Array1<f64>> {
    match Vec::from_slice(alloc, items) {
        Ok(items) => Some(Array1::from_vec(items)),
        Err(_) => None,
    }
}

/// Returns the list of two numbers, or `None` where memory is refused.
pub fn pair<A: Copy + Drop>(alloc: Global, one: A, other: A) -> Option<Array1<A>> {
    let mut items = Vec::new(alloc);
    items.push(one).ok()?;
    items.push(other).ok()?;
    Some(Array1::from_vec(items))
}

/// Returns whether a list has these floats and no others.
pub fn lists_floats<S: Data<Elem = f64>>(list: &ArrayBase<S, Ix1>, wanted: &[f64]) -> bool {
    list.as_slice() == Some(wanted)
}

/// Returns whether a number is there and is this one.
pub fn is_number(found: Option<f64>, wanted: f64) -> bool {
    match found {
        Some(number) => number == wanted,
        None => false,
    }
}

/// Returns whether both are there and the same float.
fn is_same_float(one: Option<&f64>, other: Option<&f64>) -> bool {
    match (one, other) {
        (Some(one), Some(other)) => *one == *other,
        _ => false,
    }
}

/// Returns whether a table has these floats, row by row.
pub fn has<S: Data<Elem = f64>>(table: &ArrayBase<S, Ix2>, wanted: &[f64]) -> bool {
    let mut count = 0usize;
    for row in 0..table.nrows() {
        for column in 0..table.ncols() {
            if !is_same_float(table.get([row, column]), wanted.get(count)) {
                return false;
            }
            count = count.saturating_add(1);
        }
    }
    count == wanted.len()
}
