//! Lanes of an axis, of small tables in three layouts, from either end.

ghost use Rattle.std.specs.Prelude.{◌<◌, length};
ghost use Rattle.nd_array_core.specs.ArrayMeaning.{shape_of};

use crate::small_tables_as_digits::{has_digits, joined, nothing, table};
use nd_array_core::{ArrayBase, Data};
use nd_iter::{AxisIterExt, lanes};
use nd_shape_and_slice::{Axis, RemoveAxis, Slice};
use nd_test_arrays::table as table_of;
use std::alloc::{AllocError, Global};

/// The columns of 3 7 8 over 5 2 4, from either end.
fn has_columns<S: Data<Elem = u64>, D: RemoveAxis>(array: &ArrayBase<S, D>) -> bool
    requires { 1 < length (shape_of array.now) }
{
    let mut left = array.lanes(Axis(0));
    left.len() == 3
        && left.size_hint() == (3, Some(3))
        && has_digits(left.next_back(), 84)
        && has_digits(left.next(), 35)
        && has_digits(left.next(), 72)
        && left.next().is_none()
        && left.next_back().is_none()
}

/// Whether the lanes of both axes have these elements.
fn shows<S: Data<Elem = u64>, D: RemoveAxis>(
    array: &ArrayBase<S, D>,
    columns: u64,
    rows: u64,
) -> bool
    requires { 1 < length (shape_of array.now) }
{
    joined(lanes(array, Axis(0)), 1000) == columns && joined(lanes(array, Axis(1)), 1000) == rows
}

/// Whether the lanes of both axes are so many.
fn counts<S: Data<Elem = u64>, D: RemoveAxis>(
    array: &ArrayBase<S, D>,
    columns: usize,
    rows: usize,
) -> bool
    requires { 1 < length (shape_of array.now) }
{
    lanes(array, Axis(0)).len() == columns && lanes(array, Axis(1)).len() == rows
}

/// Whether a clone of the lanes, taken after the first one, has the same lanes left as the iterator itself.
fn has_clone<S: Data<Elem = u64>, D: RemoveAxis>(
    array: &ArrayBase<S, D>,
) -> Result<bool, AllocError>
    requires { 1 < length (shape_of array.now) }
{
    let mut left = lanes(array, Axis(1));
    let _first = left.next();
    let mut clone = left.clone()?;
    Ok(has_digits(left.next(), 524) && left.len() == 0 && has_digits(clone.next_back(), 524))
}

/// Whether the lanes of a table and of its transpose are right.
fn are_right<S: Data<Elem = u64>, D: RemoveAxis>(array: &ArrayBase<S, D>) -> bool
    requires { 1 < length (shape_of array.now) }
{
    let clone = match has_clone(array) {
        Ok(right) => right,
        Err(_) => false,
    };
    clone
        && has_columns(array)
        && shows(array, 35072084, 378524)
        && shows(&array.t(), 378524, 35072084)
}

/// Whether the lanes of a table without elements or of one element are so many, and have these elements.
fn are_few<S: Data<Elem = u64>, D: RemoveAxis>(
    array: &ArrayBase<S, D>,
    columns: usize,
    rows: usize,
    element: u64,
) -> bool
    requires { 1 < length (shape_of array.now) }
{
    counts(array, columns, rows) && shows(array, element, element)
}

#[tactic(auto, using(nd_array_core::proofs::AxesOfDimensionTypes::known_axes))]
fn lanes_in_each_layout(alloc: Global) -> bool {
    let Some(table) = table(alloc) else {
        return false;
    };
    let backwards = table.slice_axis(Axis(1), Slice::new(0, None, -1));
    are_right(&table) && shows(&backwards, 84072035, 873425)
}

#[tactic(auto, using(nd_array_core::proofs::AxesOfDimensionTypes::known_axes))]
fn lanes_of_nothing_and_of_one_element(alloc: Global) -> bool {
    let Some(none) = nothing(alloc) else {
        return false;
    };
    let Some(one) = table_of(alloc, (1, 1), &[9]) else {
        return false;
    };
    are_few(&none, 0, 2, 0) && are_few(&one, 1, 1, 9)
}

#[test]
fn lanes_of_tables(rt: HostRuntime) {
    assert!(rt; lanes_in_each_layout(rt.alloc()));
    assert!(rt; lanes_of_nothing_and_of_one_element(rt.alloc()));
}
