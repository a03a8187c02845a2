//! Other shapes for the same elements where they lie.

use crate::arrays_by_strides::{Laid, lies_so, owned};
use nd_array_core::{Array1, Array2, ArrayD};
use nd_shape_and_slice::{Axis, ErrorKind, IxDyn, MAX_AXES, Order, ShapeError};
use nd_test_arrays::{is_table, list, table, table_by};
use std::alloc::Global;

/// What is stored how, the lengths and the order that are asked for, and the strides and the elements then, or the error
/// with which they are refused.
type Row = (
    Laid,
    &'static [usize],
    Order,
    Result<(&'static [isize], &'static [u64]), ErrorKind>,
);

// Returns whether a reshape was refused or gave an array as the row says. In row-major order its elements are a slice.
fn ends_so(alloc: Global, end: &Result<ArrayD<u64>, ShapeError>, row: &Row) -> bool {
    match (end, &row.3) {
        (Ok(array), Ok(wanted)) => {
            lies_so(alloc, &array.view(), row.1, wanted.0, wanted.1)
                && (row.2 == Order::ColumnMajor
                    || array.is_standard_layout() && array.as_slice() == Some(wanted.1))
        }
        (Err(error), Err(wanted)) => error.kind() == *wanted,
        _ => false,
    }
}

// The table 1 2 3 / 4 5 6, which lies in row-major order, and its transpose and one in column-major order, which don't;
// a line, and a table without elements.
const IN_ORDER: [Row; 8] = [
    (
        (&[3, 2], &[1, 3], &[1, 2, 3, 4, 5, 6]),
        &[2, 3],
        Order::RowMajor,
        Err(ErrorKind::IncompatibleLayout),
    ),
    (
        (&[3, 2], &[1, 3], &[1, 2, 3, 4, 5, 6]),
        &[5],
        Order::RowMajor,
        Err(ErrorKind::IncompatibleShape),
    ),
    (
        (&[3, 2], &[1, 3], &[1, 2, 3, 4, 5, 6]),
        &[2, 3],
        Order::ColumnMajor,
        Ok((&[1, 2], &[1, 3, 5, 2, 4, 6])),
    ),
    (
        (&[2, 3], &[3, 1], &[1, 2, 3, 4, 5, 6]),
        &[3, 2],
        Order::RowMajor,
        Ok((&[2, 1], &[1, 2, 3, 4, 5, 6])),
    ),
    (
        (&[3, 2], &[2, 1], &[1, 2, 3, 4, 5, 6]),
        &[6],
        Order::RowMajor,
        Ok((&[1], &[1, 2, 3, 4, 5, 6])),
    ),
    (
        (&[6], &[1], &[1, 2, 3, 4, 5, 6]),
        &[3, usize::MAX],
        Order::RowMajor,
        Err(ErrorKind::IncompatibleShape),
    ),
    (
        (&[2, 3], &[1, 2], &[1, 2, 3, 4, 5, 6]),
        &[6],
        Order::ColumnMajor,
        Ok((&[1], &[1, 2, 3, 4, 5, 6])),
    ),
    (
        (&[0, 3], &[0, 0], &[]),
        &[2, 0, 7],
        Order::RowMajor,
        Ok((&[0, 0, 0], &[])),
    ),
];

fn reshapes_in_order(alloc: Global, row: &Row) -> bool {
    match owned(alloc, &row.0) {
        Ok(array) => {
            row.1.len() <= MAX_AXES
                && ends_so(
                    alloc,
                    &array.into_shape_with_order((IxDyn::new(row.1), row.2)),
                    row,
                )
        }
        Err(_) => false,
    }
}

fn shapes_in_an_order(alloc: Global) -> bool {
    for row in &IN_ORDER {
        if !reshapes_in_order(alloc, row) {
            return false;
        }
    }
    true
}

fn reversed_axes_in_both_orders(alloc: Global) -> bool {
    let Some(six) = table(alloc, (2, 3), &[1, 2, 3, 4, 5, 6]) else {
        return false;
    };
    match six
        .reversed_axes()
        .into_shape_with_order(((2, 3), Order::ColumnMajor))
    {
        Ok(columns) => is_table(&columns, [2, 3], &[1, 3, 5, 2, 4, 6]),
        Err(_) => false,
    }
}

// The first order that fits: row-major order, column-major order, none, and a shape with another number of elements. The
// order of each row is the one that fits.
const EITHER: [Row; 4] = [
    (
        (&[2, 3], &[3, 1], &[1, 2, 3, 4, 5, 6]),
        &[3, 2],
        Order::RowMajor,
        Ok((&[2, 1], &[1, 2, 3, 4, 5, 6])),
    ),
    (
        (&[3, 2], &[1, 3], &[1, 2, 3, 4, 5, 6]),
        &[2, 3],
        Order::ColumnMajor,
        Ok((&[1, 2], &[1, 3, 5, 2, 4, 6])),
    ),
    (
        (&[2, 3], &[-3, 1], &[1, 2, 3, 4, 5, 6]),
        &[6],
        Order::RowMajor,
        Err(ErrorKind::IncompatibleLayout),
    ),
    (
        (&[2, 3], &[3, 1], &[1, 2, 3, 4, 5, 6]),
        &[2, 2],
        Order::RowMajor,
        Err(ErrorKind::IncompatibleShape),
    ),
];

fn reshapes_in_either(alloc: Global, row: &Row) -> bool {
    match owned(alloc, &row.0) {
        Ok(array) => {
            row.1.len() <= MAX_AXES && ends_so(alloc, &array.into_shape(IxDyn::new(row.1)), row)
        }
        Err(_) => false,
    }
}

fn the_first_order_that_fits(alloc: Global) -> bool {
    for row in &EITHER {
        if !reshapes_in_either(alloc, row) {
            return false;
        }
    }
    true
}

/// A table's shape and elements, the axis that is merged into the other, whether they are merged, and the shape then.
type Merged = ((usize, usize), &'static [u64], usize, bool, [usize; 2]);

const MERGED: [Merged; 4] = [
    ((2, 3), &[1, 2, 3, 4, 5, 6], 0, true, [1, 6]),
    ((2, 3), &[1, 2, 3, 4, 5, 6], 1, false, [2, 3]),
    ((3, 1), &[1, 2, 3], 0, true, [1, 3]),
    ((3, 0), &[], 0, true, [0, 0]),
];

// Returns whether merging the axis `axis` into the other axis of a table succeeds or not, as `merged` says.
fn merges(rows: &mut Array2<u64>, axis: usize, merged: bool) -> bool {
    let (_rows, _columns) = rows.dim();
    axis < 2 && rows.merge_axes(Axis(axis), Axis(1 - axis)) == merged
}

fn merges_so(alloc: Global, row: &Merged) -> bool {
    match table(alloc, row.0, row.1) {
        Some(made) => {
            let mut rows = made;
            merges(&mut rows, row.2, row.3) && is_table(&rows, row.4, row.1)
        }
        None => false,
    }
}

fn axes_merged(alloc: Global) -> bool {
    for row in &MERGED {
        if !merges_so(alloc, row) {
            return false;
        }
    }
    true
}

// Returns whether an axis isn't merged with itself if it repeats a single element.
fn stays(one: &Array1<u64>) -> bool {
    match one.view().broadcast_move(3) {
        Some(view) => {
            let mut wide = view;
            let _count = wide.dim();
            !wide.merge_axes(Axis(0), Axis(0)) && wide.shape() == [3].as_slice()
        }
        None => false,
    }
}

fn an_axis_merged_with_itself(alloc: Global) -> bool {
    let Some(mut one) = list(alloc, &[5]) else {
        return false;
    };
    let stays = stays(&one);
    let _count = one.dim();
    stays && one.merge_axes(Axis(0), Axis(0)) && one.shape() == [1].as_slice()
}

// Returns whether this axis of a table has the greatest stride.
fn steps_along(table: &Array2<u64>, axis: usize) -> bool {
    let (_rows, _columns) = table.dim();
    table.max_stride_axis().0 == axis
}

/// A table's shape, its strides, and the axis that has the greatest one.
type Furthest = ((usize, usize), [isize; 2], usize);

// Tables in row-major order, with one axis inverted, with both axes exchanged then, of a single row, and of a single
// element.
const FURTHEST: [Furthest; 5] = [
    ((2, 3), [3, 1], 0),
    ((2, 3), [-3, 1], 0),
    ((3, 2), [1, -3], 1),
    ((1, 3), [3, 1], 1),
    ((1, 1), [1, 1], 0),
];

fn the_axis_that_steps_furthest(alloc: Global) -> bool {
    for (shape, strides, axis) in &FURTHEST {
        let Some(table) = table_by(alloc, *shape, *strides, &[1, 2, 3, 4, 5, 6]) else {
            return false;
        };
        if !steps_along(&table, *axis) {
            return false;
        }
    }
    true
}

#[test]
fn other_shapes(rt: HostRuntime) {
    assert!(rt; shapes_in_an_order(rt.alloc()) && reversed_axes_in_both_orders(rt.alloc()));
    assert!(rt; the_first_order_that_fits(rt.alloc()));
    assert!(rt; axes_merged(rt.alloc()) && an_axis_merged_with_itself(rt.alloc()));
    assert!(rt; the_axis_that_steps_furthest(rt.alloc()));
}
