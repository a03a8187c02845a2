//! Elements that are written through one slice, and arrays whose elements are no slice.

ghost use Rattle.std.specs.Prelude.{◌≡◌};

use nd_array_core::{Array2, ArrayViewMut};
use nd_shape_and_slice::{Axis, Dimension, Slice, slice_fits};
use nd_test_arrays::{table, table_by, table_stores};
use std::alloc::Global;

// Writes a number to the first element of the slice in row-major order. Returns how many elements the slice has, or
// `None` if there is no slice.
fn put_first(array: &mut Array2<u64>, value: u64) -> Option<usize> {
    match array.as_slice_mut() {
        Some(items) => {
            if items.len() > 0 {
                items[0] = value;
            }
            Some(items.len())
        }
        None => None,
    }
}

// Writes a number to the first element of the slice in memory order. Returns how many elements the slice has, or `None`
// if there is no slice.
fn put_lowest(array: &mut Array2<u64>, value: u64) -> Option<usize> {
    match array.as_slice_memory_order_mut() {
        Some(items) => {
            if items.len() > 0 {
                items[0] = value;
            }
            Some(items.len())
        }
        None => None,
    }
}

// Writes a number to the first element of the slice that a view is converted to, in row-major order or in memory order.
// Returns how many elements the slice has, or `None` if there is no slice.
fn into_first<D: Dimension>(
    view: ArrayViewMut<'_, u64, D>,
    by_rank: bool,
    value: u64,
) -> Option<usize> {
    let slice = if by_rank {
        view.into_slice()
    } else {
        view.into_slice_memory_order()
    };
    match slice {
        Some(items) => {
            if items.len() > 0 {
                items[0] = value;
            }
            Some(items.len())
        }
        None => None,
    }
}

fn one_to_six(alloc: Global) -> Option<Array2<u64>> {
    table(alloc, (2, 3), &[1, 2, 3, 4, 5, 6])
}

// Writes 10 to the first element in row-major order, and 20 to the first in memory order. Returns whether the slices
// have as many elements as these, and whether the array is then stored as these numbers.
fn put_both(
    mut array: Array2<u64>,
    first: Option<usize>,
    lowest: Option<usize>,
    stored: &[u64],
) -> bool {
    put_first(&mut array, 10) == first
        && put_lowest(&mut array, 20) == lowest
        && table_stores(array, stored)
}

/// A table's shape and strides, how many elements either slice has, and what is stored then.
type Row = (
    (usize, usize),
    [isize; 2],
    Option<usize>,
    Option<usize>,
    &'static [u64],
);

// A new array, a transpose, and a row that goes backwards.
const TABLES: [Row; 3] = [
    ((2, 3), [3, 1], Some(6), Some(6), &[20, 2, 3, 4, 5, 6]),
    ((3, 2), [1, 3], None, Some(6), &[20, 2, 3, 4, 5, 6]),
    ((1, 6), [6, -1], None, Some(6), &[20, 2, 3, 4, 5, 6]),
];

fn puts_both(alloc: Global, row: &Row) -> bool {
    match table_by(alloc, row.0, row.1, &[1, 2, 3, 4, 5, 6]) {
        Some(table) => put_both(table, row.2, row.3, row.4),
        None => false,
    }
}

fn tables_written(alloc: Global) -> bool {
    for row in &TABLES {
        if !puts_both(alloc, row) {
            return false;
        }
    }
    true
}

// Slices of an axis of 1 2 3 / 4 5 6: how many elements either slice has, and what is stored then.
const PARTS: [(usize, Slice, Option<usize>, Option<usize>, &[u64]); 4] = [
    (
        0,
        Slice {
            start: 1,
            end: None,
            step: 1,
        },
        Some(3),
        Some(3),
        &[1, 2, 3, 20, 5, 6],
    ),
    (
        1,
        Slice {
            start: 0,
            end: Some(2),
            step: 1,
        },
        None,
        None,
        &[1, 2, 3, 4, 5, 6],
    ),
    (
        0,
        Slice {
            start: 0,
            end: None,
            step: -1,
        },
        None,
        Some(6),
        &[20, 2, 3, 4, 5, 6],
    ),
    (
        1,
        Slice {
            start: 2,
            end: Some(2),
            step: 1,
        },
        Some(0),
        Some(0),
        &[1, 2, 3, 4, 5, 6],
    ),
];

// Does what `put_both` does to the part of 1 2 3 / 4 5 6 that a slice of an axis names.
fn put_in_part(
    alloc: Global,
    axis: usize,
    part: Slice,
    counts: (Option<usize>, Option<usize>),
    stored: &[u64],
) -> bool {
    let Some(mut image) = one_to_six(alloc) else {
        return false;
    };
    let (rows, columns) = image.dim();
    let count = if axis == 0 { rows } else { columns };
    if axis > 1 || !slice_fits(count, part) {
        return false;
    }
    image.slice_axis_inplace(Axis(axis), part);
    put_both(image, counts.0, counts.1, stored)
}

fn parts(alloc: Global) -> bool {
    for row in &PARTS {
        if !put_in_part(alloc, row.0, row.1, (row.2, row.3), row.4) {
            return false;
        }
    }
    true
}

// Does what `into_first` does to a row. Returns `None` if there is no such row.
fn into_row(
    image: &mut Array2<u64>,
    index: usize,
    by_rank: bool,
    value: u64,
) -> Option<Option<usize>> {
    if index < image.nrows() {
        Some(into_first(image.row_mut(index), by_rank, value))
    } else {
        None
    }
}

// Does what `into_first` does to a column. Returns `None` if there is no such column.
fn into_column(
    image: &mut Array2<u64>,
    index: usize,
    by_rank: bool,
    value: u64,
) -> Option<Option<usize>> {
    if index < image.ncols() {
        Some(into_first(image.column_mut(index), by_rank, value))
    } else {
        None
    }
}

fn rows_and_columns_of_views(alloc: Global) -> bool {
    let Some(mut image) = one_to_six(alloc) else {
        return false;
    };
    into_row(&mut image, 1, true, 10) == Some(Some(3))
        && into_row(&mut image, 0, false, 20) == Some(Some(3))
        && into_column(&mut image, 1, true, 30) == Some(None)
        && into_column(&mut image, 1, false, 30) == Some(None)
        && into_first(image.view_mut(), true, 40) == Some(6)
        && table_stores(image, &[40, 2, 3, 10, 5, 6])
}

#[test]
fn first_elements_of_slices(rt: HostRuntime) {
    assert!(rt; tables_written(rt.alloc()) && parts(rt.alloc()));
    assert!(rt; rows_and_columns_of_views(rt.alloc()));
}
