//! Closures that are called with each element: their results stand at the element's index, whatever the layout, what
//! they write stays there, and each is called once for each element.

use nd_array_core::{Array2, ArrayView2};
use nd_shape_and_slice::{Axis, Slice, slice_fits};
use nd_test_arrays::{is_table, table_by, table_stores};
use std::alloc::Global;

/// Returns whether `map` by ten has the elements `tens` and `mapv` by one more the elements `next`, whether each
/// closure was called once for each of them, and whether `for_each` adds up to `sum`.
fn maps(alloc: Global, image: &ArrayView2<'_, u64>, tens: &[u64], next: &[u64], sum: u64) -> bool {
    is_mapped(alloc, image, tens)
        && is_mapped_by_value(alloc, image, next)
        && {
            let mut total = 0u64;
            image.for_each(|x| total = total.wrapping_add(*x));
            total == sum
        }
}

fn is_mapped(alloc: Global, image: &ArrayView2<'_, u64>, tens: &[u64]) -> bool {
    let (rows, columns) = image.dim();
    let mut calls = 0usize;
    let found = image.map(alloc, |x| {
        calls = calls.wrapping_add(1);
        x.wrapping_mul(10)
    });
    calls == tens.len()
        && match found {
            Ok(found) => is_table(&found, [rows, columns], tens),
            Err(_) => false,
        }
}

fn is_mapped_by_value(alloc: Global, image: &ArrayView2<'_, u64>, next: &[u64]) -> bool {
    let (rows, columns) = image.dim();
    let mut calls = 0usize;
    let added = image.mapv(alloc, |x| {
        calls = calls.wrapping_add(1);
        x.wrapping_add(1)
    });
    calls == next.len()
        && match added {
            Ok(added) => is_table(&added, [rows, columns], next),
            Err(_) => false,
        }
}

/// Doubles each element by `map_mut`. Returns whether the old elements were these, and the function was called for each
/// of four elements.
fn doubles(alloc: Global, image: &mut Array2<u64>, wanted: &[u64]) -> bool {
    let mut calls = 0u64;
    let before = image.map_mut(alloc, |x| {
        calls = calls.wrapping_add(1);
        let old = *x;
        *x = old.wrapping_mul(2);
        old
    });
    calls == 4
        && match before {
            Ok(before) => is_table(&before, [2, 2], wanted),
            Err(_) => false,
        }
}

/// A table's shape, its strides, and what is stored.
type Laid = ((usize, usize), [isize; 2], &'static [u64]);

const ALL: Slice = Slice {
    start: 0,
    end: None,
    step: 1,
};

/// Every second coordinate, from the last one back.
const SECOND_BACK: Slice = Slice {
    start: 0,
    end: None,
    step: -2,
};

const NONE: Slice = Slice {
    start: 0,
    end: Some(0),
    step: 1,
};

// Three rows of four numbers.
const ROWS: [u64; 12] = [1, 2, 3, 4, 5, 6, 7, 8, 9, 10, 11, 12];

// Some rows of tables: ten times the elements, one more than each, and their sum. The numbers 1 2 3 4
// are stored in rows, in columns, and with one or both axes inverted; then come the last row and the first row of
// 1 3 / 5 7 / 9 11, and no row of a table.
const MAPPED: [(Laid, Slice, &[u64], &[u64], u64); 6] = [
    (
        ((2, 2), [2, 1], &[1, 2, 3, 4]),
        ALL,
        &[10, 20, 30, 40],
        &[2, 3, 4, 5],
        10,
    ),
    (
        ((2, 2), [1, 2], &[1, 2, 3, 4]),
        ALL,
        &[10, 30, 20, 40],
        &[2, 4, 3, 5],
        10,
    ),
    (
        ((2, 2), [-2, 1], &[1, 2, 3, 4]),
        ALL,
        &[30, 40, 10, 20],
        &[4, 5, 2, 3],
        10,
    ),
    (
        ((2, 2), [-2, -1], &[1, 2, 3, 4]),
        ALL,
        &[40, 30, 20, 10],
        &[5, 4, 3, 2],
        10,
    ),
    (
        ((3, 2), [4, 2], &ROWS),
        SECOND_BACK,
        &[90, 110, 10, 30],
        &[10, 12, 2, 4],
        24,
    ),
    (((3, 4), [4, 1], &ROWS), NONE, &[], &[], 0),
];

/// Returns whether the part of an image that a slice of an axis names is mapped to these elements.
fn maps_part(
    alloc: Global,
    image: &Array2<u64>,
    rows: Slice,
    tens: &[u64],
    next: &[u64],
    sum: u64,
) -> bool {
    let (count, _columns) = image.dim();
    slice_fits(count, rows) && maps(alloc, &image.slice_axis(Axis(0), rows), tens, next, sum)
}

fn rows_and_columns_and_axes_turned_round(alloc: Global) -> bool {
    for ((shape, strides, items), rows, tens, next, sum) in &MAPPED {
        let Some(image) = table_by(alloc, *shape, *strides, *items) else {
            return false;
        };
        if !maps_part(alloc, &image, *rows, *tens, *next, *sum) {
            return false;
        }
    }
    true
}

// Strides of the numbers 1 2 3 4, and the elements that are seen.
const DOUBLED: [([isize; 2], &[u64]); 2] = [([2, 1], &[1, 2, 3, 4]), ([1, 2], &[1, 3, 2, 4])];

/// Returns whether the elements of the tables were as listed when they were passed to a function, and are doubled.
fn handed_out(alloc: Global) -> bool {
    for (strides, wanted) in &DOUBLED {
        let Some(mut image) = table_by(alloc, (2, 2), *strides, &[1, 2, 3, 4]) else {
            return false;
        };
        if !doubles(alloc, &mut image, *wanted) || !table_stores(image, &[2, 4, 6, 8]) {
            return false;
        }
    }
    true
}

#[test]
fn functions_of_each_element(rt: HostRuntime) {
    assert!(rt; rows_and_columns_and_axes_turned_round(rt.alloc()));
    assert!(rt; handed_out(rt.alloc()));
}
