//! Joining arrays that aren't in row-major order, arrays with three axes, and arrays without elements.

use crate::concatenate_and_stack::{is_table, joins_to, shows, stacks_to};
use nd_array_core::{Array2, Array3, ArrayError};
use nd_shape_and_slice::Axis;
use nd_stacking::concatenate;
use nd_test_arrays::{made, table};
use std::alloc::Global;

/// Returns the transposes of two tables, joined along an axis.
fn turned<'a>(
    alloc: Global,
    axis: usize,
    one: &'a Array2<u64>,
    other: &'a Array2<u64>,
) -> Result<Array2<u64>, ArrayError> {
    concatenate(alloc, Axis(axis), &[one.t(), other.t()])
}

/// Returns the transpose of a table and another table, joined along the second axis.
fn mixed<'a>(
    alloc: Global,
    one: &'a Array2<u64>,
    other: &'a Array2<u64>,
) -> Result<Array2<u64>, ArrayError> {
    concatenate(alloc, Axis(1), &[one.t(), other.view()])
}

fn turned_tables(alloc: Global) -> bool {
    let Some(one) = table(alloc, (2, 3), &[1, 2, 3, 4, 5, 6]) else {
        return false;
    };
    let Some(other) = table(alloc, (2, 3), &[7, 8, 9, 10, 11, 12]) else {
        return false;
    };
    let Some(third) = table(alloc, (3, 2), &[13, 14, 15, 16, 17, 18]) else {
        return false;
    };
    is_table(
        alloc,
        &turned(alloc, 0, &one, &other),
        [6, 2],
        &[1, 4, 2, 5, 3, 6, 7, 10, 8, 11, 9, 12],
    ) && is_table(
        alloc,
        &turned(alloc, 1, &one, &other),
        [3, 4],
        &[1, 4, 7, 10, 2, 5, 8, 11, 3, 6, 9, 12],
    ) && is_table(
        alloc,
        &mixed(alloc, &one, &third),
        [3, 4],
        &[1, 4, 13, 14, 2, 5, 15, 16, 3, 6, 17, 18],
    )
}

/// Returns the array of this shape with these numbers in row-major order.
fn planes(alloc: Global, shape: (usize, usize, usize), numbers: &[u64]) -> Option<Array3<u64>> {
    made(alloc, shape, numbers)
}

/// Returns whether three arrays that are joined along the second axis have this shape and these elements.
fn joins_to_planes(
    alloc: Global,
    one: &Array3<u64>,
    two: &Array3<u64>,
    three: &Array3<u64>,
    elements: &[u64],
) -> bool {
    let joined = concatenate(alloc, Axis(1), &[one.view(), two.view(), three.view()]);
    shows(alloc, &joined, &[2, 3, 4], elements)
}

const FROM_9: [u64; 16] = [
    9, 10, 11, 12, 13, 14, 15, 16, 17, 18, 19, 20, 21, 22, 23, 24,
];

const PLANES: [u64; 24] = [
    1, 2, 3, 4, 9, 10, 11, 12, 13, 14, 15, 16, 5, 6, 7, 8, 17, 18, 19, 20, 21, 22, 23, 24,
];

fn three_axes(alloc: Global) -> bool {
    let Some(one) = planes(alloc, (2, 1, 4), &[1, 2, 3, 4, 5, 6, 7, 8]) else {
        return false;
    };
    let Some(none) = planes(alloc, (2, 0, 4), &[]) else {
        return false;
    };
    let Some(two) = planes(alloc, (2, 2, 4), &FROM_9) else {
        return false;
    };
    joins_to_planes(alloc, &one, &none, &two, &PLANES)
}

fn rows_of_nothing(alloc: Global) -> bool {
    let Some(longest) = table(alloc, (9223372036854775807, 0), &[]) else {
        return false;
    };
    let Some(none) = table(alloc, (0, 3), &[]) else {
        return false;
    };
    joins_to(
        alloc,
        1,
        (&longest, &longest),
        [9223372036854775807, 0],
        &[],
    ) && stacks_to(alloc, 1, (&none, &none), [0, 2, 3], &[])
}

#[test]
fn in_other_layouts(rt: HostRuntime) {
    assert!(rt; turned_tables(rt.alloc()));
    assert!(rt; three_axes(rt.alloc()));
    assert!(rt; rows_of_nothing(rt.alloc()));
}
