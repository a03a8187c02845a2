//! Two tables that are joined along each axis, and the errors with which this is refused.

use nd_array_core::{Array, Array2, Array3, ArrayError};
use nd_shape_and_slice::{Axis, Dimension, ErrorKind};
use nd_stacking::{concatenate, stack};
use nd_test_arrays::table;
use std::alloc::Global;

/// Returns whether a result has these lengths, and these elements in row-major order.
pub(crate) fn shows<D: Dimension>(
    alloc: Global,
    outcome: &Result<Array<u64, D>, ArrayError>,
    shape: &[usize],
    elements: &[u64],
) -> bool {
    match outcome {
        Ok(array) => match array.to_vec(alloc) {
            Ok(items) => array.shape() == shape && items.as_slice() == elements,
            Err(_) => false,
        },
        Err(_) => false,
    }
}

/// Returns the error of a refused result.
fn cause<D: Dimension>(outcome: &Result<Array<u64, D>, ArrayError>) -> Option<ErrorKind> {
    match outcome {
        Ok(_) => None,
        Err(ArrayError::NoMemory) => None,
        Err(ArrayError::Shape(error)) => Some(error.kind()),
    }
}

/// Returns two tables joined along an axis that they have.
fn after<'a>(
    alloc: Global,
    axis: usize,
    one: &'a Array2<u64>,
    other: &'a Array2<u64>,
) -> Result<Array2<u64>, ArrayError> {
    concatenate(alloc, Axis(axis), &[one.view(), other.view()])
}

/// Returns two tables joined along a new axis.
fn stacked<'a>(
    alloc: Global,
    axis: usize,
    one: &'a Array2<u64>,
    other: &'a Array2<u64>,
) -> Result<Array3<u64>, ArrayError> {
    let first = one.view();
    let (_rows, _columns) = first.dim();
    stack(alloc, Axis(axis), &[first, other.view()])
}

/// Returns whether a result has these lengths, and these elements in row-major order.
pub(crate) fn is_table(
    alloc: Global,
    outcome: &Result<Array2<u64>, ArrayError>,
    shape: [usize; 2],
    elements: &[u64],
) -> bool {
    shows(alloc, outcome, &shape, elements)
}

/// Returns whether two tables that are joined along an axis that they have are a table of this shape with these
/// elements.
pub(crate) fn joins_to(
    alloc: Global,
    axis: usize,
    tables: (&Array2<u64>, &Array2<u64>),
    shape: [usize; 2],
    elements: &[u64],
) -> bool {
    is_table(
        alloc,
        &after(alloc, axis, tables.0, tables.1),
        shape,
        elements,
    )
}

/// Returns whether two tables that are joined along a new axis are an array of this shape with these elements.
pub(crate) fn stacks_to(
    alloc: Global,
    axis: usize,
    tables: (&Array2<u64>, &Array2<u64>),
    shape: [usize; 3],
    elements: &[u64],
) -> bool {
    shows(
        alloc,
        &stacked(alloc, axis, tables.0, tables.1),
        &shape,
        elements,
    )
}

/// Returns the error with which joining two tables along an axis that they have is refused.
fn cause_joined(
    alloc: Global,
    axis: usize,
    one: &Array2<u64>,
    other: &Array2<u64>,
) -> Option<ErrorKind> {
    cause(&after(alloc, axis, one, other))
}

/// Returns the error with which joining two tables along a new axis is refused.
fn cause_stacked(
    alloc: Global,
    axis: usize,
    one: &Array2<u64>,
    other: &Array2<u64>,
) -> Option<ErrorKind> {
    cause(&stacked(alloc, axis, one, other))
}

// Whether an error is of this kind.
fn is(cause: Option<ErrorKind>, wanted: ErrorKind) -> bool {
    match cause {
        Some(cause) => cause == wanted,
        None => false,
    }
}

const ROWS: [u64; 12] = [3, 7, 8, 5, 2, 4, 1, 9, 0, 5, 4, 1];

const COLUMNS: [u64; 12] = [3, 7, 8, 1, 9, 0, 5, 2, 4, 5, 4, 1];

const PAIRS: [u64; 12] = [3, 1, 7, 9, 8, 0, 5, 5, 2, 4, 4, 1];

fn two_tables(alloc: Global) -> bool {
    let Some(one) = table(alloc, (2, 3), &[3, 7, 8, 5, 2, 4]) else {
        return false;
    };
    let Some(other) = table(alloc, (2, 3), &[1, 9, 0, 5, 4, 1]) else {
        return false;
    };
    let both = (&one, &other);
    joins_to(alloc, 0, both, [4, 3], &ROWS)
        && joins_to(alloc, 1, both, [2, 6], &COLUMNS)
        && is(cause_joined(alloc, 2, &one, &other), ErrorKind::OutOfBounds)
        && stacks_to(alloc, 0, both, [2, 2, 3], &ROWS)
        && stacks_to(alloc, 1, both, [2, 2, 3], &COLUMNS)
        && stacks_to(alloc, 2, both, [2, 3, 2], &PAIRS)
        && is(
            cause_stacked(alloc, 3, &one, &other),
            ErrorKind::OutOfBounds,
        )
}

/// Returns the error with which joining no tables is refused.
fn cause_of_none(alloc: Global) -> Option<ErrorKind> {
    let none: Result<Array2<u64>, ArrayError> = concatenate(alloc, Axis(9), &[]);
    cause(&none)
}

fn causes_in_order(alloc: Global) -> bool {
    let Some(one) = table(alloc, (2, 3), &[3, 7, 8, 5, 2, 4]) else {
        return false;
    };
    let Some(row) = table(alloc, (1, 3), &[1, 9, 0]) else {
        return false;
    };
    let Some(longest) = table(alloc, (9223372036854775807, 0), &[]) else {
        return false;
    };
    let shape = ErrorKind::IncompatibleShape;
    is(cause_of_none(alloc), ErrorKind::Unsupported)
        && joins_to(alloc, 0, (&one, &row), [3, 3], &[3, 7, 8, 5, 2, 4, 1, 9, 0])
        && is(cause_joined(alloc, 1, &one, &row), shape)
        && is(cause_joined(alloc, 0, &longest, &one), shape)
        && is(
            cause_joined(alloc, 0, &longest, &longest),
            ErrorKind::Overflow,
        )
        && is(cause_stacked(alloc, 3, &one, &row), ErrorKind::OutOfBounds)
        && is(cause_stacked(alloc, 0, &one, &row), shape)
        && is(
            cause_stacked(alloc, 2, &longest, &longest),
            ErrorKind::Overflow,
        )
}

#[test]
fn joined_and_refused(rt: HostRuntime) {
    assert!(rt; two_tables(rt.alloc()));
    assert!(rt; causes_in_order(rt.alloc()));
}
