//! Arrays and views that are made in row-major order or by given strides, and the errors with which they are refused.

use crate::arrays_by_strides::{Laid, lies_so, owned, seen};
use nd_array_core::{Array, ArrayView, ArrayViewD};
use nd_shape_and_slice::{Axis, ErrorKind, IxDyn, MAX_AXES};
use std::alloc::Global;

// Returns how making an array of these lengths in row-major order ends: with `None`, or with an error.
fn array_refusal(alloc: Global, lengths: &[usize], items: &[u64]) -> Option<ErrorKind> {
    let Ok(items) = Vec::from_slice(alloc, items) else {
        return Some(ErrorKind::RangeLimited);
    };
    if lengths.len() > MAX_AXES {
        return Some(ErrorKind::RangeLimited);
    }
    match Array::from_shape_vec(IxDyn::new(lengths), items) {
        Ok(_) => None,
        Err(error) => Some(error.kind()),
    }
}

// Returns how making a view of these lengths in row-major order ends: with `None`, or with an error.
fn view_refusal(lengths: &[usize], items: &[u64]) -> Option<ErrorKind> {
    if lengths.len() > MAX_AXES {
        return Some(ErrorKind::RangeLimited);
    }
    match ArrayView::from_shape(IxDyn::new(lengths), items) {
        Ok(_) => None,
        Err(error) => Some(error.kind()),
    }
}

// Lengths, elements, and the error with which an array of them is refused.
const VECTORS: [(&[usize], &[u64], Option<ErrorKind>); 4] = [
    (&[2, 3], &[0, 1, 2, 3, 4], Some(ErrorKind::OutOfBounds)),
    (&[2, 3], &[0, 1, 2, 3, 4, 5], None),
    (
        &[2, 3],
        &[0, 1, 2, 3, 4, 5, 6],
        Some(ErrorKind::IncompatibleShape),
    ),
    (
        &[1099511627776, 1099511627776, 0],
        &[],
        Some(ErrorKind::Overflow),
    ),
];

fn causes_of_vectors(alloc: Global) -> bool {
    for (lengths, items, wanted) in &VECTORS {
        if array_refusal(alloc, *lengths, *items) != *wanted {
            return false;
        }
    }
    true
}

// Lengths, and the error with which a view of seven elements is refused.
const SLICES: [(&[usize], Option<ErrorKind>); 3] = [
    (&[2, 4], Some(ErrorKind::OutOfBounds)),
    (&[2, 3], None),
    (&[4294967296, 2147483648], Some(ErrorKind::Overflow)),
];

fn causes_of_slices() -> bool {
    for (lengths, wanted) in &SLICES {
        if view_refusal(*lengths, &[1, 2, 3, 4, 5, 6, 7]) != *wanted {
            return false;
        }
    }
    true
}

/// What is stored how, and the elements in row-major order, or the error with which an array or a view is refused.
type Row = (Laid, Result<&'static [u64], ErrorKind>);

// Arrays: two indexes share an element, and there are too few elements; gaps between the rows, and a negative stride; no
// elements, for which five are wanted all the same; and a span that is too large.
const ARRAYS: [Row; 7] = [
    ((&[2, 2], &[1, 1], &[1, 2, 3]), Err(ErrorKind::Unsupported)),
    (
        (&[2, 2], &[4, 1], &[1, 2, 3, 4, 5]),
        Err(ErrorKind::OutOfBounds),
    ),
    (
        (&[2, 2], &[4, 1], &[1, 2, 3, 4, 5, 6, 7, 8]),
        Ok(&[1, 2, 5, 6]),
    ),
    ((&[3], &[-1], &[1, 2, 3]), Ok(&[3, 2, 1])),
    (
        (&[2, 0, 3], &[3, 6, -1], &[1, 2, 3, 4]),
        Err(ErrorKind::OutOfBounds),
    ),
    ((&[2, 0, 3], &[3, 6, -1], &[1, 2, 3, 4, 5]), Ok(&[])),
    (
        (&[1099511627776, 1099511627776, 0], &[1, 1, 1], &[1]),
        Err(ErrorKind::Overflow),
    ),
];

// Views: two indexes share an element, and a row is repeated; the least, the greatest and a negative stride; and the least
// stride where there is a single element.
const VIEWS: [Row; 6] = [
    ((&[2, 2], &[1, 1], &[1, 2, 3]), Ok(&[1, 2, 2, 3])),
    ((&[2, 3], &[0, 1], &[1, 2, 3]), Ok(&[1, 2, 3, 1, 2, 3])),
    ((&[2], &[isize::MIN], &[1, 2]), Err(ErrorKind::Overflow)),
    ((&[2], &[isize::MAX], &[1, 2]), Err(ErrorKind::OutOfBounds)),
    ((&[2], &[-1], &[1, 2]), Ok(&[2, 1])),
    ((&[1], &[isize::MIN], &[5]), Ok(&[5])),
];

// Returns whether a view was refused or shows its elements as the row says.
fn ends_so(alloc: Global, end: &Result<ArrayViewD<'_, u64>, ErrorKind>, row: &Row) -> bool {
    match (end, &row.1) {
        (Ok(view), Ok(wanted)) => lies_so(alloc, view, row.0.0, row.0.1, *wanted),
        (Err(error), Err(wanted)) => *error == *wanted,
        _ => false,
    }
}

// Returns whether an array is refused or shows its elements as the row says.
fn array_ends_so(alloc: Global, row: &Row) -> bool {
    match owned(alloc, &row.0) {
        Ok(array) => ends_so(alloc, &Ok(array.view()), row),
        Err(error) => ends_so(alloc, &Err(error), row),
    }
}

fn arrays_by_strides(alloc: Global) -> bool {
    for row in &ARRAYS {
        if !array_ends_so(alloc, row) {
            return false;
        }
    }
    true
}

fn views_by_strides(alloc: Global) -> bool {
    for row in &VIEWS {
        if !ends_so(alloc, &seen(row.0.0, row.0.1, row.0.2), row) {
            return false;
        }
    }
    true
}

// The least stride can't be negated; the stride of an axis of one element becomes 0 where the axis is inverted.
fn least_stride() -> bool {
    match seen(&[1], &[isize::MIN], &[5]) {
        Ok(one) => {
            let mut view = one;
            if view.ndim() != 1 {
                return false;
            }
            view.invert_axis(Axis(0));
            view.strides() == [0].as_slice() && view.first().copied() == Some(5)
        }
        Err(_) => false,
    }
}

#[test]
fn constructed(rt: HostRuntime) {
    assert!(rt; causes_of_vectors(rt.alloc()) && causes_of_slices());
    assert!(rt; arrays_by_strides(rt.alloc()));
    assert!(rt; views_by_strides(rt.alloc()) && least_stride());
}
