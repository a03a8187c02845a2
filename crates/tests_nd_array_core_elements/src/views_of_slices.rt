//! Mutable views of slices and of rows, and the errors with which they are refused.

use crate::elements_by_index::put;
use nd_array_core::{ArrayView, ArrayViewMut, GetMut};
use nd_shape_and_slice::{Dimension, ErrorKind, IntoStrideShape, Ix1, Ix2, ShapeBuilder};
use nd_test_arrays::{is_list_seen, is_table_seen, shows};

// Returns the error with which a view of this shape is refused.
fn refusal<D: Dimension, Sh: IntoStrideShape<Dim = D>>(
    items: &mut [u64],
    shape: Sh,
) -> Option<ErrorKind> {
    match ArrayViewMut::from_shape(shape, items) {
        Ok(_) => None,
        Err(error) => Some(error.kind()),
    }
}

const BY_STRIDES: [((usize, usize), [isize; 2], Option<ErrorKind>); 5] = [
    ((2, 2), [1, 1], Some(ErrorKind::Unsupported)),
    ((2, 2), [4, 2], Some(ErrorKind::OutOfBounds)),
    ((2, 2), [3, 1], None),
    ((0, 2), [1, 1], None),
    ((2, 2), [isize::MIN, 1], Some(ErrorKind::Overflow)),
];

const BY_SHAPES: [((usize, usize), Option<ErrorKind>); 4] = [
    ((2, 3), None),
    ((1, 3), None),
    ((2, 4), Some(ErrorKind::OutOfBounds)),
    ((1 << 32, 1 << 31), Some(ErrorKind::Overflow)),
];

fn causes() -> bool {
    let mut items = [1, 2, 3, 4, 5, 6];
    for (shape, strides, cause) in &BY_STRIDES {
        if refusal(&mut items, (*shape).strides(strides)) != *cause {
            return false;
        }
    }
    for (shape, cause) in &BY_SHAPES {
        if refusal(&mut items, *shape) != *cause {
            return false;
        }
    }
    true
}

fn column_major() -> bool {
    let mut items = [1, 2, 3, 4, 5, 6];
    match ArrayViewMut::from_shape((2, 3).f(), &mut items) {
        Ok(view) => {
            view.strides() == [1, 2].as_slice() && shows(&view, [2, 3], &[1, 3, 5, 2, 4, 6])
        }
        Err(_) => false,
    }
}

/// Returns whether the view of a slice has the numbers `old`, and whether the slice has the numbers `new` after 20 is
/// written to its second element through a view.
fn slice_seen_and_written(items: &mut [u64], old: &[u64], new: &[u64]) -> bool {
    let view: ArrayView<'_, u64, Ix1> = ArrayView::from(&*items);
    if !is_list_seen(&view, old) {
        return false;
    }
    let mut view: ArrayViewMut<'_, u64, Ix1> = ArrayViewMut::from(&mut *items);
    match view.get_mut(1) {
        Some(second) => *second = 20,
        None => return false,
    }
    drop(view);
    &*items == new
}

/// Writes a number in the view of two rows, and returns what was there.
fn put_in_two_rows(rows: &mut [[u64; 3]; 2], index: [usize; 2], value: u64) -> Option<u64> {
    let mut seen: ArrayViewMut<'_, u64, Ix2> = ArrayViewMut::from(rows);
    put(&mut seen, index, value)
}

/// Writes a number in the view of some rows, and returns what was there.
fn put_in_rows(rows: &mut [[u64; 3]], index: [usize; 2], value: u64) -> Option<u64> {
    let mut seen: ArrayViewMut<'_, u64, Ix2> = ArrayViewMut::from(rows);
    put(&mut seen, index, value)
}

/// Returns whether the view of two rows has these numbers.
fn rows_seen(rows: &[[u64; 3]; 2], wanted: &[u64]) -> bool {
    let seen: ArrayView<'_, u64, Ix2> = ArrayView::from(rows);
    is_table_seen(&seen, [2, 3], wanted)
}

fn slices_and_rows() -> bool {
    let mut items = [1u64, 2, 3];
    let mut rows = [[1u64, 2, 3], [4, 5, 6]];
    slice_seen_and_written(&mut items, &[1, 2, 3], &[1, 20, 3])
        && rows_seen(&rows, &[1, 2, 3, 4, 5, 6])
        && put_in_two_rows(&mut rows, [0, 2], 30) == Some(3)
        && put_in_rows(&mut rows[1..], [0, 2], 60) == Some(6)
        && items == [1, 20, 3]
        && rows_seen(&rows, &[1, 2, 30, 4, 5, 60])
}

fn rows_without_elements() -> bool {
    let none: [[u64; 0]; 2] = [[], []];
    let seen: ArrayView<'_, u64, Ix2> = ArrayView::from(&none);
    seen.shape() == [2, 0].as_slice() && seen.len() == 0
}

#[test]
fn views_of_what_is_borrowed(rt: HostRuntime) {
    assert!(rt; causes() && column_major());
    assert!(rt; slices_and_rows() && rows_without_elements());
}
