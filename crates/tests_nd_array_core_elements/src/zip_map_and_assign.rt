//! Two arrays, element by element: a function of the elements of both, and assigning the elements of one to the other.

use nd_array_core::{Array1, Array2};
use nd_test_arrays::{list, table, table_by, table_stores};
use std::alloc::Global;

/// Returns whether an array has these elements, row by row.
fn has(alloc: Global, array: &Array2<u64>, wanted: &[u64]) -> bool {
    match array.to_vec(alloc) {
        Ok(items) => items.as_slice() == wanted,
        Err(_) => false,
    }
}

/// Adds ten times the broadcast of the other array, and then assigns that broadcast. Returns whether the elements are
/// `added` in between, and `assigned` at the end, in row-major order. Returns `None` if the other array can't be
/// broadcast.
fn adds_and_assigns(
    alloc: Global,
    array: &mut Array2<u64>,
    other: &Array1<u64>,
    added: &[u64],
    assigned: &[u64],
) -> Option<bool> {
    match other.broadcast(array.raw_dim()) {
        Some(_) => {}
        None => return None,
    }
    array.zip_mut_with(other, |x, y| *x = x.wrapping_add(y.wrapping_mul(10)));
    let right = has(alloc, array, added);
    Some(right && array.assign(other).is_ok() && has(alloc, array, assigned))
}

/// A table's shape, its strides, and what is stored.
type Laid = ((usize, usize), [isize; 2], &'static [u64]);

// Tables beside lists that are broadcast as rows: the elements after ten times the list is added, those after it is
// assigned, and what is stored then.
const BESIDE_A_LIST: [(Laid, &[u64], &[u64], &[u64], &[u64]); 5] = [
    (
        ((2, 2), [2, 1], &[1, 2, 3, 4]),
        &[1, 2],
        &[11, 22, 13, 24],
        &[1, 2, 1, 2],
        &[1, 2, 1, 2],
    ),
    (
        ((2, 2), [1, 2], &[1, 3, 2, 4]),
        &[1, 2],
        &[11, 22, 13, 24],
        &[1, 2, 1, 2],
        &[1, 1, 2, 2],
    ),
    (
        ((2, 2), [1, 2], &[1, 2, 3, 4]),
        &[8, 9],
        &[81, 93, 82, 94],
        &[8, 9, 8, 9],
        &[8, 8, 9, 9],
    ),
    (
        ((2, 3), [3, 1], &[11, 12, 13, 24, 25, 26]),
        &[100],
        &[1011, 1012, 1013, 1024, 1025, 1026],
        &[100, 100, 100, 100, 100, 100],
        &[100, 100, 100, 100, 100, 100],
    ),
    (((0, 2), [0, 0], &[]), &[1, 2], &[], &[], &[]),
];

fn rows_with_tables(alloc: Global) -> bool {
    for ((shape, strides, items), numbers, added, assigned, stored) in &BESIDE_A_LIST {
        let Some(mut image) = table_by(alloc, *shape, *strides, *items) else {
            return false;
        };
        let Some(row) = list(alloc, *numbers) else {
            return false;
        };
        let right = match adds_and_assigns(alloc, &mut image, &row, *added, *assigned) {
            Some(right) => right,
            None => false,
        };
        if !right || !table_stores(image, *stored) {
            return false;
        }
    }
    true
}

// Tables, and lists that can't be broadcast to their shapes.
const UNFIT: [((usize, usize), &[u64], &[u64]); 2] = [
    ((2, 3), &[1, 2, 3, 4, 5, 6], &[1, 2]),
    ((2, 2), &[1, 2, 3, 4], &[1, 2, 3]),
];

fn rows_that_do_not_fit(alloc: Global) -> bool {
    for (shape, items, numbers) in &UNFIT {
        let Some(image) = table(alloc, *shape, *items) else {
            return false;
        };
        let Some(row) = list(alloc, *numbers) else {
            return false;
        };
        if row.broadcast(image.raw_dim()).is_some() {
            return false;
        }
    }
    true
}

#[test]
fn added_and_assigned(rt: HostRuntime) {
    assert!(rt; rows_with_tables(rt.alloc()));
    assert!(rt; rows_that_do_not_fit(rt.alloc()));
}
