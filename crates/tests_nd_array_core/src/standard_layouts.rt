//! Arrays in the standard layout: a view if the elements already lie in that order, and otherwise a copy.

use crate::arrays_by_strides::{Laid, lies_so, seen};
use std::alloc::Global;

/// What is stored how, whether the result is a view, and its strides and its elements in row-major order.
type Row = (Laid, bool, &'static [isize], &'static [u64]);

// The table 1 2 3 / 4 5 6, its transpose, transposes of a row and of no rows, the first two columns, and each second
// column backwards. Axes of length 1 don't count, and no axis counts if there are no elements.
const ROWS: [Row; 6] = [
    (
        (&[2, 3], &[3, 1], &[1, 2, 3, 4, 5, 6]),
        true,
        &[3, 1],
        &[1, 2, 3, 4, 5, 6],
    ),
    (
        (&[3, 2], &[1, 3], &[1, 2, 3, 4, 5, 6]),
        false,
        &[2, 1],
        &[1, 4, 2, 5, 3, 6],
    ),
    ((&[3, 1], &[1, 3], &[1, 2, 3]), true, &[1, 3], &[1, 2, 3]),
    ((&[3, 0], &[0, 0], &[]), true, &[0, 0], &[]),
    (
        (&[2, 2], &[3, 1], &[1, 2, 3, 4, 5, 6]),
        false,
        &[2, 1],
        &[1, 2, 4, 5],
    ),
    (
        (&[2, 2], &[3, -2], &[1, 2, 3, 4, 5, 6]),
        false,
        &[2, 1],
        &[3, 1, 6, 4],
    ),
];

fn is_standard(alloc: Global, row: &Row) -> bool {
    match seen(row.0.0, row.0.1, row.0.2) {
        Ok(view) => match view.as_standard_layout(alloc) {
            Ok(standard) => {
                standard.is_view() == row.1
                    && lies_so(alloc, &standard.view(), row.0.0, row.2, row.3)
            }
            Err(_) => false,
        },
        Err(_) => false,
    }
}

#[test]
fn seen_or_copied(rt: HostRuntime) {
    for row in &ROWS {
        assert!(rt; is_standard(rt.alloc(), row));
    }
}
