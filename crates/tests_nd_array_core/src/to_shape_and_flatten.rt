//! Reshapes, and elements in one line, that copy only if no strides fit the elements where they lie, and what is then
//! stored.

use crate::arrays_by_strides::{Laid, lies, lies_so, seen};
use nd_array_core::{Array3, ArrayError, ArrayViewD, ViewOrOwned};
use nd_shape_and_slice::{ErrorKind, IxDyn, MAX_AXES, Order};
use nd_test_arrays::{is_list_seen, list_by, made, table_by};
use std::alloc::Global;

/// What is stored how, the lengths and the order that are asked for, whether the result is a view, and its strides and
/// its elements in row-major order; or `None` where the lengths are refused.
type Row = (
    Laid,
    &'static [usize],
    Order,
    Option<(bool, &'static [isize], &'static [u64])>,
);

// The numbers from 0 to 47, of which each second one is seen: in row-major order, and in column-major order.
const TO_47: [u64; 48] = [
    0, 1, 2, 3, 4, 5, 6, 7, 8, 9, 10, 11, 12, 13, 14, 15, 16, 17, 18, 19, 20, 21, 22, 23, 24, 25,
    26, 27, 28, 29, 30, 31, 32, 33, 34, 35, 36, 37, 38, 39, 40, 41, 42, 43, 44, 45, 46, 47,
];

const ROWS: [u64; 24] = [
    0, 2, 4, 6, 8, 10, 12, 14, 16, 18, 20, 22, 24, 26, 28, 30, 32, 34, 36, 38, 40, 42, 44, 46,
];

const COLUMNS: [u64; 24] = [
    0, 24, 8, 32, 16, 40, 2, 26, 10, 34, 18, 42, 4, 28, 12, 36, 20, 44, 6, 30, 14, 38, 22, 46,
];

const HALF: Laid = (&[2, 3, 4], &[24, 8, 2], &TO_47);

// Two columns of the table 1 2 3 / 4 5 6.
const TWO: Laid = (&[2, 2], &[3, 1], &[1, 2, 3, 4, 5, 6]);

// Its transpose.
const TURNED: Laid = (&[3, 2], &[1, 3], &[1, 2, 3, 4, 5, 6]);

// Each second element of a last axis, two columns of three, an inverted line as a square, a transpose in both orders, and
// lists that are repeated in a line.
const RESHAPED: [Row; 11] = [
    (HALF, &[24], Order::RowMajor, Some((true, &[2], &ROWS))),
    (
        HALF,
        &[6, 2, 2],
        Order::RowMajor,
        Some((true, &[8, 4, 2], &ROWS)),
    ),
    (
        HALF,
        &[24],
        Order::ColumnMajor,
        Some((false, &[1], &COLUMNS)),
    ),
    (
        TWO,
        &[4],
        Order::RowMajor,
        Some((false, &[1], &[1, 2, 4, 5])),
    ),
    (
        TWO,
        &[2, 1, 2],
        Order::RowMajor,
        Some((true, &[3, 0, 1], &[1, 2, 4, 5])),
    ),
    (TWO, &[5], Order::RowMajor, None),
    (
        (&[4], &[-1], &[1, 2, 3, 4]),
        &[2, 2],
        Order::RowMajor,
        Some((true, &[-2, -1], &[4, 3, 2, 1])),
    ),
    (
        TURNED,
        &[6],
        Order::ColumnMajor,
        Some((true, &[1], &[1, 2, 3, 4, 5, 6])),
    ),
    (
        TURNED,
        &[6],
        Order::RowMajor,
        Some((false, &[1], &[1, 4, 2, 5, 3, 6])),
    ),
    (
        (&[2, 3], &[0, 0], &[5]),
        &[6],
        Order::RowMajor,
        Some((true, &[0], &[5, 5, 5, 5, 5, 5])),
    ),
    (
        (&[3, 2], &[0, 1], &[1, 2]),
        &[6],
        Order::RowMajor,
        Some((false, &[1], &[1, 2, 1, 2, 1, 2])),
    ),
];

// Returns whether a reshape was refused for its shape, or gave a view or a copy as the row says.
fn ends_so(
    alloc: Global,
    end: &Result<ViewOrOwned<'_, u64, IxDyn>, ArrayError>,
    row: &Row,
) -> bool {
    match (end, &row.3) {
        (Ok(reshaped), Some(wanted)) => {
            reshaped.is_view() == wanted.0
                && reshaped.is_owned() != wanted.0
                && lies_so(alloc, &reshaped.view(), row.1, wanted.1, wanted.2)
        }
        (Err(ArrayError::Shape(error)), None) => error.kind() == ErrorKind::IncompatibleShape,
        _ => false,
    }
}

fn reshapes(alloc: Global, row: &Row) -> bool {
    match seen(row.0.0, row.0.1, row.0.2) {
        Ok(view) => {
            row.1.len() <= MAX_AXES
                && ends_so(
                    alloc,
                    &view.to_shape(alloc, (IxDyn::new(row.1), row.2)),
                    row,
                )
        }
        Err(_) => false,
    }
}

fn reshaped_where_they_lie_or_copied(alloc: Global) -> bool {
    for row in &RESHAPED {
        if !reshapes(alloc, row) {
            return false;
        }
    }
    true
}

// Returns whether the longest view of one element is, as a matrix, a view whose strides are 0. Nothing goes over the
// elements.
fn is_longest(alloc: Global, longest: &ArrayViewD<'_, u64>) -> bool {
    longest.last().copied() == Some(5)
        && match longest.to_shape(
            alloc,
            (IxDyn::new(&[7, 1317624576693539401]), Order::RowMajor),
        ) {
            Ok(matrix) => matrix.is_view() && matrix.view().strides() == [0, 0].as_slice(),
            Err(_) => false,
        }
}

fn the_longest_view_as_a_matrix(alloc: Global) -> bool {
    match seen(&[9223372036854775807], &[0], &[5]) {
        Ok(longest) => is_longest(alloc, &longest),
        Err(_) => false,
    }
}

fn elements_in_one_line(alloc: Global) -> bool {
    let boxes: Option<Array3<u64>> = made(alloc, (2, 2, 2), &[1, 2, 3, 4, 5, 6, 7, 8]);
    let Some(boxes) = boxes else {
        return false;
    };
    let by_rows = match boxes.flatten(alloc) {
        Ok(line) => line.is_view() && is_list_seen(&line.view(), &[1, 2, 3, 4, 5, 6, 7, 8]),
        Err(_) => false,
    };
    by_rows
        && match boxes.flatten_with_order(alloc, Order::ColumnMajor) {
            Ok(line) => line.is_owned() && is_list_seen(&line.view(), &[1, 5, 3, 7, 2, 6, 4, 8]),
            Err(_) => false,
        }
}

// Returns whether a vector has these numbers, and there is this offset.
fn is_stored(stored: (Vec<u64>, Option<usize>), wanted: &[u64], at: usize) -> bool {
    let (items, offset) = stored;
    offset == Some(at) && items.as_slice() == wanted
}

fn storage_kept(alloc: Global) -> bool {
    let Some(line) = list_by(alloc, 4, -1, &[1, 2, 3, 4]) else {
        return false;
    };
    match line.into_shape_clone(alloc, (2, 2)) {
        Ok(square) => {
            lies(&square, [-2, -1], [2, 2], &[4, 3, 2, 1])
                && square.as_slice_memory_order() == Some([1, 2, 3, 4].as_slice())
                && is_stored(square.into_raw_vec_and_offset(), &[1, 2, 3, 4], 3)
        }
        Err(_) => false,
    }
}

fn columns_copied_to_a_line(alloc: Global) -> bool {
    let Some(square) = table_by(alloc, (2, 2), [1, 2], &[1, 2, 3, 4]) else {
        return false;
    };
    match square.into_flat(alloc) {
        Ok(flat) => {
            flat.as_slice() == Some([1, 3, 2, 4].as_slice())
                && is_stored(flat.into_raw_vec_and_offset(), &[1, 3, 2, 4], 0)
        }
        Err(_) => false,
    }
}

#[test]
fn regrouped(rt: HostRuntime) {
    assert!(rt; reshaped_where_they_lie_or_copied(rt.alloc()));
    assert!(rt; the_longest_view_as_a_matrix(rt.alloc()));
    assert!(rt; elements_in_one_line(rt.alloc()));
    assert!(rt; storage_kept(rt.alloc()) && columns_copied_to_a_line(rt.alloc()));
}
