//! The indexes of the least and the greatest element, and the least and the greatest element of each lane. Each call
//! gets its storage here.

use crate::numeric::tables_in_three_layouts::{float_list, lists};
use crate::numeric::totals::{ends_at, totals};
use nd_array_core::{Array2, ArrayBase, Data};
use nd_numeric::{argmax_axis, argmin_axis, max_axis, min_axis};
use nd_shape_and_slice::{Axis, RemoveAxis};
use nd_test_arrays::{table, table_by};
use std::alloc::Global;

/// Lists, the position of the least number and that of the greatest. Of equal numbers it is the first, -0 equals 0, and a
/// NaN comes after all numbers.
const FLOATS: [(&[f64], Option<usize>, Option<usize>); 7] = [
    (&[], None, None),
    (&[0.5, f64::NAN, -1.5, -1.5], Some(2), Some(1)),
    (&[2.0, 7.0, 7.0, 2.0], Some(0), Some(1)),
    (&[0.0, -0.0], Some(0), Some(0)),
    (&[-0.0, 0.0], Some(0), Some(0)),
    (
        &[f64::NAN, f64::INFINITY, f64::NEG_INFINITY],
        Some(2),
        Some(0),
    ),
    (&[f64::NAN, f64::NAN], Some(0), Some(0)),
];

/// The least elements of the columns and the greatest of the rows of a table, the rows of the former and the columns of the
/// latter, and the indexes of the least and of the greatest of all.
type Ends = (
    &'static [Option<u64>],
    &'static [Option<u64>],
    &'static [Option<usize>],
    &'static [Option<usize>],
    Option<(usize, usize)>,
    Option<(usize, usize)>,
);

/// Returns whether the least elements of the columns and the greatest of the rows of a table, and their coordinates, are
/// these. This is for all storages and numbers of axes, since a call at known types takes longer to prove.
fn lane_ends_are<S: Data<Elem = u64>, D: RemoveAxis>(
    alloc: Global,
    table: &ArrayBase<S, D>,
    wanted: &Ends,
) -> bool {
    1 < table.ndim()
        && lists(min_axis(alloc, table, Axis(0)), wanted.0)
        && lists(max_axis(alloc, table, Axis(1)), wanted.1)
        && lists(argmin_axis(alloc, table, Axis(0)), wanted.2)
        && lists(argmax_axis(alloc, table, Axis(1)), wanted.3)
}

/// Returns whether there is a table, and its least and greatest elements, and their indexes, are these.
fn ends_are_right(alloc: Global, made: Option<Array2<u64>>, wanted: &Ends) -> bool {
    match made {
        Some(table) => {
            let (least, greatest) = ends_at(&table);
            lane_ends_are(alloc, &table, wanted) && least == wanted.4 && greatest == wanted.5
        }
        None => false,
    }
}

/// Returns the table 5 1 9 / 9 3 1 in row-major order for 0, in column-major order for 1, and with steps for 2. For
/// other numbers it returns a table of two columns without rows. Returns `None` where memory is refused.
fn table_in(alloc: Global, layout: usize) -> Option<Array2<u64>> {
    match layout {
        0 => table_by(alloc, (2, 3), [3, 1], &[5, 1, 9, 9, 3, 1]),
        1 => table_by(alloc, (2, 3), [1, 2], &[5, 9, 1, 3, 9, 1]),
        2 => table_by(alloc, (2, 3), [6, -2], &[9, 0, 1, 0, 5, 0, 1, 0, 3, 0, 9]),
        _ => table(alloc, (0, 2), &[]),
    }
}

const ENDS: Ends = (
    &[Some(5), Some(1), Some(1)],
    &[Some(9), Some(9)],
    &[Some(0), Some(0), Some(1)],
    &[Some(2), Some(0)],
    Some((0, 1)),
    Some((0, 2)),
);

const OF_NOTHING: Ends = (&[None, None], &[], &[None, None], &[], None, None);

/// Returns whether the ends of the table in each layout, and those of a table without rows, are right.
fn ends_in_each_layout(alloc: Global) -> bool {
    for layout in 0..3usize {
        if !ends_are_right(alloc, table_in(alloc, layout), &ENDS) {
            return false;
        }
    }
    ends_are_right(alloc, table_in(alloc, 3), &OF_NOTHING)
}

/// Returns whether the least and the greatest number of a list, and their positions, are those at these positions.
fn list_ends_are(
    alloc: Global,
    items: &[f64],
    least: Option<usize>,
    greatest: Option<usize>,
) -> bool {
    let Some(list) = float_list(alloc, items) else {
        return false;
    };
    let (_sum, _product, _mean, lowest, highest) = totals(&list);
    let (lowest_at, highest_at) = ends_at(&list);
    lowest_at == least
        && highest_at == greatest
        && is_at(items, least, lowest)
        && is_at(items, greatest, highest)
}

/// Returns whether both numbers are NaN, or they are equal and have the same sign.
fn is_same(x: f64, y: f64) -> bool {
    if x.is_nan() || y.is_nan() {
        return x.is_nan() && y.is_nan();
    }
    x == y && 1.0 / x == 1.0 / y
}

/// Returns whether a number is the one at a position, or there is neither.
fn is_at(items: &[f64], position: Option<usize>, number: Option<f64>) -> bool {
    match (position, number) {
        (Some(k), Some(x)) => match items.get(k) {
            Some(y) => is_same(x, *y),
            None => false,
        },
        (None, None) => true,
        _ => false,
    }
}

/// Returns whether the ends of all lists of floats are right.
fn ends_of_floats(alloc: Global) -> bool {
    for (items, least, greatest) in &FLOATS {
        if !list_ends_are(alloc, *items, *least, *greatest) {
            return false;
        }
    }
    true
}

#[test]
fn ends(rt: HostRuntime) {
    assert!(rt; ends_in_each_layout(rt.alloc()) && ends_of_floats(rt.alloc()));
}
