//! Variances and standard deviations of lists, and of the rows and columns of a table. numpy 1.24 computed the expected
//! values by `var` and `std`. Each call finds storage here.

use crate::numeric::tables_in_three_layouts::{float_list, floats_by, is_number, lists_if_any};
use nd_array_core::{Array2, ArrayBase, Data};
use nd_numeric::{std, std_axis, var, var_axis};
use nd_shape_and_slice::{Axis, Dimension, RemoveAxis};
use std::alloc::Global;
use uses_nd_iter_stacking_and_numeric::standardised_columns::standardise_columns;

/// A list, the delta degrees of freedom, and its variance and standard deviation.
const LISTS: [(&[f64], usize, Option<(f64, f64)>); 8] = [
    (&[1.0, 2.0, 3.0, 4.0], 0, Some((1.25, 1.118033988749895))),
    (
        &[1.0, 2.0, 3.0, 4.0],
        1,
        Some((1.6666666666666667, 1.2909944487358056)),
    ),
    (&[1.0, 2.0, 3.0, 4.0], 4, None),
    (&[5.0], 0, Some((0.0, 0.0))),
    (&[5.0], 1, None),
    (&[0.5, -1.5, 4.0], 1, Some((7.75, 2.7838821814150108))),
    (
        &[2.0, 4.0, 4.0, 4.0, 5.0, 5.0, 7.0, 9.0],
        0,
        Some((4.0, 2.0)),
    ),
    (&[], 0, None),
];

/// Returns the table 1 2 4 / 3 6 8 in row-major order for 0, in column-major order for 1, and with steps for other
/// numbers. Returns `None` where memory is refused.
fn table_in(alloc: Global, layout: usize) -> Option<Array2<f64>> {
    match layout {
        0 => floats_by(alloc, (2, 3), [3, 1], &[1.0, 2.0, 4.0, 3.0, 6.0, 8.0]),
        1 => floats_by(alloc, (2, 3), [1, 2], &[1.0, 3.0, 2.0, 6.0, 4.0, 8.0]),
        _ => {
            let stored = [4.0, 9.0, 2.0, 9.0, 1.0, 9.0, 8.0, 9.0, 6.0, 9.0, 3.0];
            floats_by(alloc, (2, 3), [6, -2], &stored)
        }
    }
}

/// The axis, the delta degrees of freedom, the number of lanes of the table, or 0 where they are too short, and the
/// variances and standard deviations of the lanes, followed by zeros.
type Lanes = (usize, usize, usize, [f64; 3], [f64; 3]);

const LANES: [Lanes; 5] = [
    (0, 0, 3, [1.0, 4.0, 4.0], [1.0, 2.0, 2.0]),
    (
        0,
        1,
        3,
        [2.0, 8.0, 8.0],
        [1.4142135623730951, 2.8284271247461903, 2.8284271247461903],
    ),
    (
        1,
        0,
        2,
        [1.5555555555555554, 4.222222222222222, 0.0],
        [1.247219128924647, 2.0548046676563256, 0.0],
    ),
    (0, 2, 0, [0.0; 3], [0.0; 3]),
    (1, 3, 0, [0.0; 3], [0.0; 3]),
];

/// Returns the first so many of three numbers, or `None` for 0.
fn first_of(numbers: &[f64; 3], count: usize) -> Option<&[f64]> {
    if count == 0 {
        return None;
    }
    numbers.get(..count)
}

/// Returns the variance and the standard deviation of all elements. This is for all storages and numbers of axes, since a
/// call at known types takes longer to prove.
fn spread<S: Data<Elem = f64>, D: Dimension>(
    array: &ArrayBase<S, D>,
    ddof: usize,
) -> (Option<f64>, Option<f64>) {
    (var(array, ddof), std(array, ddof))
}

/// Returns whether a list has this variance and this standard deviation, or neither.
fn list_is_right(alloc: Global, items: &[f64], ddof: usize, wanted: Option<(f64, f64)>) -> bool {
    let Some(list) = float_list(alloc, items) else {
        return false;
    };
    match (spread(&list, ddof), wanted) {
        ((Some(variance), Some(root)), Some((v, r))) => variance == v && root == r,
        ((None, None), None) => true,
        _ => false,
    }
}

/// Returns whether all lists have their variances and standard deviations.
fn lists(alloc: Global) -> bool {
    for (items, ddof, wanted) in &LISTS {
        if !list_is_right(alloc, *items, *ddof, *wanted) {
            return false;
        }
    }
    true
}

/// Returns whether the lanes of an axis have these variances and standard deviations, or none if they are too short.
fn lanes_are_right<S: Data<Elem = f64>, D: RemoveAxis>(
    alloc: Global,
    table: &ArrayBase<S, D>,
    wanted: &Lanes,
) -> bool {
    if wanted.0 >= table.ndim() {
        return false;
    }
    let variances = first_of(&wanted.3, wanted.2);
    let roots = first_of(&wanted.4, wanted.2);
    lists_if_any(var_axis(alloc, table, Axis(wanted.0), wanted.1), variances)
        && lists_if_any(std_axis(alloc, table, Axis(wanted.0), wanted.1), roots)
}

/// Returns whether all lanes of the table are right.
fn table_is_right(alloc: Global, table: &Array2<f64>) -> bool {
    for wanted in &LANES {
        if !lanes_are_right(alloc, table, wanted) {
            return false;
        }
    }
    true
}

/// Returns whether the lanes of the table are right in each layout.
fn lanes(alloc: Global) -> bool {
    for layout in 0..3usize {
        let right = match table_in(alloc, layout) {
            Some(table) => table_is_right(alloc, &table),
            None => false,
        };
        if !right {
            return false;
        }
    }
    true
}

/// Returns the number of a table at a row and a column, if it is there.
fn number_at(table: &Array2<f64>, row: usize, column: usize) -> Option<f64> {
    table.get([row, column]).copied()
}

/// Returns whether a number is there and is a NaN.
fn is_nan(found: Option<f64>) -> bool {
    match found {
        Some(number) => number.is_nan(),
        None => false,
    }
}

/// Returns whether columns are standardised, and one whose numbers are all equal comes to be NaNs.
fn standardised(alloc: Global) -> bool {
    let Some(made) = floats_by(alloc, (2, 3), [3, 1], &[1.0, 2.0, 4.0, 3.0, 6.0, 4.0]) else {
        return false;
    };
    let mut table = made;
    if standardise_columns(alloc, &mut table).is_err() {
        return false;
    }
    is_nan(number_at(&table, 0, 2))
        && is_number(number_at(&table, 0, 0), -1.0)
        && is_number(number_at(&table, 1, 1), 1.0)
}

#[test]
fn spreads(rt: HostRuntime) {
    assert!(rt; lists(rt.alloc()) && lanes(rt.alloc()));
    assert!(rt; standardised(rt.alloc()));
}
