//! What is tested with a table in three layouts, and with a table without rows, beside the row 1 2 3.

use crate::numeric::arithmetic::{calls_give, scaled_sums_are_left};
use crate::numeric::arithmetic_with_a_number::calls_with_a_number_give;
use crate::numeric::division_and_zero_divisors::{quotients_are_left, quotients_are_right};
use crate::numeric::operators::operators_leave;
use crate::numeric::tables_in_three_layouts::{eleven_on, meets, one_to_six, row_of};
use nd_array_core::{Array1, Array2, ArrayBase, Data, DataMut};
use nd_shape_and_slice::{Dimension, NdIndex};
use nd_test_arrays::{list, table_stores};
use std::alloc::Global;

/// What is tested: calls that return a new table, or calls or operators in place.
#[derive(Clone, Copy)]
pub enum Tested {
    Calls,
    ScaledSums,
    CallsWithANumber,
    Quotients,
    QuotientsInPlace,
    OperatorsInPlace,
}

/// Returns whether a row can be broadcast to a table, and what is tested gives the right numbers. This is for all
/// storages and numbers of axes, since a call at known types takes longer to prove.
fn gives_or_leaves<S: DataMut<Elem = u64>, D: Dimension, Z: Data<Elem = u64>, E: Dimension>(
    alloc: Global,
    table: &mut ArrayBase<S, D>,
    row: &ArrayBase<Z, E>,
    tested: Tested,
    shape: [usize; 2],
    wanted: &[[u64; 6]],
) -> bool
where
    [usize; 2]: NdIndex<D>,
{
    let first = row_of(wanted, 0);
    if !meets(table, row) {
        return false;
    }
    match tested {
        Tested::Calls => calls_give(alloc, table, row, shape, wanted),
        Tested::ScaledSums => scaled_sums_are_left(table, row, shape, first),
        Tested::CallsWithANumber => calls_with_a_number_give(alloc, table, shape, wanted),
        Tested::Quotients => quotients_are_right(alloc, table, row, shape, first),
        Tested::QuotientsInPlace => quotients_are_left(table, row, shape, first),
        Tested::OperatorsInPlace => operators_leave(table, row, shape, first),
    }
}

/// Returns a table of two rows in a layout, or one without rows, from the numbers that the test has its results for.
fn table_for(alloc: Global, tested: Tested, layout: usize) -> Option<Array2<u64>> {
    match tested {
        Tested::CallsWithANumber => one_to_six(alloc, layout),
        _ => eleven_on(alloc, layout),
    }
}

/// Returns the table as it is after the test. Returns `None` if a number isn't right, or there is no table.
fn left(
    alloc: Global,
    table: Option<Array2<u64>>,
    row: &Array1<u64>,
    tested: Tested,
    shape: [usize; 2],
    wanted: &[[u64; 6]],
) -> Option<Array2<u64>> {
    let mut table = table?;
    if gives_or_leaves(alloc, &mut table, row, tested, shape, wanted) {
        Some(table)
    } else {
        None
    }
}

/// Returns whether the numbers are right for a table in each layout and for one without rows.
pub(crate) fn all_are_right(alloc: Global, tested: Tested, wanted: &[[u64; 6]]) -> bool {
    let Some(row) = list(alloc, &[1, 2, 3]) else {
        return false;
    };
    for layout in 0..3usize {
        let table = table_for(alloc, tested, layout);
        if left(alloc, table, &row, tested, [2, 3], wanted).is_none() {
            return false;
        }
    }
    left(
        alloc,
        table_for(alloc, tested, 3),
        &row,
        tested,
        [0, 3],
        &[],
    )
    .is_some()
}

/// Returns whether a part with steps is stored as these numbers after operators in place, so that what lies between its
/// elements has stayed.
pub(crate) fn part_stores(alloc: Global, wanted: &[[u64; 6]], stored: &[u64]) -> bool {
    let Some(row) = list(alloc, &[1, 2, 3]) else {
        return false;
    };
    match left(
        alloc,
        eleven_on(alloc, 2),
        &row,
        Tested::OperatorsInPlace,
        [2, 3],
        wanted,
    ) {
        Some(part) => table_stores(part, stored),
        None => false,
    }
}
