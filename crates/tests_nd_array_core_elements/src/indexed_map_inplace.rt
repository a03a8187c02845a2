//! Elements written with their indexes in hand, in row-major order, whatever the layout.

use nd_array_core::Array2;
use nd_test_arrays::{table_by, table_stores};
use std::alloc::Global;

/// Writes a hundred times each number with its row and its column behind, and returns the numbers in the order in which
/// they came, as digits.
fn mark(table: &mut Array2<u64>) -> u64 {
    let mut order = 0u64;
    table.indexed_map_inplace(|(row, column), x| {
        order = order.wrapping_mul(10).wrapping_add(*x);
        let place = (row as u64).wrapping_mul(10).wrapping_add(column as u64);
        *x = x.wrapping_mul(100).wrapping_add(place);
    });
    order
}

// 1 2 / 3 4 by rows, by columns, and with both axes turned round, where the 7s lie between; no element, and one: the
// shape, the strides, what is stored, the order in which the elements come, and what is stored then.
const TABLES: [((usize, usize), [isize; 2], &[u64], u64, &[u64]); 5] = [
    ((2, 2), [2, 1], &[1, 2, 3, 4], 1234, &[100, 201, 310, 411]),
    ((2, 2), [1, 2], &[1, 3, 2, 4], 1234, &[100, 310, 201, 411]),
    (
        (2, 2),
        [-4, -2],
        &[4, 7, 3, 7, 2, 7, 1],
        1234,
        &[411, 7, 310, 7, 201, 7, 100],
    ),
    ((0, 2), [0, 0], &[], 0, &[]),
    ((1, 1), [1, 1], &[5], 5, &[500]),
];

fn rows_and_columns_in_each_layout(alloc: Global) -> bool {
    for (shape, strides, items, order, marked) in &TABLES {
        let Some(mut table) = table_by(alloc, *shape, *strides, *items) else {
            return false;
        };
        if mark(&mut table) != *order || !table_stores(table, *marked) {
            return false;
        }
    }
    true
}

#[test]
fn marked_by_their_indexes(rt: HostRuntime) {
    assert!(rt; rows_and_columns_in_each_layout(rt.alloc()));
}
