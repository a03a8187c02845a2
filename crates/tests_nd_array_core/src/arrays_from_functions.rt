//! Arrays that are made by a function.

use nd_array_core::Array2;
use nd_shape_and_slice::ShapeBuilder;
use nd_test_arrays::{goes_by, is_table, table_stores};
use std::alloc::Global;

/// Returns 1 above the diagonal, and 0 elsewhere.
fn above_diagonal((row, column): (usize, usize)) -> u64 {
    if row < column { 1 } else { 0 }
}

fn what_a_function_answers(alloc: Global) -> bool {
    let Ok(rows) = Array2::from_shape_fn(alloc, (2, 3), above_diagonal) else {
        return false;
    };
    let Ok(columns) = Array2::from_shape_fn(alloc, (2, 3).f(), above_diagonal) else {
        return false;
    };
    is_table(&rows, [2, 3], &[0, 1, 1, 0, 0, 1])
        && table_stores(rows, &[0, 1, 1, 0, 0, 1])
        && goes_by(&columns, [1, 2])
        && is_table(&columns, [2, 3], &[0, 1, 1, 0, 0, 1])
        && table_stores(columns, &[0, 0, 1, 0, 1, 1])
}

fn a_function_is_called_once_for_each_index(alloc: Global) -> bool {
    let mut calls = 0u64;
    let counted = Array2::from_shape_simple_fn(alloc, (2, 2), || {
        calls = calls.wrapping_add(1);
        calls
    });
    match counted {
        Ok(counted) => is_table(&counted, [2, 2], &[1, 2, 3, 4]) && calls == 4,
        Err(_) => false,
    }
}

#[test]
fn answered(rt: HostRuntime) {
    assert!(rt; what_a_function_answers(rt.alloc()));
    assert!(rt; a_function_is_called_once_for_each_index(rt.alloc()));
}
