//! New arrays: of one value, from a vector, from an iterator, and square matrices.

use nd_array_core::{Array, Array1, Array2, Array3, ArrayD};
use nd_shape_and_slice::{IxDyn, NoMemory, ShapeBuilder};
use nd_test_arrays::{goes_by, is_list, is_table, made, table_stores};
use std::alloc::Global;

// Returns whether an array of zeros is in column-major order.
fn are_zeros_by_columns(zeros: &Array3<i64>) -> bool {
    zeros.strides() == [1, 3, 6].as_slice()
        && zeros.shape() == [3, 2, 4].as_slice()
        && zeros.get([2, 1, 3]).copied() == Some(0)
        && zeros.get([3, 0, 0]).is_none()
}

fn zeros_in_column_major_order(alloc: Global) -> bool {
    match Array::<i64, _>::zeros(alloc, (3, 2, 4).f()) {
        Ok(zeros) => are_zeros_by_columns(&zeros),
        Err(_) => false,
    }
}

// Returns whether a table was made, and has this shape and these numbers.
fn is_made(made: Result<Array2<u64>, NoMemory>, shape: [usize; 2], wanted: &[u64]) -> bool {
    match made {
        Ok(table) => is_table(&table, shape, wanted),
        Err(_) => false,
    }
}

fn ones_and_defaults(alloc: Global) -> bool {
    let ones = match Array2::<u64>::ones(alloc, (2, 3)) {
        Ok(ones) => goes_by(&ones, [3, 1]) && is_table(&ones, [2, 3], &[1, 1, 1, 1, 1, 1]),
        Err(_) => false,
    };
    ones && match Array::<bool, _>::default(alloc, [2, 1]) {
        Ok(defaults) => defaults.len() == 2 && defaults.get([1, 0]).copied() == Some(false),
        Err(_) => false,
    }
}

fn one_value_without_elements(alloc: Global) -> bool {
    match Array::from_elem(alloc, (2, 0), 5u64) {
        Ok(none) => goes_by(&none, [0, 0]) && table_stores(none, &[]),
        Err(_) => false,
    }
}

fn vectors_and_iterators(alloc: Global) -> bool {
    let Ok(items) = Vec::from_slice(alloc, &[7, 8, 9]) else {
        return false;
    };
    let made = is_list(&Array::from_vec(items), &[7, 8, 9]);
    let Ok(items) = Vec::from_slice(alloc, &[7, 8]) else {
        return false;
    };
    let same: Array1<u64> = Array::from(items);
    let Ok(counted) = Array::from_iter(alloc, 3..6u64) else {
        return false;
    };
    let Ok(none) = Array::from_iter(alloc, 3..3u64) else {
        return false;
    };
    made && is_list(&same, &[7, 8]) && is_list(&counted, &[3, 4, 5]) && is_list(&none, &[])
}

fn identities(alloc: Global) -> bool {
    is_made(Array2::eye(alloc, 2), [2, 2], &[1, 0, 0, 1])
        && is_made(Array2::eye(alloc, 0), [0, 0], &[])
}

fn diagonals(alloc: Global) -> bool {
    let line: Option<Array1<u64>> = made(alloc, 2, &[7, 8]);
    let Some(line) = line else {
        return false;
    };
    is_made(Array2::from_diag(alloc, &line), [2, 2], &[7, 0, 0, 8])
        && is_made(Array2::from_diag_elem(alloc, 2, 5), [2, 2], &[5, 0, 0, 5])
}

fn any_number_of_axes(alloc: Global) -> bool {
    match ArrayD::from_elem(alloc, IxDyn::new(&[2, 3]), 4u64) {
        Ok(array) => array.ndim() == 2 && array.len() == 6,
        Err(_) => false,
    }
}

#[test]
fn new_arrays(rt: HostRuntime) {
    assert!(rt; zeros_in_column_major_order(rt.alloc()));
    assert!(rt; ones_and_defaults(rt.alloc()));
    assert!(rt; one_value_without_elements(rt.alloc()));
    assert!(rt; vectors_and_iterators(rt.alloc()));
    assert!(rt; identities(rt.alloc()) && diagonals(rt.alloc()));
    assert!(rt; any_number_of_axes(rt.alloc()));
}
