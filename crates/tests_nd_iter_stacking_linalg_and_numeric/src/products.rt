//! Products of small vectors and matrices, in row-major and column-major order. Each call gets its storage here.

use nd_array_core::{Array1, ArrayView2};
use nd_linalg::{dot, matrix_dot, matrix_dot_vector};
use nd_shape_and_slice::size_of_shape_checked;
use nd_test_arrays::{is_list, is_table, list, table};
use std::alloc::Global;

/// Returns whether two matrices can be multiplied, and their product has this shape and these numbers.
fn multiply_to(
    alloc: Global,
    one: &ArrayView2<'_, u64>,
    other: &ArrayView2<'_, u64>,
    shape: [usize; 2],
    wanted: &[u64],
) -> bool {
    let (rows, inner) = one.dim();
    let (same, columns) = other.dim();
    if same != inner || size_of_shape_checked(&[rows, columns]).is_err() {
        return false;
    }
    match matrix_dot(alloc, one, other) {
        Ok(product) => is_table(&product, shape, wanted),
        Err(_) => false,
    }
}

/// Returns whether a matrix and a vector can be multiplied, and their product has these numbers.
fn maps_to(
    alloc: Global,
    matrix: &ArrayView2<'_, u64>,
    vector: &Array1<u64>,
    wanted: &[u64],
) -> bool {
    let (_rows, columns) = matrix.dim();
    if vector.dim() != columns {
        return false;
    }
    match matrix_dot_vector(alloc, matrix, vector) {
        Ok(product) => is_list(&product, wanted),
        Err(_) => false,
    }
}

fn two_matrices(alloc: Global) -> bool {
    let Some(one) = table(alloc, (2, 3), &[3, 7, 8, 5, 2, 4]) else {
        return false;
    };
    let Some(other) = table(alloc, (3, 2), &[1, 9, 0, 5, 4, 1]) else {
        return false;
    };
    multiply_to(alloc, &one.view(), &other.view(), [2, 2], &[35, 70, 21, 59])
        && multiply_to(alloc, &other.t(), &one.t(), [2, 2], &[35, 21, 70, 59])
}

fn empty_axes(alloc: Global) -> bool {
    let Some(one) = table(alloc, (2, 0), &[]) else {
        return false;
    };
    let Some(other) = table(alloc, (0, 3), &[]) else {
        return false;
    };
    let Some(two) = table(alloc, (3, 2), &[1, 9, 0, 5, 4, 1]) else {
        return false;
    };
    let Some(vector) = list(alloc, &[1, 10, 100]) else {
        return false;
    };
    multiply_to(
        alloc,
        &one.view(),
        &other.view(),
        [2, 3],
        &[0, 0, 0, 0, 0, 0],
    ) && multiply_to(alloc, &other.view(), &two.view(), [0, 2], &[])
        && maps_to(alloc, &other.view(), &vector, &[])
}

fn matrix_and_vector(alloc: Global) -> bool {
    let Some(matrix) = table(alloc, (2, 3), &[3, 7, 8, 5, 2, 4]) else {
        return false;
    };
    let Some(turned) = table(alloc, (3, 2), &[3, 5, 7, 2, 8, 4]) else {
        return false;
    };
    let Some(vector) = list(alloc, &[1, 10, 100]) else {
        return false;
    };
    maps_to(alloc, &matrix.view(), &vector, &[873, 425])
        && maps_to(alloc, &turned.t(), &vector, &[873, 425])
}

fn two_vectors(alloc: Global) -> bool {
    match list(alloc, &[1, 10, 100]) {
        Some(vector) => dot(&vector, &vector) == 10101,
        None => false,
    }
}

/// Returns the vector of two numbers.
fn pair(alloc: Global, first: i64, second: i64) -> Option<Array1<i64>> {
    let mut items = Vec::new(alloc);
    match items.push(first) {
        Ok(_) => {}
        Err(_) => return None,
    }
    match items.push(second) {
        Ok(_) => Some(Array1::from_vec(items)),
        Err(_) => None,
    }
}

fn sums_wrap(alloc: Global) -> bool {
    match pair(alloc, 3037000499, 3037000499) {
        Some(vector) => dot(&vector, &vector) == -11857053614,
        None => false,
    }
}

#[test]
fn small_products(rt: HostRuntime) {
    assert!(rt; two_matrices(rt.alloc()));
    assert!(rt; empty_axes(rt.alloc()));
    assert!(rt; matrix_and_vector(rt.alloc()));
    assert!(rt; two_vectors(rt.alloc()) && sums_wrap(rt.alloc()));
}
