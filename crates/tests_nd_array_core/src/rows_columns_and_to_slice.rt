//! Questions about an array, and its elements as one slice or as one element.

use nd_array_core::{Array, Array2};
use nd_shape_and_slice::Ix0;
use nd_test_arrays::{is_table, table, table_by};
use std::alloc::Global;

fn rows_and_columns_counted(alloc: Global) -> bool {
    let Some(table) = table(alloc, (2, 5), &[0, 1, 2, 3, 4, 5, 6, 7, 8, 9]) else {
        return false;
    };
    let turned = table.t();
    let (rows, columns) = table.dim();
    rows == 2
        && columns == 5
        && table.nrows() == 2
        && table.ncols() == 5
        && !table.is_square()
        && !table.is_empty()
        && turned.nrows() == 5
        && turned.ncols() == 2
}

fn squares_and_tables_of_nothing(alloc: Global) -> bool {
    let Some(square) = table(alloc, (2, 2), &[0, 1, 2, 3]) else {
        return false;
    };
    let Some(none) = table(alloc, (0, 3), &[]) else {
        return false;
    };
    square.is_square()
        && none.is_empty()
        && none.nrows() == 0
        && none.ncols() == 3
        && none.len() == 0
}

fn one_element_taken(alloc: Global) -> bool {
    match Array::<u64, Ix0>::from_elem(alloc, (), 7) {
        Ok(seven) => seven.into_scalar() == 7,
        Err(_) => false,
    }
}

// Returns whether there is a slice, and it has these numbers.
fn is_slice(slice: Option<&[u64]>, wanted: &[u64]) -> bool {
    match slice {
        Some(slice) => slice == wanted,
        None => false,
    }
}

fn a_slice_that_outlives_its_view(table: &Array2<u64>) -> bool {
    is_slice(table.view().to_slice(), &[1, 2, 3, 4])
        && table.t().to_slice().is_none()
        && is_slice(table.t().to_slice_memory_order(), &[1, 2, 3, 4])
}

fn elements_as_slices(alloc: Global) -> bool {
    match table(alloc, (2, 2), &[1, 2, 3, 4]) {
        Some(table) => a_slice_that_outlives_its_view(&table),
        None => false,
    }
}

fn columns_one_after_the_other(alloc: Global) -> bool {
    let Some(table) = table_by(alloc, (2, 2), [1, 2], &[1, 2, 3, 4]) else {
        return false;
    };
    !table.is_standard_layout()
        && table.t().is_standard_layout()
        && is_table(&table, [2, 2], &[1, 3, 2, 4])
}

#[test]
fn questions_answered(rt: HostRuntime) {
    assert!(rt; rows_and_columns_counted(rt.alloc()));
    assert!(rt; squares_and_tables_of_nothing(rt.alloc()));
    assert!(rt; one_element_taken(rt.alloc()));
    assert!(rt; elements_as_slices(rt.alloc()));
    assert!(rt; columns_one_after_the_other(rt.alloc()));
}
