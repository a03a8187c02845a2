//! Reshapes of numbers of which no clone is allowed.

use nd_array_core::{Array2, ArrayError};
use nd_test_arrays::{Refusing, Tally, counted_table};
use std::alloc::Global;

// Returns whether a table can't be reshaped to five numbers, nor to eight, because of their number.
fn finds_no_shape(alloc: Global, table: Array2<Refusing<'_>>) -> bool {
    let seen = match table.to_shape(alloc, 5) {
        Err(ArrayError::Shape(_)) => true,
        _ => false,
    };
    seen && match table.into_shape_clone(alloc, (2, 4)) {
        Err(ArrayError::Shape(_)) => true,
        _ => false,
    }
}

// Returns whether a shape with another number of elements is refused before any clone is made.
fn is_found_first(alloc: Global, tally: &Tally) -> bool {
    match counted_table(alloc, (3, 2), [1, 3], &[1, 2, 3, 4, 5, 6], tally) {
        Some(turned) => finds_no_shape(alloc, turned),
        None => false,
    }
}

fn a_shape_of_another_size_is_found_first(alloc: Global) -> bool {
    let tally = Tally::allowing(0);
    is_found_first(alloc, &tally) && tally.has(0)
}

#[test]
fn clones_of_reshapes(rt: HostRuntime) {
    assert!(rt; a_shape_of_another_size_is_found_first(rt.alloc()));
}
