//! Calls along an axis, in several layouts: coordinates that are selected, and one that is removed.

use nd_array_core::Array1;
use nd_shape_and_slice::Axis;
use nd_test_arrays::{is_list, is_table, list_by, table};
use std::alloc::Global;

fn columns_chosen_and_none(alloc: Global) -> bool {
    let Some(table) = table(alloc, (3, 2), &[0, 1, 2, 3, 4, 5]) else {
        return false;
    };
    let Ok(chosen) = table.select(alloc, Axis(1), &[1, 1, 0]) else {
        return false;
    };
    let Ok(none) = table.select(alloc, Axis(0), &[]) else {
        return false;
    };
    is_table(&chosen, [3, 3], &[1, 1, 0, 3, 3, 2, 5, 5, 4]) && is_table(&none, [0, 2], &[])
}

// For a list of 1 to 4 and for one of 4 to 1 the stride, the list without its second number, and what is stored then
// with the position of the first number.
const ONE_TAKEN_OUT: [(isize, &[u64], &[u64], usize); 2] = [
    (1, &[1, 3, 4], &[1, 3, 4, 2], 0),
    (-1, &[4, 2, 1], &[3, 1, 2, 4], 3),
];

/// Returns whether a list is stored as these numbers, and its first element is at the position `at`.
fn lies_from(line: Array1<u64>, stored: &[u64], at: usize) -> bool {
    let (items, offset) = line.into_raw_vec_and_offset();
    let begins = match offset {
        Some(first) => first == at,
        None => false,
    };
    begins && items.as_slice() == stored
}

fn one_taken_out(alloc: Global) -> bool {
    for (stride, shown, stored, at) in &ONE_TAKEN_OUT {
        let Some(mut line) = list_by(alloc, 4, *stride, &[1, 2, 3, 4]) else {
            return false;
        };
        if line.dim() != 4 {
            return false;
        }
        line.remove_index(Axis(0), 1);
        if !is_list(&line, *shown) || !lies_from(line, *stored, *at) {
            return false;
        }
    }
    true
}

#[test]
fn chosen_or_taken_out(rt: HostRuntime) {
    assert!(rt; columns_chosen_and_none(rt.alloc()));
    assert!(rt; one_taken_out(rt.alloc()));
}
