//! Elements that are moved into another array: each is at its index, none is cloned, and each is dropped once.

use nd_array_core::Array2;
use nd_test_arrays::{Refusing, Tally, counted_table, is_counted};
use std::alloc::Global;

// A table of 1 2 / 3 4 in rows, or in rows that go backwards, is moved into a table in rows or in columns: the strides of
// both, the elements then, and what is stored.
const MOVED: [([isize; 2], [isize; 2], &[u64], &[u64]); 3] = [
    ([2, 1], [2, 1], &[1, 2, 3, 4], &[1, 2, 3, 4]),
    ([2, 1], [1, 2], &[1, 2, 3, 4], &[1, 3, 2, 4]),
    ([-2, 1], [2, 1], &[3, 4, 1, 2], &[3, 4, 1, 2]),
];

/// Returns whether a table is stored as these numbers.
fn stored_as(table: Array2<Refusing<'_>>, wanted: &[u64]) -> bool {
    let stored = table.into_raw_vec();
    if stored.len() != wanted.len() {
        return false;
    }
    for k in 0..stored.len() {
        if stored[k].number != wanted[k] {
            return false;
        }
    }
    true
}

/// Moves the elements of a table into another. Returns whether the elements and what is stored are right then, and
/// whether only the numbers that were moved exist.
fn moves_right(
    alloc: Global,
    tally: &Tally,
    (strides, others): ([isize; 2], [isize; 2]),
    shown: &[u64],
    stored: &[u64],
) -> bool {
    let Some(from) = counted_table(alloc, (2, 2), strides, &[1, 2, 3, 4], tally) else {
        return false;
    };
    let Some(mut to) = counted_table(alloc, (2, 2), others, &[5, 6, 7, 8], tally) else {
        return false;
    };
    from.move_into(&mut to);
    tally.has(4) && is_counted(&to, [2, 2], shown) && stored_as(to, stored)
}

fn into_either_order(alloc: Global) -> bool {
    for (strides, others, shown, stored) in &MOVED {
        let tally = Tally::allowing(0);
        let right = moves_right(alloc, &tally, (*strides, *others), *shown, *stored);
        if !right || !tally.has(0) {
            return false;
        }
    }
    true
}

#[test]
fn moved_and_dropped_once(rt: HostRuntime) {
    assert!(rt; into_either_order(rt.alloc()));
}
