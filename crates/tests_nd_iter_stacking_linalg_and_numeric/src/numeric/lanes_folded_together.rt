//! Sums of lanes that are so many that they are added up together, one coordinate after another.

use nd_numeric::sum_axis;
use nd_shape_and_slice::Axis;
use nd_test_arrays::{consecutive, table_by};
use std::alloc::Global;

/// Returns the sum of the last column of a table of 3 rows and 150 columns. The table has these strides, and is stored
/// as 3000 consecutive numbers, from `first` on.
fn last_sum(alloc: Global, strides: [isize; 2], first: u64) -> Option<u64> {
    let stored = consecutive(alloc, first, 3000)?;
    let table = table_by(alloc, (3, 150), strides, stored.as_slice())?;
    match sum_axis(alloc, &table, Axis(0)) {
        Ok(sums) => sums.get(149).copied(),
        Err(_) => None,
    }
}

/// Returns whether a number is there and is this one.
fn is_number(found: Option<u64>, wanted: u64) -> bool {
    match found {
        Some(number) => number == wanted,
        None => false,
    }
}

/// Returns whether the sums of every second column of a wide table, forwards and backwards, are right. Each number of
/// the wide table is 1000 times its row plus its column. The last column is 298 forwards, and 1 backwards.
fn sums_of_columns(alloc: Global) -> bool {
    is_number(last_sum(alloc, [1000, 2], 0), 3894)
        && is_number(last_sum(alloc, [1000, -2], 1), 3003)
}

#[test]
fn added_up_together(rt: HostRuntime) {
    assert!(rt; sums_of_columns(rt.alloc()));
}
