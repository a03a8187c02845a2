//! A closure over all elements: totals.

use nd_array_core::ArrayView2;
use nd_test_arrays::table_by;
use std::alloc::Global;

/// Returns the sum, the product and the largest of the elements.
fn totals(table: &ArrayView2<'_, u64>) -> (u64, u64, u64) {
    table.fold((0, 1, 0), |(sum, product, most), x: &u64| {
        (
            u64::wrapping_add(sum, *x),
            u64::wrapping_mul(product, *x),
            u64::max(most, *x),
        )
    })
}

// The strides of a table of two rows and three columns: in row-major and column-major order, and with the columns in the
// opposite order.
const STRIDES: [[isize; 2]; 3] = [[3, 1], [1, 2], [3, -1]];

fn totals_in_each_layout(alloc: Global) -> bool {
    for strides in &STRIDES {
        let Some(table) = table_by(alloc, (2, 3), *strides, &[1, 2, 3, 4, 5, 6]) else {
            return false;
        };
        if totals(&table.view()) != (21, 720, 6) || totals(&table.t()) != (21, 720, 6) {
            return false;
        }
    }
    true
}

#[test]
fn folded(rt: HostRuntime) {
    assert!(rt; totals_in_each_layout(rt.alloc()));
}
