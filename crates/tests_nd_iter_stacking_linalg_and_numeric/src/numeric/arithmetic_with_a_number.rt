//! Arithmetic with a table and a number, in three layouts and without elements. Each call gets its storage here.

use crate::numeric::tables_in_three_layouts::{gives, row_of};
use crate::numeric::tables_with_a_row::{Tested, all_are_right};
use nd_array_core::{ArrayBase, Data};
use nd_numeric::{add_scalar, div_scalar, mul_scalar, sub_scalar};
use nd_shape_and_slice::{Dimension, NdIndex};
use std::alloc::Global;

/// What the calls with a table and a number return.
const MADE: [[u64; 6]; 4] = [
    [3, 4, 5, 6, 7, 8],
    [0, 1, 2, 3, 4, 5],
    [2, 4, 6, 8, 10, 12],
    [0, 1, 1, 2, 2, 3],
];

/// Returns whether the calls with 2, or with 1 for a difference, return the right numbers. This is for all storages and
/// numbers of axes, since a call at known types takes longer to prove.
pub(crate) fn calls_with_a_number_give<S: Data<Elem = u64>, D: Dimension>(
    alloc: Global,
    array: &ArrayBase<S, D>,
    shape: [usize; 2],
    wanted: &[[u64; 6]],
) -> bool
where
    [usize; 2]: NdIndex<D>,
{
    gives(add_scalar(alloc, array, 2), shape, row_of(wanted, 0))
        && gives(sub_scalar(alloc, array, 1), shape, row_of(wanted, 1))
        && gives(mul_scalar(alloc, array, 2), shape, row_of(wanted, 2))
        && gives(div_scalar(alloc, array, 2), shape, row_of(wanted, 3))
}

#[test]
fn computed(rt: HostRuntime) {
    assert!(rt; all_are_right(rt.alloc(), Tested::CallsWithANumber, &MADE));
}
