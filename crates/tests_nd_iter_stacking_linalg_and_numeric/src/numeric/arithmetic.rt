//! Arithmetic on small tables, in three layouts and without rows. Each call gets its storage here.

ghost use Rattle.nd_array_core.specs.arithmetic.ElementwiseArithmetic.{CanMeet};

use crate::numeric::tables_in_three_layouts::{gives, row_of};
use crate::numeric::tables_with_a_row::{Tested, all_are_right};
use nd_array_core::{ArrayBase, Data, DataMut};
use nd_numeric::{add, mul, negate, scaled_add, sub};
use nd_shape_and_slice::{Dimension, NdIndex};
use nd_test_arrays::{is_table, shows, table};
use std::alloc::Global;

/// The sums, the differences and the products of a table and a row.
const MADE: [[u64; 6]; 3] = [
    [12, 14, 16, 15, 17, 19],
    [10, 10, 10, 13, 13, 13],
    [11, 24, 39, 14, 30, 48],
];

/// What `scaled_add` leaves of 11 to 16 with ten times the row 1 2 3.
const LEFT: [[u64; 6]; 1] = [[21, 32, 43, 24, 35, 46]];

/// Returns whether the sum, the difference and the product of a table and a row are these. This is for all storages and
/// numbers of axes, since a call at known types takes longer to prove.
pub(crate) fn calls_give<S: Data<Elem = u64>, D: Dimension, Z: Data<Elem = u64>, E: Dimension>(
    alloc: Global,
    table: &ArrayBase<S, D>,
    row: &ArrayBase<Z, E>,
    shape: [usize; 2],
    wanted: &[[u64; 6]],
) -> bool
where
    [usize; 2]: NdIndex<D>,
    requires { CanMeet table.now row.now }
{
    gives(add(alloc, table, row), shape, row_of(wanted, 0))
        && gives(sub(alloc, table, row), shape, row_of(wanted, 1))
        && gives(mul(alloc, table, row), shape, row_of(wanted, 2))
}

/// Returns whether `scaled_add` of a table and a row leaves the right numbers.
pub(crate) fn scaled_sums_are_left<
    S: DataMut<Elem = u64>,
    D: Dimension,
    Z: Data<Elem = u64>,
    E: Dimension,
>(table: &mut ArrayBase<S, D>, row: &ArrayBase<Z, E>, shape: [usize; 2], wanted: &[u64]) -> bool
where
    [usize; 2]: NdIndex<D>,
    requires { CanMeet table.old row.now }
{
    scaled_add(table, 10, row);
    shows(table, shape, wanted)
}

/// Returns whether `negate` changes the signs of a table.
fn signs(alloc: Global) -> bool {
    match table(alloc, (1, 2), &[0, 1]) {
        Some(made) => {
            let mut table = made;
            negate(&mut table);
            is_table(&table, [1, 2], &[0, u64::MAX])
        }
        None => false,
    }
}

#[test]
fn computed(rt: HostRuntime) {
    let alloc = rt.alloc();
    assert!(rt;
        all_are_right(alloc, Tested::Calls, &MADE)
            && all_are_right(alloc, Tested::ScaledSums, &LEFT)
    );
    assert!(rt; signs(alloc));
}
