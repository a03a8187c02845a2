//! Quotients of two arrays, in three layouts, and whether there is a divisor of 0. Each call gets its storage here.

ghost use Rattle.nd_array_core.specs.arithmetic.ElementwiseArithmetic.{CanMeet};

use crate::numeric::tables_in_three_layouts::{float_list, gives};
use crate::numeric::tables_with_a_row::{Tested, all_are_right};
use nd_array_core::{Array2, ArrayBase, Data, DataMut};
use nd_numeric::{are_divisors, div};
use nd_shape_and_slice::{Dimension, NdIndex};
use nd_test_arrays::{shows, table};
use std::alloc::Global;

/// The quotients of a table and a row.
const QUOTIENTS: [[u64; 6]; 1] = [[11, 6, 4, 14, 7, 5]];

/// Returns whether a row has no 0, and the quotients of a table and the row are these. This is for all storages and
/// numbers of axes, since a call at known types takes longer to prove.
pub(crate) fn quotients_are_right<
    S: Data<Elem = u64>,
    D: Dimension,
    Z: Data<Elem = u64>,
    E: Dimension,
>(
    alloc: Global,
    table: &ArrayBase<S, D>,
    row: &ArrayBase<Z, E>,
    shape: [usize; 2],
    wanted: &[u64],
) -> bool
where
    [usize; 2]: NdIndex<D>,
    requires { CanMeet table.now row.now }
{
    are_divisors(row) && gives(div(alloc, table, row), shape, wanted)
}

/// Returns whether a row has no 0, and `/=` leaves these quotients.
pub(crate) fn quotients_are_left<
    S: DataMut<Elem = u64>,
    D: Dimension,
    Z: Data<Elem = u64>,
    E: Dimension,
>(table: &mut ArrayBase<S, D>, row: &ArrayBase<Z, E>, shape: [usize; 2], wanted: &[u64]) -> bool
where
    [usize; 2]: NdIndex<D>,
    requires { CanMeet table.old row.now }
{
    if !are_divisors(row) {
        return false;
    }
    *table /= row;
    shows(table, shape, wanted)
}

/// Returns whether no element of a table is 0, or one is, as `wanted` says.
fn divides(table: Option<Array2<u64>>, wanted: bool) -> bool {
    match table {
        Some(table) => are_divisors(&table) == wanted,
        None => false,
    }
}

/// Returns whether `are_divisors` finds a 0 among whole numbers, and takes a float of 0 as a divisor.
fn divisors(alloc: Global) -> bool {
    let Some(numbers) = float_list(alloc, &[0.0, 1.0]) else {
        return false;
    };
    are_divisors(&numbers)
        && divides(table(alloc, (2, 2), &[1, 2, 3, 0]), false)
        && divides(table(alloc, (0, 2), &[]), true)
}

#[test]
fn divided(rt: HostRuntime) {
    let alloc = rt.alloc();
    let right = all_are_right(alloc, Tested::Quotients, &QUOTIENTS);
    assert!(rt; right && all_are_right(alloc, Tested::QuotientsInPlace, &QUOTIENTS));
    assert!(rt; divisors(alloc));
}
