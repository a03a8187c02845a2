//! Operators on tables in row-major order, in column-major order, with steps between the elements, and without rows.
//! Each call gets its storage here.

ghost use Rattle.nd_array_core.specs.arithmetic.ElementwiseArithmetic.{CanMeet};

use crate::numeric::tables_in_three_layouts::{eleven_on, float_list, gives, meets};
use crate::numeric::tables_with_a_row::{Tested, all_are_right, part_stores};
use nd_array_core::{Array, Array1, Array2, ArrayBase, Data, DataMut};
use nd_shape_and_slice::{Dimension, NdIndex};
use nd_test_arrays::{is_table, list, shows, table};
use std::alloc::Global;

/// What operators in place leave of 11 to 16 with the row 1 2 3.
const LEFT: [[u64; 6]; 1] = [[38, 88, 152, 48, 108, 182]];

/// Returns what operators by value make of a table and single numbers. Like the other functions here over any storage and
/// number of axes, it would take longer to prove at known types.
fn with_numbers<S: DataMut<Elem = u64>, D: Dimension>(table: ArrayBase<S, D>) -> ArrayBase<S, D> {
    -(((table + 1) * 10 - 4) / 3) + 200
}

/// Returns whether a row can be broadcast to a table, and the operators by value on both give these numbers.
fn values_give<S: DataMut<Elem = u64> + Drop, D: Dimension, Z: Data<Elem = u64>, E: Dimension>(
    table: ArrayBase<S, D>,
    row: &ArrayBase<Z, E>,
    shape: [usize; 2],
    wanted: &[u64],
) -> bool
where
    [usize; 2]: NdIndex<D>,
{
    if !meets(&table, row) {
        return false;
    }
    let made = with_numbers((table + row) * row - row);
    shows(&made, shape, wanted)
}

/// Changes a table by operators in place, with single numbers.
fn change_by_numbers<S: DataMut<Elem = u64>, D: Dimension>(table: &mut ArrayBase<S, D>) {
    *table += 1;
    *table *= 10;
    *table -= 4;
    *table /= 3;
}

/// Returns whether the operators in place on a table and a row leave these numbers.
pub(crate) fn operators_leave<
    S: DataMut<Elem = u64>,
    D: Dimension,
    Z: Data<Elem = u64>,
    E: Dimension,
>(table: &mut ArrayBase<S, D>, row: &ArrayBase<Z, E>, shape: [usize; 2], wanted: &[u64]) -> bool
where
    [usize; 2]: NdIndex<D>,
    requires { CanMeet table.old row.now }
{
    *table += row;
    *table *= row;
    *table -= row;
    change_by_numbers(table);
    shows(table, shape, wanted)
}

/// Returns whether the operators by value write these numbers to a table.
fn gives_in_place(
    made: Option<Array2<u64>>,
    row: &Array1<u64>,
    shape: [usize; 2],
    wanted: &[u64],
) -> bool {
    match made {
        Some(made) => {
            let mut table = made;
            values_give(table.view_mut(), row, shape, wanted) && is_table(&table, shape, wanted)
        }
        None => false,
    }
}

/// Returns whether the operators by value are right for a table in each layout and for one without rows.
fn by_value(alloc: Global) -> bool {
    let Some(row) = list(alloc, &[1, 2, 3]) else {
        return false;
    };
    for layout in 0..3usize {
        if !gives_in_place(
            eleven_on(alloc, layout),
            &row,
            [2, 3],
            &[162, 112, 48, 152, 92, 18],
        ) {
            return false;
        }
    }
    gives_in_place(eleven_on(alloc, 3), &row, [0, 3], &[])
}

/// Returns whether one array can be broadcast to another one, and the operators by reference on 1 2 3 and the greatest
/// number, and on 2, give the right numbers.
fn gives_by_reference<D: Dimension, Z: Data<Elem = u64>, E: Dimension>(
    one: &Array<u64, D>,
    other: &ArrayBase<Z, E>,
) -> bool
where
    [usize; 2]: NdIndex<D>,
{
    meets(one, other)
        && gives(one + other, [2, 2], &[3, 4, 5, 1])
        && gives(one - other, [2, 2], &[u64::MAX, 0, 1, u64::MAX - 2])
        && gives(one * other, [2, 2], &[2, 4, 6, u64::MAX - 1])
}

fn by_reference(alloc: Global) -> bool {
    let Some(one) = table(alloc, (2, 2), &[1, 2, 3, u64::MAX]) else {
        return false;
    };
    match list(alloc, &[2]) {
        Some(other) => gives_by_reference(&one, &other),
        None => false,
    }
}

/// Returns the second element of a list halved by reference.
fn half<D: Dimension, Z: Data<Elem = f64>>(
    list: &Array<f64, D>,
    two: &ArrayBase<Z, D>,
) -> Option<f64>
where
    usize: NdIndex<D>,
{
    if !meets(list, two) {
        return None;
    }
    match list / two {
        Ok(quotients) => quotients.get(1).copied(),
        Err(_) => None,
    }
}

/// Returns whether a list that is halved, reduced by 0.5 and negated has the third element 2, and the second one -0.375
/// after another halving.
fn is_halved<S: DataMut<Elem = f64> + Drop, D: Dimension, Z: Data<Elem = f64>>(
    list: ArrayBase<S, D>,
    two: &ArrayBase<Z, D>,
) -> bool
where
    usize: NdIndex<D>,
{
    if !meets(&list, two) {
        return false;
    }
    let mut moved = -(list / two - 0.5);
    if moved.get(2).copied() != Some(2.0) {
        return false;
    }
    moved /= two;
    moved.get(1).copied() == Some(-0.375)
}

fn floats(alloc: Global) -> bool {
    let Some(list) = float_list(alloc, &[1.0, 2.5, -3.0]) else {
        return false;
    };
    match float_list(alloc, &[2.0]) {
        Some(two) => half(&list, &two) == Some(1.25) && is_halved(list, &two),
        None => false,
    }
}

#[test]
fn operated(rt: HostRuntime) {
    let alloc = rt.alloc();
    assert!(rt; by_value(alloc) && all_are_right(alloc, Tested::OperatorsInPlace, &LEFT));
    assert!(rt; part_stores(alloc, &LEFT, &[152, 9, 88, 9, 38, 9, 182, 9, 108, 9, 48]));
    assert!(rt; by_reference(alloc) && floats(alloc));
}
