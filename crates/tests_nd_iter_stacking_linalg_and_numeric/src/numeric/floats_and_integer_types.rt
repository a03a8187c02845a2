//! Arithmetic on floats, and the sum and the product of two numbers of each type. Each call gets its storage here.

use crate::numeric::tables_in_three_layouts::{
    float_list, floats_by, is_number, lists_floats, pair,
};
use crate::numeric::totals::totals;
use nd_array_core::{Array1, ArrayBase, Data, DataMut};
use nd_numeric::{Reorderable, add_scalar, product, sum, var};
use nd_shape_and_slice::{Dimension, Ix1};
use std::alloc::Global;
use uses_nd_iter_stacking_and_numeric::sums_squares_and_scaled_add::total_in_order;

/// Returns whether the sums of the numbers of a list and 0.5 are these.
fn sums_are<S: Data<Elem = f64>>(alloc: Global, list: &ArrayBase<S, Ix1>, wanted: &[f64]) -> bool {
    match add_scalar(alloc, list, 0.5) {
        Ok(sums) => lists_floats(&sums, wanted),
        Err(_) => false,
    }
}

/// Returns whether a list has the sum 3, the mean 1, and -1.5 and 4 as its least and its greatest number.
fn totals_are_right<S: Data<Elem = f64>>(list: &ArrayBase<S, Ix1>) -> bool {
    let (sum, _product, mean, least, greatest) = totals(list);
    sum == 3.0 && is_number(mean, 1.0) && is_number(least, -1.5) && is_number(greatest, 4.0)
}

/// Returns whether calls give what they should for the list 0.5 -1.5 4.
fn list_is_right<S: DataMut<Elem = f64>>(alloc: Global, list: &mut ArrayBase<S, Ix1>) -> bool {
    if !sums_are(alloc, list, &[1.0, -1.0, 4.5]) || !totals_are_right(list) {
        return false;
    }
    *list *= 2.0;
    lists_floats(list, &[1.0, -3.0, 8.0])
}

fn list(alloc: Global) -> bool {
    match float_list(alloc, &[0.5, -1.5, 4.0]) {
        Some(made) => {
            let mut list = made;
            list_is_right(alloc, &mut list)
        }
        None => false,
    }
}

/// Returns whether the sum of an array is this one, by `sum` and by `total_in_order`, and its mean is this one. This is for
/// all storages and numbers of axes, since a call at known types takes longer to prove.
fn adds_up_to<S: Data<Elem = f64>, D: Dimension>(
    array: &ArrayBase<S, D>,
    wanted: f64,
    wanted_mean: f64,
) -> bool {
    let (sum, _product, mean, _least, _greatest) = totals(array);
    sum == wanted && total_in_order(array) == wanted && is_number(mean, wanted_mean)
}

/// Returns whether a table of this shape and with these strides has this sum and this mean. It is stored as numbers
/// whose sum rests on their order.
fn table_adds_up(
    alloc: Global,
    shape: (usize, usize),
    strides: [isize; 2],
    wanted: f64,
    wanted_mean: f64,
) -> bool {
    match floats_by(alloc, shape, strides, &[1e16, 1.0, 1.0, 1.0, -1e16, 1.0]) {
        Some(table) => adds_up_to(&table, wanted, wanted_mean),
        None => false,
    }
}

/// Returns whether sums of floats go in row-major order. In that order the numbers of three rows have the sum 1, and
/// those of the transpose the sum 3, as numpy's `cumsum` has it.
fn sums_in_row_major_order(alloc: Global) -> bool {
    table_adds_up(alloc, (3, 2), [2, 1], 1.0, 0.16666666666666666)
        && table_adds_up(alloc, (2, 3), [1, 2], 3.0, 0.5)
}

/// Returns whether two numbers have this sum and this product.
fn gives<A: Reorderable + PartialEq>(
    alloc: Global,
    one: A,
    other: A,
    wanted_sum: A,
    wanted_product: A,
) -> bool {
    match pair(alloc, one, other) {
        Some(list) => sum(&list) == wanted_sum && product(&list) == wanted_product,
        None => false,
    }
}

fn signed_types(alloc: Global) -> bool {
    gives(alloc, i8::MAX, 2, -127, -2)
        && gives(alloc, i16::MAX, 2, -32767, -2)
        && gives(alloc, i32::MAX, 2, -2147483647, -2)
        && gives(alloc, i64::MAX, 2, -9223372036854775807, -2)
        && gives(alloc, isize::MAX, 2, -9223372036854775807, -2)
        && gives(alloc, i128::MAX, 2, i128::MIN + 1, -2)
}

fn unsigned_types(alloc: Global) -> bool {
    gives(alloc, u8::MAX, 2, 1, 254)
        && gives(alloc, u16::MAX, 2, 1, 65534)
        && gives(alloc, u32::MAX, 2, 1, 4294967294)
        && gives(alloc, usize::MAX, 2, 1, 18446744073709551614)
        && gives(alloc, u128::MAX, 2, 1, u128::MAX - 1)
}

fn single_precision(alloc: Global) -> bool {
    let numbers: [f32; 4] = [1.0, 2.0, 3.0, 4.0];
    match Vec::from_array(alloc, numbers) {
        Ok(numbers) => {
            let list = Array1::from_vec(numbers);
            let (sum, product, _mean, _least, _greatest) = totals(&list);
            sum == 10.0 && product == 24.0 && var(&list, 0) == Some(1.25)
        }
        Err(_) => false,
    }
}

#[test]
fn numbers_of_each_type(rt: HostRuntime) {
    let alloc = rt.alloc();
    let floats_are_right = list(alloc) && sums_in_row_major_order(alloc) && single_precision(alloc);
    assert!(rt; floats_are_right && signed_types(alloc) && unsigned_types(alloc));
}
