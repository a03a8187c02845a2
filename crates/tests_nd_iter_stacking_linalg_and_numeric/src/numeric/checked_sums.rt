//! Sums that must not wrap, in three layouts. Each call gets its storage here.

use crate::numeric::tables_in_three_layouts::pair;
use nd_array_core::{Array1, ArrayBase, Data};
use nd_numeric::{Whole, checked_sum};
use nd_shape_and_slice::Dimension;
use nd_test_arrays::table_by;
use std::alloc::Global;

/// Returns whether an array has this sum, or none that fits its type.
fn adds_up_to<A: Whole + PartialEq, S: Data<Elem = A>, D: Dimension>(
    array: &ArrayBase<S, D>,
    wanted: Option<A>,
) -> bool {
    checked_sum(array) == wanted
}

// The shape and strides of a table, what it is stored as, and its sum, or `None` if that doesn't fit.
const TABLES: [((usize, usize), [isize; 2], &[u64], Option<u64>); 6] = [
    ((2, 4), [4, 1], &[1, 9, 2, 9, 3, 9, 4, 9], Some(46)),
    ((4, 2), [1, 4], &[1, 9, 2, 9, 3, 9, 4, 9], Some(46)),
    ((2, 2), [4, 2], &[1, 9, 2, 9, 3, 9, 4, 9], Some(10)),
    ((0, 2), [0, 0], &[], Some(0)),
    ((1, 2), [2, 1], &[u64::MAX, 1], None),
    ((1, 2), [2, 1], &[u64::MAX, 0], Some(u64::MAX)),
];

fn sums_that_fit_or_not(alloc: Global) -> bool {
    for (shape, strides, items, wanted) in &TABLES {
        let right = match table_by(alloc, *shape, *strides, *items) {
            Some(table) => adds_up_to(&table, *wanted),
            None => false,
        };
        if !right {
            return false;
        }
    }
    true
}

/// Returns whether two numbers have this sum, or none that fits their type.
fn gives<A: Whole + PartialEq>(alloc: Global, one: A, other: A, wanted: Option<A>) -> bool {
    match pair(alloc, one, other) {
        Some(list) => adds_up_to(&list, wanted),
        None => false,
    }
}

fn unsigned_types(alloc: Global) -> bool {
    gives(alloc, 254u8, 1, Some(255))
        && gives(alloc, 255u8, 1, None)
        && gives(alloc, 65534u16, 1, Some(65535))
        && gives(alloc, 65535u16, 1, None)
        && gives(alloc, u32::MAX, 0, Some(u32::MAX))
        && gives(alloc, u32::MAX, 1, None)
        && gives(alloc, usize::MAX, 0, Some(usize::MAX))
        && gives(alloc, usize::MAX, 1, None)
}

fn signed_types(alloc: Global) -> bool {
    gives(alloc, -32767i16, -1, Some(-32768))
        && gives(alloc, i16::MIN, -1, None)
        && gives(alloc, i32::MIN, 0, Some(i32::MIN))
        && gives(alloc, i32::MAX, 1, None)
        && gives(alloc, i64::MIN, 0, Some(i64::MIN))
        && gives(alloc, i64::MAX, 1, None)
        && gives(alloc, isize::MAX, 0, Some(isize::MAX))
        && gives(alloc, isize::MIN, -1, None)
}

/// Numbers whose running sums leave their type, and their sum, or `None` if that doesn't fit either.
const SMALL: [(&[i8], Option<i8>); 2] = [(&[100, 100, -100], Some(100)), (&[-100, -29], None)];

fn signed_sums(alloc: Global) -> bool {
    for (items, wanted) in &SMALL {
        let right = match Vec::from_slice(alloc, *items) {
            Ok(items) => adds_up_to(&Array1::from_vec(items), *wanted),
            Err(_) => false,
        };
        if !right {
            return false;
        }
    }
    true
}

#[test]
fn sums_of_each_type(rt: HostRuntime) {
    let alloc = rt.alloc();
    let lists_are_right = sums_that_fit_or_not(alloc) && signed_sums(alloc);
    assert!(rt; lists_are_right && unsigned_types(alloc) && signed_types(alloc));
}
