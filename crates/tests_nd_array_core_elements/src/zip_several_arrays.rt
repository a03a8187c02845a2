//! Calls on two and on three arrays at once: in row-major and in column-major order, with negative strides, without
//! elements, and with axes of length 1.

use crate::lanes_of_axis::{LAYOUTS, square};
use nd_array_core::{Array, Array1, Array2};
use nd_shape_and_slice::Dimension;
use nd_test_arrays::{list, table};
use std::alloc::Global;

/// Returns whether an array has these elements, row by row.
fn has<D: Dimension>(alloc: Global, array: &Array<u64, D>, wanted: &[u64]) -> bool {
    match array.to_vec(alloc) {
        Ok(items) => items.as_slice() == wanted,
        Err(_) => false,
    }
}

/// Returns whether `zip_map`, with a function that adds to each element ten times the element of the broadcast other
/// array, returns these numbers, and whether `zip_fold` and `zip_for_each` are called with the same elements.
fn zips<D: Dimension, E: Dimension>(
    alloc: Global,
    array: &Array<u64, D>,
    other: &Array<u64, E>,
    wanted: &[u64],
) -> bool {
    match other.broadcast(array.raw_dim()) {
        Some(_) => {}
        None => return false,
    }
    let digits = array.zip_fold(other, 0u64, |total: u64, x: &u64, y: &u64| {
        total
            .wrapping_mul(100)
            .wrapping_add(x.wrapping_add(y.wrapping_mul(10)))
    });
    let mut folded = 0u64;
    let mut squares = 0u64;
    for x in wanted {
        folded = folded.wrapping_mul(100).wrapping_add(*x);
        squares = squares.wrapping_add(x.wrapping_mul(*x));
    }
    let mut shown = 0usize;
    let mut squares_shown = 0u64;
    array.zip_for_each(other, |x: &u64, y: &u64| {
        let sum = x.wrapping_add(y.wrapping_mul(10));
        shown = shown.wrapping_add(1);
        squares_shown = squares_shown.wrapping_add(sum.wrapping_mul(sum));
    });
    match array.zip_map(
        alloc,
        other,
        |x: &u64, y: &u64| x.wrapping_add(y.wrapping_mul(10)),
    ) {
        Ok(zipped) => {
            has(alloc, &zipped, wanted)
                && digits == folded
                && shown == wanted.len()
                && squares_shown == squares
        }
        Err(_) => false,
    }
}

fn zips_tables(alloc: Global, one: &Array2<u64>, other: &Array2<u64>, wanted: &[u64]) -> bool {
    zips(alloc, one, other, wanted)
}

fn zips_a_list(alloc: Global, one: &Array2<u64>, other: &Array1<u64>, wanted: &[u64]) -> bool {
    zips(alloc, one, other, wanted)
}

fn a_row_a_column_and_one_element_with_a_table(alloc: Global) -> bool {
    let Some(one) = table(alloc, (2, 2), &[1, 2, 3, 4]) else {
        return false;
    };
    let Some(row) = list(alloc, &[5, 6]) else {
        return false;
    };
    let Some(column) = table(alloc, (2, 1), &[7, 8]) else {
        return false;
    };
    let Some(single) = table(alloc, (1, 1), &[9]) else {
        return false;
    };
    let Some(none) = table(alloc, (0, 2), &[]) else {
        return false;
    };
    zips_a_list(alloc, &one, &row, &[51, 62, 53, 64])
        && zips_tables(alloc, &one, &column, &[71, 72, 83, 84])
        && zips_tables(alloc, &one, &single, &[91, 92, 93, 94])
        && zips_tables(alloc, &single, &single, &[99])
        && zips_tables(alloc, &none, &none, &[])
        && zips_a_list(alloc, &none, &row, &[])
        && zips_three_with_a_row(alloc, &one, &row, &column, &[751, 762, 853, 864])
        && zips_three_tables(alloc, &one, &single, &one, &[191, 292, 393, 494])
        && zips_three_tables(alloc, &single, &single, &single, &[999])
        && zips_three_with_a_row(alloc, &none, &row, &none, &[])
}

/// Returns whether `zip_map_with_two` gives the wanted elements, row by row, for a function that adds ten times the second
/// element and a hundred times the third to the first, and whether that function was called once for each element.
fn zips_three<D: Dimension, E: Dimension, G: Dimension>(
    alloc: Global,
    array: &Array<u64, D>,
    second: &Array<u64, E>,
    third: &Array<u64, G>,
    wanted: &[u64],
) -> bool {
    match second.broadcast(array.raw_dim()) {
        Some(_) => {}
        None => return false,
    }
    match third.broadcast(array.raw_dim()) {
        Some(_) => {}
        None => return false,
    }
    let mut calls = 0usize;
    let zipped = array.zip_map_with_two(alloc, second, third, |x: &u64, y: &u64, z: &u64| {
        calls = calls.wrapping_add(1);
        x.wrapping_add(y.wrapping_mul(10))
            .wrapping_add(z.wrapping_mul(100))
    });
    calls == wanted.len()
        && match zipped {
            Ok(zipped) => has(alloc, &zipped, wanted),
            Err(_) => false,
        }
}

fn zips_three_tables(
    alloc: Global,
    one: &Array2<u64>,
    second: &Array2<u64>,
    third: &Array2<u64>,
    wanted: &[u64],
) -> bool {
    zips_three(alloc, one, second, third, wanted)
}

fn zips_three_with_a_row(
    alloc: Global,
    one: &Array2<u64>,
    second: &Array1<u64>,
    third: &Array2<u64>,
    wanted: &[u64],
) -> bool {
    zips_three(alloc, one, second, third, wanted)
}

/// Returns whether two tables, and three of which two are the same, are zipped in each two layouts, and also tables that
/// are stored from the last element back without gaps.
fn tables_in_each_layout(alloc: Global) -> bool {
    for (strides, items, _, _) in &LAYOUTS {
        for (others, other_items, _, _) in &LAYOUTS {
            let Some(one) = square(alloc, strides, *items) else {
                return false;
            };
            let Some(other) = square(alloc, others, *other_items) else {
                return false;
            };
            if !zips_tables(alloc, &one, &other, &[11, 22, 33, 44])
                || !zips_three_tables(alloc, &one, &other, &one, &[111, 222, 333, 444])
            {
                return false;
            }
        }
    }
    let Some(backwards) = square(alloc, &[-2, -1], &[4, 3, 2, 1]) else {
        return false;
    };
    zips_tables(alloc, &backwards, &backwards, &[11, 22, 33, 44])
        && zips_three_tables(
            alloc,
            &backwards,
            &backwards,
            &backwards,
            &[111, 222, 333, 444],
        )
}

#[test]
fn two_tables_or_three(rt: HostRuntime) {
    assert!(rt; tables_in_each_layout(rt.alloc()));
    assert!(rt; a_row_a_column_and_one_element_with_a_table(rt.alloc()));
}
