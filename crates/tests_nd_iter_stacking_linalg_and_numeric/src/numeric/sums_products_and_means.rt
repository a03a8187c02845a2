//! Sums, products, means, and least and greatest elements of small tables, in three layouts. Each call gets its storage
//! here.
#![tactic(auto, using(nd_array_core::proofs::AxesOfDimensionTypes::known_axes))]

use crate::numeric::tables_in_three_layouts::{gives, lists, lists_if_any, one_to_six};
use crate::numeric::totals::{ends_at, totals};
use nd_array_core::{Array1, Array2, Array3, ArrayBase, Data};
use nd_numeric::{cumsum, mean_axis, outer, product_axis, sum_axis, trace};
use nd_shape_and_slice::{Axis, Dimension, Ix3, NdIndex, RemoveAxis};
use nd_test_arrays::{made, table};
use std::alloc::Global;

/// The number of an axis, and the sums, the products and the means of its lanes.
type Lanes = (
    usize,
    &'static [u64],
    &'static [u64],
    Option<&'static [u64]>,
);

/// Returns whether the lanes of an axis add up to these. Like the other functions here over any storage and number of
/// axes, it would take longer to prove at known types.
fn lanes_add_up<S: Data<Elem = u64>, D: RemoveAxis>(
    alloc: Global,
    array: &ArrayBase<S, D>,
    wanted: &Lanes,
) -> bool {
    if wanted.0 >= array.ndim() {
        return false;
    }
    lists(sum_axis(alloc, array, Axis(wanted.0)), wanted.1)
        && lists(product_axis(alloc, array, Axis(wanted.0)), wanted.2)
        && lists_if_any(mean_axis(alloc, array, Axis(wanted.0)), wanted.3)
}

/// The sum and the product of an array, its mean, its least and its greatest element.
type All = (u64, u64, Option<u64>, Option<u64>, Option<u64>);

/// Returns whether all elements of an array add up to these.
fn all_add_up<S: Data<Elem = u64>, D: Dimension>(array: &ArrayBase<S, D>, wanted: &All) -> bool {
    let (sum, product, mean, least, greatest) = totals(array);
    sum == wanted.0
        && product == wanted.1
        && mean == wanted.2
        && least == wanted.3
        && greatest == wanted.4
}

/// The lengths of a table, the number of an axis, and the running sums along it.
type Running = ([usize; 2], usize, &'static [u64]);

/// Returns whether these are the running sums along an axis.
fn sums_run<S: Data<Elem = u64>, D: Dimension>(
    alloc: Global,
    table: &ArrayBase<S, D>,
    wanted: &Running,
) -> bool
where
    [usize; 2]: NdIndex<D>,
{
    wanted.1 < table.ndim() && gives(cumsum(alloc, table, Axis(wanted.1)), wanted.0, wanted.2)
}

/// The numbers of the columns and of the rows of a table, those of all elements, its trace, and its running sums.
type Wanted = (Lanes, Lanes, All, u64, Running);

/// Returns whether there is a table that adds up to these numbers.
fn adds_up(alloc: Global, made: Option<Array2<u64>>, wanted: &Wanted) -> bool {
    match made {
        Some(table) => {
            lanes_add_up(alloc, &table, &wanted.0)
                && lanes_add_up(alloc, &table, &wanted.1)
                && all_add_up(&table, &wanted.2)
                && trace(&table) == wanted.3
                && sums_run(alloc, &table, &wanted.4)
        }
        None => false,
    }
}

/// The numbers of 1 2 3 / 4 5 6.
const OF_TWO_ROWS: Wanted = (
    (0, &[5, 7, 9], &[4, 10, 18], Some(&[2, 3, 4])),
    (1, &[6, 15], &[6, 120], Some(&[2, 5])),
    (21, 720, Some(3), Some(1), Some(6)),
    6,
    ([2, 3], 1, &[1, 3, 6, 4, 9, 15]),
);

const OF_NO_ROWS: Wanted = (
    (0, &[0, 0], &[1, 1], None),
    (1, &[], &[], Some(&[])),
    (0, 1, None, None, None),
    0,
    ([0, 2], 0, &[]),
);

/// Returns whether a table in each layout, and one without rows, add up to the right numbers.
fn in_each_layout(alloc: Global) -> bool {
    for layout in 0..3usize {
        if !adds_up(alloc, one_to_six(alloc, layout), &OF_TWO_ROWS) {
            return false;
        }
    }
    adds_up(alloc, table(alloc, (0, 2), &[]), &OF_NO_ROWS)
}

/// The numbers of 1 to 8.
const OF_EIGHT: All = (36, 40320, Some(4), Some(1), Some(8));

/// Returns whether an array has these sums along the second axis, and they are a table of two rows and two columns.
fn middle_sums_are<S: Data<Elem = u64>, D: RemoveAxis>(
    alloc: Global,
    array: &ArrayBase<S, D>,
    wanted: &[u64],
) -> bool
where
    [usize; 2]: NdIndex<D::Smaller>,
{
    1 < array.ndim() && gives(sum_axis(alloc, array, Axis(1)), [2, 2], wanted)
}

/// Returns whether an array of three axes with the elements 1 to 8 has these sums along the second axis, and the other
/// numbers of these elements, and the greatest element at the last index.
fn three_axes_add_up<S: Data<Elem = u64>>(
    alloc: Global,
    array: &ArrayBase<S, Ix3>,
    wanted: &[u64],
) -> bool {
    let (_least, greatest) = ends_at(array);
    middle_sums_are(alloc, array, wanted)
        && all_add_up(array, &OF_EIGHT)
        && greatest == Some((1, 1, 1))
}

fn three_axes(alloc: Global) -> bool {
    let array: Option<Array3<u64>> = made(alloc, (2, 2, 2), &[1, 2, 3, 4, 5, 6, 7, 8]);
    match array {
        Some(array) => {
            three_axes_add_up(alloc, &array.view(), &[4, 6, 12, 14])
                && three_axes_add_up(alloc, &array.t(), &[4, 12, 6, 14])
        }
        None => false,
    }
}

/// Returns whether the outer products of two vectors, and of none and a vector, are right.
fn products_of_vectors(alloc: Global) -> bool {
    let other: Option<Array1<u64>> = made(alloc, 3, &[1, 10, 100]);
    let Some(other) = other else {
        return false;
    };
    let one: Option<Array1<u64>> = made(alloc, 2, &[2, 3]);
    let right = match one {
        Some(one) => gives(
            outer(alloc, &one, &other),
            [2, 3],
            &[2, 20, 200, 3, 30, 300],
        ),
        None => false,
    };
    let none: Option<Array1<u64>> = made(alloc, 0, &[]);
    match none {
        Some(none) => right && gives(outer(alloc, &none, &other), [0, 3], &[]),
        None => false,
    }
}

#[test]
fn added_up(rt: HostRuntime) {
    assert!(rt; in_each_layout(rt.alloc()));
    assert!(rt; three_axes(rt.alloc()) && products_of_vectors(rt.alloc()));
}
