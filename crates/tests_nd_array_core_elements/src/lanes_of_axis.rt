//! Calls on the lanes of an axis, in several layouts: elements that are accumulated in place, lanes that are folded,
//! lanes that are passed to a function, and single lanes.

ghost use Rattle.std.specs.Prelude.{◌≡◌, ◌<◌};
ghost use Rattle.nd_array_core.specs.along.LanesOfArrayWritten.{IsSameLane};

use nd_array_core::{Array2, ArrayView2, ArrayViewMut2, LaneMut, LaneView};
use nd_shape_and_slice::{Axis, Slice, slice_fits};
use nd_test_arrays::{is_list, is_list_seen, is_table, table, table_by, table_stores};
use std::alloc::Global;

/// Adds to each element the one before it along an axis.
fn sum_along(table: &mut Array2<u64>, axis: usize)
    requires { axis < 2 }
{
    let (_rows, _columns) = table.dim();
    table.accumulate_axis_inplace(Axis(axis), |sum, x| *x = x.wrapping_add(*sum));
}

/// Returns whether `fold_axis` returns these numbers for each axis. Each is a 7 followed by the digits of a lane.
fn folds(alloc: Global, table: &ArrayView2<'_, u64>, wanted: &[&[u64]; 2]) -> bool {
    let (_rows, _columns) = table.dim();
    for axis in 0..2usize {
        let folded = table.fold_axis(alloc, Axis(axis), 7, |digits: &u64, x: &u64| {
            digits.wrapping_mul(10).wrapping_add(*x)
        });
        let right = match folded {
            Ok(folded) => is_list(&folded, wanted[axis]),
            Err(_) => false,
        };
        if !right {
            return false;
        }
    }
    true
}

/// Returns the length of a lane followed by its digits, as one number.
fn digits_of(lane: LaneView<'_, u64>) -> u64 {
    let view = lane.into_view();
    let mut digits = view.len() as u64;
    for k in 0..view.len() {
        if let Some(x) = view.get(k) {
            digits = digits.wrapping_mul(10).wrapping_add(*x);
        }
    }
    digits
}

/// Returns whether `map_axis` returns these numbers for each axis, and calls its function once for each lane. Each
/// number is the length of a lane followed by its digits.
fn maps(alloc: Global, table: &ArrayView2<'_, u64>, wanted: &[&[u64]; 2]) -> bool {
    let (_rows, _columns) = table.dim();
    for axis in 0..2usize {
        let mut calls = 0usize;
        let shown = table.map_axis(alloc, Axis(axis), |lane: LaneView<'_, u64>| {
            calls = calls.wrapping_add(1);
            digits_of(lane)
        });
        let right = match shown {
            Ok(shown) => is_list(&shown, wanted[axis]),
            Err(_) => false,
        };
        if !right || calls != wanted[axis].len() {
            return false;
        }
    }
    true
}

/// Replaces the first element of a lane by the lane's length, and returns the old one. Returns 7 if the lane is empty.
fn first_counted(lane: &mut LaneMut<'_, u64>) -> u64
    ensures { IsSameLane lane.old lane.new }
{
    let count = lane.len();
    if count > 0 {
        lane.replace(0, count as u64)
    } else {
        7
    }
}

/// Replaces the first element of each lane of an axis by the lane's length, and returns whether the old ones are these.
fn counts(alloc: Global, table: &mut ArrayViewMut2<'_, u64>, axis: usize, wanted: &[u64]) -> bool {
    let (_rows, _columns) = table.dim();
    if axis >= 2 {
        return false;
    }
    match table.map_axis_mut(alloc, Axis(axis), first_counted) {
        Ok(firsts) => is_list(&firsts, wanted),
        Err(_) => false,
    }
}

/// A table's shape, its strides, and what is stored.
type Laid = ((usize, usize), [isize; 2], &'static [u64]);

const ALL: Slice = Slice {
    start: 0,
    end: None,
    step: 1,
};

/// Every second coordinate, from the last one back.
const SECOND_BACK: Slice = Slice {
    start: 0,
    end: None,
    step: -2,
};

// Tables whose elements are accumulated along an axis: an axis and the elements then, and what is stored then. The
// first three are 1 2 / 3 4 / 5 6 in row-major and in column-major order, and with its rows backwards and other elements
// between them.
const SUMMED: [(Laid, usize, &[u64], &[u64]); 8] = [
    (
        ((3, 2), [2, 1], &[1, 2, 3, 4, 5, 6]),
        0,
        &[1, 2, 4, 6, 9, 12],
        &[1, 2, 4, 6, 9, 12],
    ),
    (
        ((3, 2), [1, 3], &[1, 3, 5, 2, 4, 6]),
        0,
        &[1, 2, 4, 6, 9, 12],
        &[1, 4, 9, 2, 6, 12],
    ),
    (
        ((3, 2), [-4, 1], &[5, 6, 0, 0, 3, 4, 0, 0, 1, 2]),
        0,
        &[1, 2, 4, 6, 9, 12],
        &[9, 12, 0, 0, 4, 6, 0, 0, 1, 2],
    ),
    (((1, 3), [3, 1], &[1, 2, 3]), 0, &[1, 2, 3], &[1, 2, 3]),
    (
        ((3, 2), [2, 1], &[1, 2, 3, 4, 5, 6]),
        1,
        &[1, 3, 3, 7, 5, 11],
        &[1, 3, 3, 7, 5, 11],
    ),
    (((0, 3), [0, 0], &[]), 0, &[], &[]),
    (((3, 8), [8, 1], &ROWS), 0, &SUMS, &SUMS),
    (
        ((8, 3), [1, 8], &ROWS),
        1,
        &[
            1, 2, 2, 2, 3, 4, 3, 4, 4, 4, 5, 6, 5, 6, 6, 6, 7, 8, 7, 8, 8, 8, 9, 10,
        ],
        &SUMS,
    ),
];

/// Three rows of eight numbers, and below their running sums down the columns.
const ROWS: [u64; 24] = [
    1, 2, 3, 4, 5, 6, 7, 8, 1, 1, 1, 1, 1, 1, 1, 1, 0, 1, 0, 1, 0, 1, 0, 1,
];

const SUMS: [u64; 24] = [
    1, 2, 3, 4, 5, 6, 7, 8, 2, 3, 4, 5, 6, 7, 8, 9, 2, 4, 4, 6, 6, 8, 8, 10,
];

/// Accumulates the elements of the tables, and returns whether they are right then.
fn sums_in_each_layout(alloc: Global) -> bool {
    for ((shape, strides, items), axis, shown, stored) in &SUMMED {
        let Some(mut table) = table_by(alloc, *shape, *strides, *items) else {
            return false;
        };
        if *axis >= 2 {
            return false;
        }
        sum_along(&mut table, *axis);
        if !is_table(&table, [shape.0, shape.1], *shown) || !table_stores(table, *stored) {
            return false;
        }
    }
    true
}

const TO_27: [u64; 27] = [
    1, 2, 3, 4, 5, 6, 7, 8, 9, 10, 11, 12, 13, 14, 15, 16, 17, 18, 19, 20, 21, 22, 23, 24, 25, 26,
    27,
];

// Tables, and which of their rows are seen: what `fold_axis` returns for each axis, and what `map_axis` returns.
const LANES: [(Laid, Slice, [&[u64]; 2], [&[u64]; 2]); 7] = [
    (
        ((3, 2), [2, 1], &[1, 2, 3, 4, 5, 6]),
        ALL,
        [&[7135, 7246], &[712, 734, 756]],
        [&[3135, 3246], &[212, 234, 256]],
    ),
    (
        ((3, 2), [1, 3], &[1, 3, 5, 2, 4, 6]),
        ALL,
        [&[7135, 7246], &[712, 734, 756]],
        [&[3135, 3246], &[212, 234, 256]],
    ),
    (
        ((3, 2), [-4, 1], &[5, 6, 0, 0, 3, 4, 0, 0, 1, 2]),
        ALL,
        [&[7135, 7246], &[712, 734, 756]],
        [&[3135, 3246], &[212, 234, 256]],
    ),
    (
        ((3, 2), [2, 1], &[1, 2, 3, 4, 5, 6]),
        SECOND_BACK,
        [&[751, 762], &[756, 712]],
        [&[251, 262], &[256, 212]],
    ),
    (
        ((3, 9), [9, 1], &TO_27),
        ALL,
        [
            &[7219, 7330, 7441, 7552, 7663, 7774, 7885, 7996, 8107],
            &[7123456789, 8123456788, 9123456787],
        ],
        [
            &[3219, 3330, 3441, 3552, 3663, 3774, 3885, 3996, 4107],
            &[9123456789, 10123456788, 11123456787],
        ],
    ),
    (
        ((3, 9), [9, 1], &TO_27),
        SECOND_BACK,
        [
            &[891, 902, 913, 924, 935, 946, 957, 968, 979],
            &[9123456787, 7123456789],
        ],
        [
            &[391, 402, 413, 424, 435, 446, 457, 468, 479],
            &[11123456787, 9123456789],
        ],
    ),
    (
        ((0, 3), [0, 0], &[]),
        ALL,
        [&[7, 7, 7], &[]],
        [&[0, 0, 0], &[]],
    ),
];

/// Returns whether the lanes of some rows of a table are folded and mapped to these numbers.
fn lanes_are(
    alloc: Global,
    table: &Array2<u64>,
    part: Slice,
    folded: &[&[u64]; 2],
    mapped: &[&[u64]; 2],
) -> bool {
    let (rows, _columns) = table.dim();
    if !slice_fits(rows, part) {
        return false;
    }
    let seen = table.slice_axis(Axis(0), part);
    folds(alloc, &seen, folded) && maps(alloc, &seen, mapped)
}

fn lanes_in_each_layout(alloc: Global) -> bool {
    for ((shape, strides, items), part, folded, mapped) in &LANES {
        let Some(table) = table_by(alloc, *shape, *strides, *items) else {
            return false;
        };
        if !lanes_are(alloc, &table, *part, folded, mapped) {
            return false;
        }
    }
    true
}

// Tables, and which of their rows are seen: axes along which the first element of each lane is replaced by the lane's
// length, and the old ones, and then what is stored.
const COUNTED: [(Laid, Slice, &[(usize, &[u64])], &[u64]); 4] = [
    (
        ((3, 2), [2, 1], &[1, 2, 3, 4, 5, 6]),
        ALL,
        &[(1, &[1, 3, 5]), (0, &[2, 2])],
        &[3, 3, 2, 4, 2, 6],
    ),
    (
        ((3, 2), [-4, 1], &[5, 6, 0, 0, 3, 4, 0, 0, 1, 2]),
        ALL,
        &[(1, &[1, 3, 5])],
        &[2, 6, 0, 0, 2, 4, 0, 0, 2, 2],
    ),
    (
        ((3, 2), [2, 1], &[1, 2, 3, 4, 5, 6]),
        SECOND_BACK,
        &[(0, &[5, 6])],
        &[1, 2, 3, 4, 2, 2],
    ),
    (
        ((0, 3), [0, 0], &[]),
        ALL,
        &[(0, &[7, 7, 7]), (1, &[])],
        &[],
    ),
];

/// Returns whether the first elements of the lanes of some rows of a table are replaced as listed.
fn counts_in_part(
    alloc: Global,
    table: &mut Array2<u64>,
    part: Slice,
    steps: &[(usize, &[u64])],
) -> bool {
    let (rows, _columns) = table.dim();
    if !slice_fits(rows, part) {
        return false;
    }
    let mut seen = table.slice_axis_mut(Axis(0), part);
    for (axis, wanted) in steps {
        if !counts(alloc, &mut seen, *axis, *wanted) {
            return false;
        }
    }
    true
}

fn lanes_written_in_row_major_order(alloc: Global) -> bool {
    for ((shape, strides, items), part, steps, stored) in &COUNTED {
        let Some(mut table) = table_by(alloc, *shape, *strides, *items) else {
            return false;
        };
        if !counts_in_part(alloc, &mut table, *part, *steps) || !table_stores(table, *stored) {
            return false;
        }
    }
    true
}

// The strides of 1 2 / 3 4, what is stored, and what is stored after the first element of each row, or of each column,
// is replaced by 2. The 7s lie between the elements.
pub const LAYOUTS: [([isize; 2], &[u64], &[u64], &[u64]); 3] = [
    ([2, 1], &[1, 2, 3, 4], &[2, 2, 2, 4], &[2, 2, 3, 4]),
    ([1, 2], &[1, 3, 2, 4], &[2, 2, 2, 4], &[2, 3, 2, 4]),
    (
        [-4, -2],
        &[4, 7, 3, 7, 2, 7, 1],
        &[4, 7, 2, 7, 2, 7, 2],
        &[4, 7, 3, 7, 2, 7, 2],
    ),
];

/// Returns the table of two rows and two columns that has these strides and is stored as these numbers.
pub fn square(alloc: Global, strides: &[isize; 2], items: &[u64]) -> Option<Array2<u64>> {
    table_by(alloc, (2, 2), *strides, items)
}

/// Replaces the first element of a lane by the lane's length.
fn count_first(lane: &mut LaneMut<'_, u64>)
    ensures { IsSameLane lane.old lane.new }
{
    let count = lane.len();
    if count > 0 {
        lane.replace(0, count as u64);
    }
}

/// Replaces the first element of each lane of an axis by the lane's length. Returns false if there is no such axis.
fn count_along(table: &mut Array2<u64>, axis: usize) -> bool {
    let (_rows, _columns) = table.dim();
    if axis >= 2 {
        return false;
    }
    table.for_each_lane_mut(Axis(axis), count_first);
    true
}

fn lanes_handed_out_where_they_lie(alloc: Global) -> bool {
    for (strides, items, by_rows, by_columns) in &LAYOUTS {
        let Some(mut one) = square(alloc, strides, *items) else {
            return false;
        };
        let Some(mut other) = square(alloc, strides, *items) else {
            return false;
        };
        let counted = count_along(&mut one, 1) && count_along(&mut other, 0);
        if !counted || !table_stores(one, *by_rows) || !table_stores(other, *by_columns) {
            return false;
        }
    }
    true
}

fn lanes_of_length_0_and_no_lane_handed_out(alloc: Global) -> bool {
    let Some(mut none) = table(alloc, (0, 2), &[]) else {
        return false;
    };
    count_along(&mut none, 0)
        && count_along(&mut none, 1)
        && lies(&none, 0, 1, &[])
        && table_stores(none, &[])
}

/// Returns whether the lane of an axis at this index of the other axis has these elements.
fn lies(table: &Array2<u64>, axis: usize, index: usize, wanted: &[u64]) -> bool {
    let (rows, columns) = table.dim();
    if axis == 0 && index < columns {
        let view = table.lane_at(Axis(0), index).into_view();
        return is_list_seen(&view, wanted);
    }
    if axis == 1 && index < rows {
        let view = table.lane_at(Axis(1), index).into_view();
        return is_list_seen(&view, wanted);
    }
    false
}

fn one_lane_of_either_axis(alloc: Global) -> bool {
    for (strides, items, _, _) in &LAYOUTS {
        let Some(table) = square(alloc, strides, *items) else {
            return false;
        };
        if !lies(&table, 0, 0, &[1, 3])
            || !lies(&table, 0, 1, &[2, 4])
            || !lies(&table, 1, 0, &[1, 2])
            || !lies(&table, 1, 1, &[3, 4])
        {
            return false;
        }
    }
    true
}

#[test]
fn lanes_summed_where_they_lie(rt: HostRuntime) {
    assert!(rt; sums_in_each_layout(rt.alloc()));
}

#[test]
fn lanes_passed_to_functions(rt: HostRuntime) {
    assert!(rt; lanes_in_each_layout(rt.alloc()));
    assert!(rt; lanes_written_in_row_major_order(rt.alloc()));
}

#[test]
fn lanes_one_by_one(rt: HostRuntime) {
    assert!(rt; lanes_handed_out_where_they_lie(rt.alloc()));
    assert!(rt; lanes_of_length_0_and_no_lane_handed_out(rt.alloc()));
    assert!(rt; one_lane_of_either_axis(rt.alloc()));
}
