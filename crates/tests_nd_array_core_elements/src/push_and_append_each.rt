//! Rows and columns that are pushed to tables, and several arrays that are appended in one call: the elements then, and
//! how they lie in the storage.

use crate::append_and_reserve_checks::{
    Case, End, Step, all_hold, end_of, is_stored, list_room, longest_stays, refused_at, three_after,
};
use nd_array_core::{Array1, Array2, ArrayD};
use nd_shape_and_slice::Axis;
use nd_test_arrays::{any_axes, is_list, is_table, list, stores, table};
use std::alloc::Global;

// Rows and columns after 1 3 / 2 4, which is stored column by column, and after 2 1 / 4 3, which is stored with its
// rows backwards.
const AFTER_EXCHANGED_AXES: [Case; 3] = [
    Case {
        table: ((2, 2), [1, 2], &[1, 2, 3, 4]),
        steps: &[(0, Step::Push(&[9, 8]), End::Done)],
        strides: [2, 1],
        lengths: [3, 2],
        shown: &[1, 3, 2, 4, 9, 8],
        stored: &[1, 3, 2, 4, 9, 8],
    },
    Case {
        table: ((2, 2), [1, 2], &[1, 2, 3, 4]),
        steps: &[(1, Step::Push(&[9, 8]), End::Done)],
        strides: [1, 2],
        lengths: [2, 3],
        shown: &[1, 3, 9, 2, 4, 8],
        stored: &[1, 2, 3, 4, 9, 8],
    },
    Case {
        table: ((2, 2), [2, -1], &[1, 2, 3, 4]),
        steps: &[(0, Step::Push(&[9, 8]), End::Done)],
        strides: [2, -1],
        lengths: [3, 2],
        shown: &[2, 1, 4, 3, 9, 8],
        stored: &[1, 2, 3, 4, 8, 9],
    },
];

// If the numbers stay where they are, the stride of the axis that grows becomes the number of the other elements,
// whatever it was while the axis had length 1.
const AFTER_ONE_ROW: [Case; 2] = [
    Case {
        table: ((1, 4), [4, 1], &[1, 2, 3, 4]),
        steps: &[(0, Step::Push(&[9, 8, 7, 6]), End::Done)],
        strides: [4, 1],
        lengths: [2, 4],
        shown: &[1, 2, 3, 4, 9, 8, 7, 6],
        stored: &[1, 2, 3, 4, 9, 8, 7, 6],
    },
    Case {
        table: ((1, 4), [7, -1], &[1, 2, 3, 4]),
        steps: &[(0, Step::Push(&[9, 8, 7, 6]), End::Done)],
        strides: [4, -1],
        lengths: [2, 4],
        shown: &[4, 3, 2, 1, 9, 8, 7, 6],
        stored: &[1, 2, 3, 4, 6, 7, 8, 9],
    },
];

const ONE_NUMBER: [Case; 2] = [
    Case {
        table: ((2, 3), [3, 1], &[1, 2, 3, 4, 5, 6]),
        steps: &[(0, Step::Push(&[9]), End::Done)],
        strides: [3, 1],
        lengths: [3, 3],
        shown: &[1, 2, 3, 4, 5, 6, 9, 9, 9],
        stored: &[1, 2, 3, 4, 5, 6, 9, 9, 9],
    },
    Case {
        table: ((2, 3), [3, 1], &[1, 2, 3, 4, 5, 6]),
        steps: &[
            (0, Step::Push(&[9]), End::Done),
            (1, Step::Push(&[9]), End::Done),
        ],
        strides: [1, 3],
        lengths: [3, 4],
        shown: &[1, 2, 3, 9, 4, 5, 6, 9, 9, 9, 9, 9],
        stored: &[1, 4, 9, 2, 5, 9, 3, 6, 9, 9, 9, 9],
    },
];

const UNFIT: [Case; 1] = [Case {
    table: ((2, 3), [3, 1], &[1, 2, 3, 4, 5, 6]),
    steps: &[
        (0, Step::Push(&[7, 8]), End::Unfit),
        (1, Step::Push(&[7, 8, 9]), End::Unfit),
    ],
    strides: [3, 1],
    lengths: [2, 3],
    shown: &[1, 2, 3, 4, 5, 6],
    stored: &[1, 2, 3, 4, 5, 6],
}];

const OVERFLOWING: [(usize, Step, End); 1] = [(0, Step::Push(&[]), End::Overflow)];

/// Returns how `push` of `more` along `axis` ended. It is called only if the axis is below `ndim`, or the array has no
/// axes.
fn end_after(array: &mut ArrayD<u64>, axis: usize, more: &ArrayD<u64>) -> End {
    if array.ndim() == 0 || axis < array.ndim() {
        end_of(&array.push(Axis(axis), more.view()))
    } else {
        End::Other
    }
}

/// The lengths and the elements of an array.
type Given<'a> = (&'a [usize], &'a [u64]);

// An array, an axis, an array that is pushed along it, how the push ends, and what is stored then.
const ONE_AXIS_FEWER: [(Given<'static>, usize, Given<'static>, End, &[u64]); 4] = [
    ((&[], &[7]), 5, (&[], &[8]), End::Unfit, &[7]),
    ((&[2], &[1, 2]), 0, (&[], &[7]), End::Done, &[1, 2, 7]),
    (
        (&[2, 2], &[1, 2, 3, 4]),
        0,
        (&[], &[8]),
        End::Unfit,
        &[1, 2, 3, 4],
    ),
    (
        (&[2, 2], &[1, 2, 3, 4]),
        1,
        (&[3], &[1, 2, 7]),
        End::Unfit,
        &[1, 2, 3, 4],
    ),
];

/// Returns whether pushing `more` to `first` along `axis` ends with `end`, and whether `stored` is stored then.
fn is_pushed(
    alloc: Global,
    first: &Given<'_>,
    axis: usize,
    more: &Given<'_>,
    end: End,
    stored: &[u64],
) -> bool {
    let Some(mut first) = any_axes(alloc, first.0, first.1) else {
        return false;
    };
    let Some(more) = any_axes(alloc, more.0, more.1) else {
        return false;
    };
    end_after(&mut first, axis, &more) == end && stores(first, stored)
}

fn one_axis_fewer(alloc: Global) -> bool {
    for (first, axis, more, end, stored) in &ONE_AXIS_FEWER {
        if !is_pushed(alloc, first, *axis, more, *end, stored) {
            return false;
        }
    }
    true
}

/// Returns how appending no arrays to a table ended.
#[tactic(auto, using(nd_array_core::proofs::AxesOfDimensionTypes::known_axes))]
fn none_after(table: &mut Array2<u64>) -> (usize, End) {
    refused_at(&table.append_each(Axis(0), &[]))
}

/// Returns whether a call ended with this count and this end.
fn ended(outcome: (usize, End), count: usize, end: End) -> bool {
    outcome.0 == count && outcome.1 == end
}

fn several_in_turn(alloc: Global) -> bool {
    let Some(mut rows) = table(alloc, (1, 2), &[1, 2]) else {
        return false;
    };
    let Some(first) = table(alloc, (1, 2), &[3, 4]) else {
        return false;
    };
    let Some(second) = table(alloc, (1, 3), &[5, 6, 7]) else {
        return false;
    };
    let Some(mut wide) = table(alloc, (2, 3), &[1, 2, 3, 4, 5, 6]) else {
        return false;
    };
    let Some(none) = table(alloc, (0, 2), &[]) else {
        return false;
    };
    ended(none_after(&mut rows), 0, End::Done)
        && ended(three_after(&mut rows, &first, &second), 1, End::Unfit)
        && is_stored(rows, [2, 2], &[1, 2, 3, 4], &[1, 2, 3, 4])
        && ended(three_after(&mut wide, &none, &first), 0, End::Unfit)
}

const IN_RESERVED_ROOM: [Case; 1] = [Case {
    table: ((2, 1), [1, 1], &[1, 2]),
    steps: &[
        (1, Step::RoomForColumns(2), End::Done),
        (1, Step::Push(&[3, 4]), End::Done),
        (1, Step::Push(&[5, 6]), End::Done),
    ],
    strides: [1, 2],
    lengths: [2, 3],
    shown: &[1, 3, 5, 2, 4, 6],
    stored: &[1, 2, 3, 4, 5, 6],
}];

/// Returns how appending three lists to `list` ended.
#[tactic(auto, using(nd_array_core::proofs::AxesOfDimensionTypes::known_axes))]
fn lists_after(
    list: &mut Array1<u64>,
    first: &Array1<u64>,
    second: &Array1<u64>,
    third: &Array1<u64>,
) -> (usize, End) {
    let three = [first.view(), second.view(), third.view()];
    refused_at(&list.append_each(Axis(0), &three))
}

fn lists_in_room_that_was_reserved(alloc: Global) -> bool {
    let Some(mut all) = list(alloc, &[1, 2, 3]) else {
        return false;
    };
    let Some(first) = list(alloc, &[4, 5]) else {
        return false;
    };
    let Some(second) = list(alloc, &[6]) else {
        return false;
    };
    let Some(third) = list(alloc, &[7]) else {
        return false;
    };
    list_room(&mut all, 4) == End::Done
        && ended(lists_after(&mut all, &first, &second, &third), 0, End::Done)
        && is_list(&all, &[1, 2, 3, 4, 5, 6, 7])
}

// A row of one number, a row of two, and the first again, in room that was reserved.
fn broadcast_rows_in_reserved_room(alloc: Global) -> bool {
    let Some(nine) = table(alloc, (1, 1), &[9]) else {
        return false;
    };
    let Some(row) = table(alloc, (1, 2), &[3, 4]) else {
        return false;
    };
    let Some(mut first) = table(alloc, (1, 2), &[1, 2]) else {
        return false;
    };
    first.reserve_rows(3).is_ok()
        && ended(three_after(&mut first, &nine, &row), 0, End::Done)
        && is_table(&first, [4, 2], &[1, 2, 9, 9, 3, 4, 9, 9])
}

#[test]
fn after_exchanged_axes(rt: HostRuntime) {
    assert!(rt; all_hold(rt.alloc(), &AFTER_EXCHANGED_AXES));
    assert!(rt; all_hold(rt.alloc(), &AFTER_ONE_ROW) && all_hold(rt.alloc(), &ONE_NUMBER));
    assert!(rt; all_hold(rt.alloc(), &UNFIT) && longest_stays(rt.alloc(), &OVERFLOWING));
    assert!(rt; all_hold(rt.alloc(), &IN_RESERVED_ROOM));
}

#[test]
fn several_arrays_and_any_axes(rt: HostRuntime) {
    assert!(rt; one_axis_fewer(rt.alloc()));
    assert!(rt; several_in_turn(rt.alloc()) && broadcast_rows_in_reserved_room(rt.alloc()));
    assert!(rt; lists_in_room_that_was_reserved(rt.alloc()));
}
