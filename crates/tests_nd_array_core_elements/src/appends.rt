//! Arrays that are appended to others along an axis, and how their elements then lie in the storage.

use crate::append_and_reserve_checks::{
    Case, End, Step, all_hold, end_after, joined, list_room, longest_stays, taken_out,
};
use nd_array_core::ArrayD;
use nd_test_arrays::{any_axes, list, list_by, shows, stores};
use std::alloc::Global;

/// Returns whether an array of any number of axes has these lengths, is stored as `numbers`, and, if it has two axes,
/// also has them as its elements in row-major order.
fn any_is_stored(array: ArrayD<u64>, lengths: &[usize], numbers: &[u64]) -> bool {
    let shown = match lengths {
        [rows, columns] => shows(&array, [*rows, *columns], numbers),
        _ => array.shape() == lengths,
    };
    shown && stores(array, numbers)
}

/// The lengths and the elements of an array.
type Given = (&'static [usize], &'static [u64]);

// Arrays, and for each of them axes with arrays that can't be appended to it along the axis.
const UNFIT: [(Given, &[(usize, Given)]); 2] = [
    ((&[], &[7]), &[(0, (&[], &[8])), (9, (&[3], &[7, 8, 9]))]),
    (
        (&[2, 3], &[1, 2, 3, 4, 5, 6]),
        &[
            (0, (&[3], &[7, 8, 9])),
            (1, (&[], &[8])),
            (0, (&[2, 2], &[1, 2, 3, 4])),
        ],
    ),
];

/// Returns how appending `more` to an array along an axis ended.
fn end_of_any(alloc: Global, first: &mut ArrayD<u64>, axis: usize, more: &Given) -> End {
    match any_axes(alloc, more.0, more.1) {
        Some(more) => end_after(first, axis, &more),
        None => End::Other,
    }
}

/// Returns whether none of the arrays in `others` can be appended to `first`, which then is as it was.
fn none_fits(alloc: Global, first: &Given, others: &[(usize, Given)]) -> bool {
    let (lengths, numbers) = first;
    let Some(mut first) = any_axes(alloc, lengths, numbers) else {
        return false;
    };
    for (axis, more) in others {
        if end_of_any(alloc, &mut first, *axis, more) != End::Unfit {
            return false;
        }
    }
    any_is_stored(first, lengths, numbers)
}

fn shapes_that_do_not_fit(alloc: Global) -> bool {
    for (first, others) in &UNFIT {
        if !none_fits(alloc, first, others) {
            return false;
        }
    }
    true
}

const TOO_LONG: [(usize, Step, End); 3] = [
    (0, Step::Append((1, 2), &[1, 2]), End::Unfit),
    (0, Step::Append((1, 0), &[]), End::Overflow),
    (0, Step::Append((1, 1), &[1]), End::Overflow),
];

const AFTER_NONE: [Case; 1] = [Case {
    table: ((3, 0), [0, 0], &[]),
    steps: &[(0, Step::Append((2, 0), &[]), End::Done)],
    strides: [0, 0],
    lengths: [5, 0],
    shown: &[],
    stored: &[],
}];

const AFTER_A_PART: [Case; 1] = [Case {
    table: ((1, 3), [3, 1], &[1, 2, 3]),
    steps: &[
        (0, Step::Cut(0), End::Done),
        (0, Step::Append((1, 3), &[7, 8, 9]), End::Done),
    ],
    strides: [3, 1],
    lengths: [1, 3],
    shown: &[7, 8, 9],
    stored: &[7, 8, 9],
}];

// Lists that are appended to the list 1 3 4, which has room for one more number since one was removed; then the
// elements of the result, and what is stored.
const AFTER_TAKEN_OUT: [(&[&[u64]], &[u64], &[u64]); 3] = [
    (&[&[5]], &[1, 3, 4, 5], &[1, 3, 4, 5]),
    (&[&[]], &[1, 3, 4], &[1, 3, 4, 2]),
    (&[&[5], &[6]], &[1, 3, 4, 5, 6], &[1, 3, 4, 5, 6]),
];

fn after_what_was_taken_out(alloc: Global) -> bool {
    for (more, shown, stored) in &AFTER_TAKEN_OUT {
        let Some(mut list) = list(alloc, &[1, 2, 3, 4]) else {
            return false;
        };
        if !taken_out(&mut list, 1) || !joined(alloc, list, more, shown, stored) {
            return false;
        }
    }
    true
}

fn room_that_was_reserved(alloc: Global) -> bool {
    const ALL: [u64; 7] = [1, 2, 3, 4, 5, 6, 7];
    let Some(mut list) = list(alloc, &[1, 2, 3]) else {
        return false;
    };
    list_room(&mut list, 4) == End::Done && joined(alloc, list, &[&[4, 5], &[6], &[7]], &ALL, &ALL)
}

fn after_an_inverted_list(alloc: Global) -> bool {
    match list_by(alloc, 3, -1, &[1, 2, 3]) {
        Some(list) => joined(alloc, list, &[&[7]], &[3, 2, 1, 7], &[3, 2, 1, 7]),
        None => false,
    }
}

// Rows appended to 1 3 / 2 4, which is stored column by column, a column appended to it, and a row appended to 2 1 / 4
// 3, which is stored with its rows backwards.
const AFTER_TABLES: [Case; 4] = [
    Case {
        table: ((2, 2), [1, 2], &[1, 2, 3, 4]),
        steps: &[(0, Step::Append((1, 2), &[9, 8]), End::Done)],
        strides: [2, 1],
        lengths: [3, 2],
        shown: &[1, 3, 2, 4, 9, 8],
        stored: &[1, 3, 2, 4, 9, 8],
    },
    Case {
        table: ((2, 2), [1, 2], &[1, 2, 3, 4]),
        steps: &[
            (0, Step::Append((1, 2), &[9, 8]), End::Done),
            (0, Step::Append((1, 2), &[7, 6]), End::Done),
        ],
        strides: [2, 1],
        lengths: [4, 2],
        shown: &[1, 3, 2, 4, 9, 8, 7, 6],
        stored: &[1, 3, 2, 4, 9, 8, 7, 6],
    },
    Case {
        table: ((2, 2), [1, 2], &[1, 2, 3, 4]),
        steps: &[(1, Step::Append((2, 1), &[9, 8]), End::Done)],
        strides: [1, 2],
        lengths: [2, 3],
        shown: &[1, 3, 9, 2, 4, 8],
        stored: &[1, 2, 3, 4, 9, 8],
    },
    Case {
        table: ((2, 2), [2, -1], &[1, 2, 3, 4]),
        steps: &[(0, Step::Append((1, 2), &[9, 8]), End::Done)],
        strides: [2, -1],
        lengths: [3, 2],
        shown: &[2, 1, 4, 3, 9, 8],
        stored: &[1, 2, 3, 4, 8, 9],
    },
];

#[test]
fn after_tables(rt: HostRuntime) {
    assert!(rt; all_hold(rt.alloc(), &AFTER_NONE) && all_hold(rt.alloc(), &AFTER_A_PART));
    assert!(rt; all_hold(rt.alloc(), &AFTER_TABLES));
    assert!(rt; longest_stays(rt.alloc(), &TOO_LONG));
    assert!(rt; shapes_that_do_not_fit(rt.alloc()));
}

#[test]
fn after_lists(rt: HostRuntime) {
    assert!(rt; after_what_was_taken_out(rt.alloc()));
    assert!(rt; room_that_was_reserved(rt.alloc()));
    assert!(rt; after_an_inverted_list(rt.alloc()));
}
