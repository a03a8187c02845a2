//! Arrays that are broadcast when they are appended, and arrays that can't be.

use crate::append_and_reserve_checks::{Case, End, Laid, Step, all_hold, counted_after, widens};
use nd_test_arrays::{Tally, counted_table};
use std::alloc::Global;

// Appends to 1 2 3 / 4 5 6: one number as a row, one row as two columns, and rows that are too short.
const AFTER_A_TABLE: [Case; 3] = [
    Case {
        table: ((2, 3), [3, 1], &[1, 2, 3, 4, 5, 6]),
        steps: &[(0, Step::Append((1, 1), &[9]), End::Done)],
        strides: [3, 1],
        lengths: [3, 3],
        shown: &[1, 2, 3, 4, 5, 6, 9, 9, 9],
        stored: &[1, 2, 3, 4, 5, 6, 9, 9, 9],
    },
    Case {
        table: ((2, 3), [3, 1], &[1, 2, 3, 4, 5, 6]),
        steps: &[(1, Step::Append((1, 2), &[7, 8]), End::Done)],
        strides: [1, 2],
        lengths: [2, 5],
        shown: &[1, 2, 3, 7, 8, 4, 5, 6, 7, 8],
        stored: &[1, 4, 2, 5, 3, 6, 7, 7, 8, 8],
    },
    Case {
        table: ((2, 3), [3, 1], &[1, 2, 3, 4, 5, 6]),
        steps: &[(0, Step::Append((2, 2), &[7, 8, 9, 9]), End::Unfit)],
        strides: [3, 1],
        lengths: [2, 3],
        shown: &[1, 2, 3, 4, 5, 6],
        stored: &[1, 2, 3, 4, 5, 6],
    },
];

// The array that is appended to is never broadcast: it keeps its lengths along the other axes.
const AFTER_A_ROW: [Case; 1] = [Case {
    table: ((1, 3), [3, 1], &[1, 2, 3]),
    steps: &[(1, Step::Append((2, 2), &[4, 5, 6, 7]), End::Unfit)],
    strides: [3, 1],
    lengths: [1, 3],
    shown: &[1, 2, 3],
    stored: &[1, 2, 3],
}];

// An array of one row that is appended as columns to an array without rows is broadcast to no rows, so no number is
// cloned.
fn no_row_of_one(alloc: Global) -> bool {
    let tally = Tally::allowing(0);
    let Some(mut flat) = counted_table(alloc, (0, 3), [0, 0], &[], &tally) else {
        return false;
    };
    let Some(more) = counted_table(alloc, (1, 2), [2, 1], &[1, 2], &tally) else {
        return false;
    };
    counted_after(&mut flat, &more) == End::Done
        && flat.shape() == [0, 5].as_slice()
        && flat.strides() == [0, 0].as_slice()
}

// Each element of a broadcast array is cloned by itself. After a refusal the table is as it was.
const CLONES_OF_ONE_ROW: [(u64, End, [usize; 2], &[u64], u32); 4] = [
    (0, End::NoMemory, [3, 2], &[1, 4, 2, 5, 3, 6], 8),
    (3, End::NoMemory, [3, 2], &[1, 4, 2, 5, 3, 6], 8),
    (5, End::NoMemory, [3, 2], &[1, 4, 2, 5, 3, 6], 8),
    (
        6,
        End::Done,
        [3, 4],
        &[1, 4, 7, 8, 2, 5, 7, 8, 3, 6, 7, 8],
        14,
    ),
];

fn clones_of_one_row_refused(alloc: Global) -> bool {
    const FIRST: Laid<'static> = ((3, 2), [1, 3], &[1, 2, 3, 4, 5, 6]);
    const ROW: Laid<'static> = ((1, 2), [2, 1], &[7, 8]);
    for (allowed, end, lengths, shown, living) in &CLONES_OF_ONE_ROW {
        if !widens(
            alloc, *allowed, &FIRST, &ROW, *end, *lengths, shown, *living,
        ) {
            return false;
        }
    }
    true
}

#[test]
fn after_a_table(rt: HostRuntime) {
    assert!(rt; all_hold(rt.alloc(), &AFTER_A_TABLE) && all_hold(rt.alloc(), &AFTER_A_ROW));
    assert!(rt; no_row_of_one(rt.alloc()));
    assert!(rt; clones_of_one_row_refused(rt.alloc()));
}
