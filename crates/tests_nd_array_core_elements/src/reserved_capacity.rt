//! Reserving room for more coordinates of an axis.

use crate::append_and_reserve_checks::{Case, End, Step, all_hold, end_of, list_room};
use nd_array_core::{Array1, Array2};
use nd_shape_and_slice::Axis;
use nd_test_arrays::{is_list, list, table};
use std::alloc::Global;

fn room_for_more_than_a_shape_can_have(alloc: Global) -> bool {
    let Some(mut list) = list(alloc, &[1, 2, 3]) else {
        return false;
    };
    list_room(&mut list, usize::MAX) == End::Overflow
        && list_room(&mut list, 9223372036854775805) == End::Overflow
        && is_list(&list, &[1, 2, 3])
}

#[tactic(auto, using(nd_array_core::proofs::AxesOfDimensionTypes::known_axes))]
fn room_for_elements_without_bytes(alloc: Global) -> bool {
    let Ok(units) = Vec::from_slice(alloc, &[(), (), ()]) else {
        return false;
    };
    let mut nothing: Array1<()> = Array1::from_vec(units);
    let most = 9223372036854775805;
    end_of(&nothing.reserve(Axis(0), most)) == End::Overflow && nothing.len() == 3
}

const IN_A_TABLE: [Case; 1] = [Case {
    table: ((2, 3), [1, 2], &[0, 1, 2, 3, 4, 5]),
    steps: &[
        (0, Step::RoomForRows(4), End::Done),
        (1, Step::RoomForColumns(5), End::Done),
    ],
    strides: [1, 2],
    lengths: [2, 3],
    shown: &[0, 2, 4, 1, 3, 5],
    stored: &[0, 1, 2, 3, 4, 5],
}];

const WITHOUT_ELEMENTS: [((usize, usize), &[(usize, End)]); 2] = [
    (
        (0, 4611686018427387904),
        &[(0, End::Done), (2, End::Overflow), (1, End::NoMemory)],
    ),
    (
        (3, 0),
        &[
            (3074457345618258599, End::Done),
            (9223372036854775805, End::Overflow),
        ],
    ),
];

/// Returns whether each call of `reserve`, for this many more rows, ends as listed.
#[tactic(auto, using(nd_array_core::proofs::AxesOfDimensionTypes::known_axes))]
fn room_ends(table: &mut Array2<u64>, calls: &[(usize, End)]) -> bool {
    for (more, end) in calls {
        if end_of(&table.reserve(Axis(0), *more)) != *end {
            return false;
        }
    }
    true
}

fn room_where_there_is_no_element(alloc: Global) -> bool {
    for (lengths, calls) in &WITHOUT_ELEMENTS {
        let Some(mut table) = table(alloc, *lengths, &[]) else {
            return false;
        };
        let right = room_ends(&mut table, calls);
        let (rows, columns) = table.dim();
        if !right || rows != lengths.0 || columns != lengths.1 {
            return false;
        }
    }
    true
}

#[test]
fn room_in_tables(rt: HostRuntime) {
    assert!(rt; all_hold(rt.alloc(), &IN_A_TABLE));
    assert!(rt; room_for_more_than_a_shape_can_have(rt.alloc()));
    assert!(rt; room_for_elements_without_bytes(rt.alloc()));
    assert!(rt; room_where_there_is_no_element(rt.alloc()));
}
