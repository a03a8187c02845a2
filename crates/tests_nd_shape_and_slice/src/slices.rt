//! Slices and coordinates of one axis, with numbers at the limits of their types.

use nd_shape_and_slice::{Slice, SliceInfoElem, SlicedAxis, coordinate_on_axis, slice_fits};

/// The greatest length of an axis.
pub const LONGEST: usize = 9223372036854775807;

/// Returns the slice from the coordinate `start` on by `step`, as an item of a list of slices.
pub fn part_from(start: isize, step: isize) -> SliceInfoElem {
    SliceInfoElem::Slice {
        start,
        end: None,
        step,
    }
}

// Each test here and in the other files is one assertion about a function that has no `rt`: with `assert_eq!`, or with
// a message with numbers, it takes twice as long to prove.

// Returns whether in each row the slice, on an axis of the row's length, has this first coordinate and this length.
fn are_sliced(rows: &[(usize, isize, Option<isize>, isize, usize, usize)]) -> bool {
    for (len, start, end, step, first, sliced) in rows {
        let slice = Slice::new(*start, *end, *step);
        if !slice_fits(*len, slice) {
            return false;
        }
        let SlicedAxis {
            first: begins,
            len: new,
        } = slice.on_axis(*len);
        if new != *sliced || (new != 0 && begins != *first) {
            return false;
        }
    }
    true
}

#[test]
fn slices_of_an_axis(rt: HostRuntime) {
    const ROWS: [(usize, isize, Option<isize>, isize, usize, usize); 15] = [
        (6, 0, Some(6), -2, 5, 3),
        (3, 0, Some(3), -1, 2, 3),
        (10, 2, Some(5), 1, 2, 3),
        (10, 0, Some(6), 2, 0, 3),
        (6, -2, None, 1, 4, 2),
        (6, 4, Some(2), 1, 4, 0),
        (LONGEST, 0, None, isize::MIN, LONGEST - 1, 1),
        (
            LONGEST,
            -9223372036854775807,
            None,
            2,
            0,
            4611686018427387904,
        ),
        (LONGEST, 0, None, -1, LONGEST - 1, LONGEST),
        (LONGEST, 0, Some(isize::MAX), isize::MAX, 0, 1),
        (LONGEST, -9223372036854775807, Some(1), isize::MIN, 0, 1),
        (LONGEST, isize::MAX, Some(-9223372036854775807), -1, 0, 0),
        (usize::MAX, 0, None, 1, 0, usize::MAX),
        (usize::MAX, isize::MIN, None, isize::MIN, usize::MAX - 1, 1),
        (0, 0, None, isize::MIN, 0, 0),
    ];
    assert!(rt; are_sliced(&ROWS));
}

// Returns whether in each row the slice doesn't fit an axis of the row's length.
fn none_fits(rows: &[(usize, isize, Option<isize>, isize)]) -> bool {
    for (len, start, end, step) in rows {
        if slice_fits(*len, Slice::new(*start, *end, *step)) {
            return false;
        }
    }
    true
}

#[test]
fn slices_that_do_not_fit(rt: HostRuntime) {
    const ROWS: [(usize, isize, Option<isize>, isize); 10] = [
        (6, 0, Some(6), 0),
        (6, 7, None, 1),
        (6, 0, Some(7), 1),
        (6, -7, None, 1),
        (6, 0, Some(-7), -1),
        (0, -1, None, 1),
        (LONGEST, isize::MIN, None, 1),
        (LONGEST, 0, Some(isize::MIN), 1),
        (LONGEST - 1, isize::MAX, None, 1),
        (LONGEST - 1, 0, Some(isize::MAX), 1),
    ];
    assert!(rt; none_fits(&ROWS));
}

// Returns whether in each row the coordinate, on an axis of the row's length, is this place, or no place if that is
// `None`.
fn are_at(rows: &[(usize, isize, Option<usize>)]) -> bool {
    for (len, coordinate, place) in rows {
        if coordinate_on_axis(*len, *coordinate) != *place {
            return false;
        }
    }
    true
}

#[test]
fn coordinates_on_an_axis(rt: HostRuntime) {
    const ROWS: [(usize, isize, Option<usize>); 11] = [
        (6, 0, Some(0)),
        (6, 5, Some(5)),
        (6, 6, None),
        (6, -1, Some(5)),
        (6, -6, Some(0)),
        (6, -7, None),
        (0, 0, None),
        (LONGEST, isize::MAX, None),
        (LONGEST, -9223372036854775807, Some(0)),
        (LONGEST, isize::MIN, None),
        (usize::MAX, isize::MAX, Some(LONGEST)),
    ];
    assert!(rt; are_at(&ROWS));
}
