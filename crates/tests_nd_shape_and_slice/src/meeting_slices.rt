//! Whether pairs of slices name a common place, compared with a table of the places that each names, and lists of
//! slices.

ghost use Rattle.std.specs.Prelude.{◌<◌, ◌≤◌, ◌^◌};

use crate::slices::{LONGEST, part_from};
use nd_shape_and_slice::{SliceInfoElem, slices_fit, slices_intersect};

/// Returns whether the slice from `start` up to `end`, by steps of `distance` upward or downward, names `place`.
fn names(start: usize, end: usize, distance: usize, down: bool, place: usize) -> bool {
    if place < start || place >= end || distance == 0 {
        return false;
    }
    let from = if down { end - 1 - place } else { place - start };
    from % distance == 0
}

/// Returns this slice as an item of a list of slices.
fn part(start: usize, end: usize, distance: usize, down: bool) -> SliceInfoElem
    requires start { start < 2 ^ 63 }
    requires end { end < 2 ^ 63 }
    requires distance { distance < 2 ^ 63 }
{
    SliceInfoElem::Slice {
        start: start as isize,
        end: Some(end as isize),
        step: if down {
            0 - distance as isize
        } else {
            distance as isize
        },
    }
}

/// Returns whether two lists name a common element. Returns `None` if one of them doesn't fit the shape.
fn intersect(shape: &[usize], a: &[SliceInfoElem], b: &[SliceInfoElem]) -> Option<bool> {
    if slices_fit(shape, a) && slices_fit(shape, b) {
        Some(slices_intersect(shape, a, b))
    } else {
        None
    }
}

/// Returns whether every slice of an axis of the length `len` has a place in common with this slice exactly if the
/// table of their places says so.
fn agrees(len: usize, start: usize, end: usize, distance: usize, down: bool) -> bool
    requires len { len ≤ 8 }
    requires start { start < 2 ^ 63 }
    requires end { end < 2 ^ 63 }
    requires distance { distance < 2 ^ 63 }
{
    let one = part(start, end, distance, down);
    for other_start in 0..len + 1 {
        for other_end in other_start..len + 1 {
            for other_distance in 1..len + 2 {
                for other_down in [false, true] {
                    let mut common = false;
                    for place in 0..len {
                        if names(start, end, distance, down, place)
                            && names(other_start, other_end, other_distance, other_down, place)
                        {
                            common = true;
                        }
                    }
                    let other = part(other_start, other_end, other_distance, other_down);
                    if intersect(&[len], &[one], &[other]) != Some(common) {
                        return false;
                    }
                }
            }
        }
    }
    true
}

/// Returns whether every two slices of an axis of the length `len` have a place in common exactly if the table of their
/// places says so.
fn all_agree(len: usize) -> bool
    requires { len ≤ 8 }
{
    for start in 0..len + 1 {
        for end in start..len + 1 {
            for distance in 1..len + 2 {
                if !agrees(len, start, end, distance, false)
                    || !agrees(len, start, end, distance, true)
                {
                    return false;
                }
            }
        }
    }
    true
}

#[test]
fn pairs_of_slices_on_lengths_to_8(rt: HostRuntime) {
    for len in 0..9 {
        assert!(rt; all_agree(len));
    }
}

#[test]
fn slices_that_meet(rt: HostRuntime) {
    let up_by_3 = [part(2, 6, 3, false)];
    let one_and_four = [part(1, 5, 3, false)];
    let none_and_three = [part(0, 4, 3, false)];
    assert!(rt;
        intersect(&[6], &[part(1, 6, 4, false)], &up_by_3) == Some(true)
            && intersect(&[6], &one_and_four, &none_and_three) == Some(false)
            && intersect(&[], &[], &[]) == Some(true)
            && intersect(&[6], &[part_from(0, 0)], &up_by_3) == None
    );
}

// Returns whether the two slices of each row have a place in common or not, as the row says, on the longest axis and in
// either order.
fn meet_where(rows: &[(SliceInfoElem, SliceInfoElem, bool)]) -> bool {
    for (a, b, meet) in rows {
        if intersect(&[LONGEST], &[*a], &[*b]) != Some(*meet)
            || intersect(&[LONGEST], &[*b], &[*a]) != Some(*meet)
        {
            return false;
        }
    }
    true
}

// Two slices by their starts and their steps, both on to the end, and whether they have a place in common.
const ON_THE_LONGEST_AXIS: [((isize, isize), (isize, isize), bool); 12] = [
    ((0, 2), (1, 2), false),
    ((0, 2), (1, 3), true),
    ((0, isize::MAX), (0, isize::MIN), false),
    ((0, isize::MIN), (0, -2), true),
    ((0, isize::MIN), (0, 2), true),
    ((0, isize::MIN), (1, 2), false),
    ((1, 4611686018427387904), (2, 3), true),
    ((0, 4611686018427387904), (1, 4611686018427387903), true),
    ((0, 4611686018427387904), (2, 4611686018427387903), false),
    ((0, 3037000500), (3037000498, 3037000499), true),
    ((0, 3037000501), (3037000499, 3037000500), false),
    ((0, 3037000500), (1, 3037000499), true),
];

#[test]
fn slices_of_the_longest_axis(rt: HostRuntime) {
    for ((start, step), (other_start, other_step), meet) in &ON_THE_LONGEST_AXIS {
        let one = part_from(*start, *step);
        let other = part_from(*other_start, *other_step);
        assert!(rt; meet_where(&[(one, other, *meet)]));
    }
    let rows = [
        (part_from(-1, 1), SliceInfoElem::Index(-1), true),
        (
            SliceInfoElem::Index(-2),
            SliceInfoElem::Index(isize::MAX - 1),
            false,
        ),
    ];
    assert!(rt; meet_where(&rows));
}

#[test]
fn lists_that_meet(rt: HostRuntime) {
    let new = SliceInfoElem::NewAxis;
    let row_1 = [SliceInfoElem::Index(1), part_from(0, 1)];
    let row_2 = [new, SliceInfoElem::Index(2), part_from(0, 1), new];
    let last_column = [part_from(0, -1), new, SliceInfoElem::Index(-1)];
    let even_columns = [new, part_from(0, 1), part_from(0, 2)];
    let no_column = [part_from(0, 1), part_from(0, 1)];
    assert!(rt;
        intersect(&[3, 4], &row_1, &row_2) == Some(false)
            && intersect(&[3, 4], &row_1, &last_column) == Some(true)
            && intersect(&[3, 4], &row_2, &even_columns) == Some(true)
            && intersect(&[3, 4], &last_column, &even_columns) == Some(false)
            && intersect(&[3, 0], &no_column, &even_columns) == Some(false)
    );
}
