//! Slices that are made of ranges, and lists of slices that are written with `s!` and `slices!`.

use crate::slices::LONGEST;
use nd_shape_and_slice::{
    Ix0, Ix1, Ix2, Ix3, Slice, SliceArg, SliceInfo, SliceInfoElem, s, slice_fits, slices,
    slices_fit,
};

/// Returns the slice from `start` up to `end` by `step`, as an item of a list of slices.
fn part(start: isize, end: Option<isize>, step: isize) -> SliceInfoElem {
    SliceInfoElem::Slice { start, end, step }
}

// Returns whether each slice has this start, end and step.
fn are_slices(rows: &[(Slice, isize, Option<isize>, isize)]) -> bool {
    for (slice, start, end, step) in rows {
        if *slice != Slice::new(*start, *end, *step) {
            return false;
        }
    }
    true
}

#[test]
fn ranges_as_slices(rt: HostRuntime) {
    let rows = [
        (Slice::from(..), 0, None, 1),
        (Slice::from(1..), 1, None, 1),
        (Slice::from(-2..), -2, None, 1),
        (Slice::from(..-1), 0, Some(-1), 1),
        (Slice::from(..=-1), 0, None, 1),
        (Slice::from(..=-2), 0, Some(-1), 1),
        (Slice::from(..=4), 0, Some(5), 1),
    ];
    assert!(rt; are_slices(&rows));
}

#[test]
fn ranges_with_two_ends_as_slices(rt: HostRuntime) {
    let rows = [
        (Slice::from(1..5), 1, Some(5), 1),
        (Slice::from(1..=5), 1, Some(6), 1),
        (Slice::from(-4..=-1), -4, None, 1),
        (Slice::from(4..2), 4, Some(2), 1),
        (Slice::between(2, 5), 2, Some(5), 1),
        (Slice::between(0, LONGEST), 0, Some(isize::MAX), 1),
    ];
    assert!(rt; are_slices(&rows));
}

// Returns whether the two slices of each row are equal.
fn are_equal(rows: &[(Slice, Slice)]) -> bool {
    for (slice, other) in rows {
        if *slice != *other {
            return false;
        }
    }
    true
}

#[test]
fn ranges_of_each_type(rt: HostRuntime) {
    let rows = [
        (Slice::from(1isize..5), Slice::from(1usize..5)),
        (Slice::from(1isize..), Slice::from(1usize..)),
        (Slice::from(..5isize), Slice::from(..5usize)),
        (Slice::from(1isize..=5), Slice::from(1usize..=5)),
        (Slice::from(..=5isize), Slice::from(..=5usize)),
    ];
    assert!(rt; are_equal(&rows));
}

#[test]
fn ranges_of_signed_types(rt: HostRuntime) {
    let rows = [
        (Slice::from(-1isize..-3), Slice::from(-1i32..-3)),
        (Slice::from(-1isize..), Slice::from(-1i32..)),
        (Slice::from(..-3isize), Slice::from(..-3i32)),
        (Slice::from(-3isize..=-1), Slice::from(-3i32..=-1)),
        (Slice::from(..=-2isize), Slice::from(..=-2i32)),
    ];
    assert!(rt; are_equal(&rows));
}

#[test]
fn slices_by_a_step(rt: HostRuntime) {
    let rows = [
        (Slice::from(..).step_by(1), 0, None, 1),
        (Slice::from(..).step_by(2), 0, None, 2),
        (Slice::from(..).step_by(-1), 0, None, -1),
        (Slice::from(1..5).step_by(-2), 1, Some(5), -2),
    ];
    assert!(rt; are_slices(&rows));
}

#[test]
fn slices_by_several_steps_and_by_none(rt: HostRuntime) {
    let rows = [
        (Slice::from(1..5).step_by(2).step_by(-3), 1, Some(5), -6),
        (Slice::between(1, 5).step_by(-1).step_by(-1), 1, Some(5), 1),
        (Slice::from(..).step_by(isize::MIN), 0, None, isize::MIN),
        (Slice::from(..).step_by(0), 0, None, 0),
    ];
    assert!(rt; are_slices(&rows) && !slice_fits(4, Slice::from(..).step_by(0)));
}

// Returns whether each slice of an axis of length 6 has this first coordinate and this length.
fn name_so_many(rows: &[(Slice, usize, usize)]) -> bool {
    for (slice, first, len) in rows {
        if !slice_fits(6, *slice) {
            return false;
        }
        let named = slice.on_axis(6);
        if named.first != *first || named.len != *len {
            return false;
        }
    }
    true
}

// Each range with its first coordinate and its length on an axis of length 6.
#[test]
fn ranges_on_an_axis(rt: HostRuntime) {
    let rows = [
        (Slice::from(..), 0, 6),
        (Slice::from(1..5), 1, 4),
        (Slice::from(1..=5), 1, 5),
        (Slice::from(-2..), 4, 2),
        (Slice::from(..-1), 0, 5),
        (Slice::from(..=-1), 0, 6),
        (Slice::from(-4..=-2), 2, 3),
        (Slice::from(4..2), 4, 0),
        (Slice::between(2, 5), 2, 3),
    ];
    assert!(rt; name_so_many(&rows));
}

// The same of ranges by steps.
#[test]
fn ranges_by_steps_on_an_axis(rt: HostRuntime) {
    let rows = [
        (Slice::from(..).step_by(2), 0, 3),
        (Slice::from(1..).step_by(2), 1, 3),
        (Slice::from(..).step_by(-1), 5, 6),
        (Slice::from(..).step_by(-2), 5, 3),
        (Slice::from(1..5).step_by(-3), 4, 2),
    ];
    assert!(rt; name_so_many(&rows));
}

// Returns whether none of the slices fits an axis of length 6.
fn none_fits(rows: &[Slice]) -> bool {
    for slice in rows {
        if slice_fits(6, *slice) {
            return false;
        }
    }
    true
}

// A bound is beyond any axis: the last number of a type, and one more than the axis's length.
#[test]
fn ranges_past_an_axis(rt: HostRuntime) {
    let rows = [
        Slice::from(..7),
        Slice::from(7..),
        Slice::from(-7..),
        Slice::from(..-7),
        Slice::from(..=6),
        Slice::from(..=isize::MAX),
        Slice::from(0..=usize::MAX >> 1),
        Slice::between(0, LONGEST),
    ];
    assert!(rt; none_fits(&rows) && Slice::from(..usize::MAX) == Slice::from(..-1));
}

// Returns whether a list has these items, and fits the first shape and not the second.
fn is_list(
    list: &[SliceInfoElem],
    wanted: &[SliceInfoElem],
    fits: &[usize],
    not: &[usize],
) -> bool {
    list == wanted && slices_fit(fits, list) && !slices_fit(not, list)
}

#[test]
fn lists_of_ranges_and_numbers(rt: HostRuntime) {
    let list = slices![
        ..,
        1..4,
        2,
        -1,
        Slice::from(..).step_by(-1),
        SliceInfoElem::NewAxis
    ];
    let row = 3usize;
    let other = slices![..row, row, -1isize, row..=row,];
    let wanted = [
        part(0, None, 1),
        part(1, Some(4), 1),
        SliceInfoElem::Index(2),
        SliceInfoElem::Index(-1),
        part(0, None, -1),
        SliceInfoElem::NewAxis,
    ];
    let other_wanted = [
        part(0, Some(3), 1),
        SliceInfoElem::Index(3),
        SliceInfoElem::Index(-1),
        part(3, Some(4), 1),
    ];
    assert!(rt;
        is_list(&list, &wanted, &[5, 4, 3, 2, 1], &[5, 3, 3, 2, 1])
            && is_list(&other, &other_wanted, &[4, 4, 1, 4], &[4, 3, 1, 4])
    );
}

/// Returns whether a list that leaves one axis of two has these items, and fits this shape.
fn leaves_one(list: SliceInfo<'_, Ix2, Ix1>, elements: &[SliceInfoElem], shape: &[usize]) -> bool {
    list.elements() == elements && list.fits(shape)
}

/// Returns whether a list that leaves two axes of three fits this shape.
fn leaves_two(list: SliceInfo<'_, Ix3, Ix2>, shape: &[usize]) -> bool {
    list.fits(shape)
}

/// Returns whether a list that leaves no axis of two fits this shape.
fn leaves_none(list: SliceInfo<'_, Ix2, Ix0>, shape: &[usize]) -> bool {
    list.fits(shape)
}

/// Returns whether a list that makes two axes of one fits this shape.
fn makes_two(list: SliceInfo<'_, Ix1, Ix2>, shape: &[usize]) -> bool {
    list.fits(shape)
}

#[test]
fn lists_that_leave_one_axis(rt: HostRuntime) {
    let line = [part(1, None, 1), SliceInfoElem::Index(1)];
    assert!(rt;
        leaves_one(s![1.., 1], &line, &[1, 2])
            && !leaves_one(s![1.., 1], &line, &[1, 1])
            && !leaves_one(s![1.., 1], &line, &[0, 2])
    );
}

#[test]
fn lists_from_dimension_to_dimension(rt: HostRuntime) {
    assert!(rt;
        leaves_two(s![.., .., -1], &[0, 0, 1])
            && !leaves_two(s![.., .., -1], &[1, 1, 0])
            && leaves_none(s![0, 0], &[1, 1])
            && !leaves_none(s![0, 0], &[1, 0])
            && makes_two(s![.., SliceInfoElem::NewAxis], &[3])
            && !makes_two(s![1..5, SliceInfoElem::NewAxis], &[4])
    );
}
