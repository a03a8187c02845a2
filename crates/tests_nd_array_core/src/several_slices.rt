//! Several parts of a small array that are written at once.

ghost use Rattle.std.specs.Prelude.{IsTrue};
ghost use Rattle.nd_array_core.specs.layout.MultiSlice.{TwoFit, ThreeFit, FourFit};

use nd_array_core::{ArrayD, ArrayViewMut, MultiSliceMut};
use nd_shape_and_slice::{IxDyn, SliceInfoElem, slices_fit, slices_intersect};
use nd_test_arrays::{any_axes, part, shows};
use std::alloc::Global;

// Returns whether both lists fit and name no element in common.
fn two_fit(shape: &[usize], a: &[SliceInfoElem], b: &[SliceInfoElem]) -> bool
    ensures { IsTrue result → TwoFit shape.now a.now b.now }
{
    slices_fit(shape, a) && slices_fit(shape, b) && !slices_intersect(shape, a, b)
}

fn three_fit(shape: &[usize], a: &[SliceInfoElem], b: &[SliceInfoElem], c: &[SliceInfoElem]) -> bool
    ensures { IsTrue result → ThreeFit shape.now a.now b.now c.now }
{
    two_fit(shape, b, c) && two_fit(shape, a, b) && two_fit(shape, a, c)
}

fn four_fit(
    shape: &[usize],
    a: &[SliceInfoElem],
    b: &[SliceInfoElem],
    c: &[SliceInfoElem],
    d: &[SliceInfoElem],
) -> bool
    ensures { IsTrue result → FourFit shape.now a.now b.now c.now d.now }
{
    three_fit(shape, b, c, d)
        && two_fit(shape, a, b)
        && two_fit(shape, a, c)
        && two_fit(shape, a, d)
}

// Returns whether a grid has this shape, and these numbers row by row.
fn is_grid(grid: &ArrayD<u64>, shape: [usize; 2], numbers: &[u64]) -> bool {
    shows(grid, shape, numbers)
}

// A mutable part of a grid.
type Part<'a> = ArrayViewMut<'a, u64, IxDyn>;

// Fills a part with a number. Returns false if memory is refused.
fn filled(mut part: Part<'_>, number: u64) -> bool {
    part.fill(number).is_ok()
}

// Fills each part with a number of its own.
fn four_filled(parts: (Part<'_>, Part<'_>, Part<'_>, Part<'_>)) -> bool {
    let (one, two, three, four) = parts;
    let done = (
        filled(one, 1),
        filled(two, 2),
        filled(three, 3),
        filled(four, 4),
    );
    done.0 && done.1 && done.2 && done.3
}

// Fills the elements that each of four lists names with a number of their own. Returns false if they don't fit, two of
// them name a common element, or memory is refused.
fn fill_four(
    grid: &mut ArrayD<u64>,
    a: &[SliceInfoElem],
    b: &[SliceInfoElem],
    c: &[SliceInfoElem],
    d: &[SliceInfoElem],
) -> bool {
    four_fit(grid.shape(), a, b, c, d) && four_filled(grid.multi_slice_mut((a, b, c, d)))
}

const TO_17: [u64; 18] = [0, 1, 2, 3, 4, 5, 6, 7, 8, 9, 10, 11, 12, 13, 14, 15, 16, 17];

fn four_quadrants_of_a_grid(alloc: Global) -> bool {
    let Some(mut grid) = any_axes(alloc, &[3, 6], &TO_17) else {
        return false;
    };
    let (top, bottom) = (part(0, Some(1), 1), part(1, None, 1));
    let (left, right) = (part(0, Some(2), 1), part(2, Some(5), 1));
    let (a, b) = ([top, left], [top, right]);
    let (c, d) = ([bottom, left], [bottom, right]);
    fill_four(&mut grid, &a, &b, &c, &d)
        && is_grid(
            &grid,
            [3, 6],
            &[1, 1, 2, 2, 2, 5, 3, 3, 4, 4, 4, 11, 3, 3, 4, 4, 4, 17],
        )
}

fn two_filled(parts: (Part<'_>, Part<'_>)) -> bool {
    let (one, two) = parts;
    let done = (filled(one, 1), filled(two, 2));
    done.0 && done.1
}

// Fills the elements that each of two lists names of a view with a number of their own.
fn fill_two(view: Part<'_>, a: &[SliceInfoElem], b: &[SliceInfoElem]) -> bool {
    two_fit(view.shape(), a, b) && two_filled(view.multi_slice_move((a, b)))
}

fn every_second_column_of_a_view(alloc: Global) -> bool {
    let Some(mut grid) = any_axes(alloc, &[2, 5], &[0, 1, 2, 3, 4, 5, 6, 7, 8, 9]) else {
        return false;
    };
    let (a, b) = (
        [part(0, None, 1), part(0, None, 2)],
        [part(0, None, -1), part(1, Some(3), 2)],
    );
    fill_two(grid.view_mut(), &a, &b) && is_grid(&grid, [2, 5], &[1, 2, 1, 3, 1, 1, 2, 1, 8, 1])
}

/// A start, an end and a step.
type Steps = (isize, isize, isize);

// Two slices of the line from 1 to 6, whether they may be lent at once, and the line then: both slices name the last
// element, and neither names an element of the other.
const MEETING: [(Steps, Steps, bool, &[u64]); 2] = [
    ((1, 6, 4), (2, 6, 3), false, &[1, 2, 3, 4, 5, 6]),
    ((1, 5, 3), (0, 4, 3), true, &[2, 1, 3, 2, 1, 6]),
];

// Returns whether a line is stored as these numbers.
fn is_line(line: ArrayD<u64>, numbers: &[u64]) -> bool {
    line.into_raw_vec().as_slice() == numbers
}

fn slices_that_meet_are_not_lent(alloc: Global) -> bool {
    for (one, other, lent, wanted) in &MEETING {
        let Some(mut line) = any_axes(alloc, &[6], &[1, 2, 3, 4, 5, 6]) else {
            return false;
        };
        let one = [part(one.0, Some(one.1), one.2)];
        let other = [part(other.0, Some(other.1), other.2)];
        if fill_two(line.view_mut(), &one, &other) != *lent || !is_line(line, *wanted) {
            return false;
        }
    }
    true
}

fn three_filled(parts: (Part<'_>, Part<'_>, Part<'_>)) -> bool {
    let (one, two, three) = parts;
    let done = (filled(one, 1), filled(two, 2), filled(three, 3));
    done.0 && done.1 && done.2
}

// Fills the elements that each of three lists names with a number of their own. The parts are lent by a mutable view.
fn fill_three(
    grid: &mut ArrayD<u64>,
    a: &[SliceInfoElem],
    b: &[SliceInfoElem],
    c: &[SliceInfoElem],
) -> bool {
    three_fit(grid.shape(), a, b, c) && three_filled(grid.view_mut().multi_slice_mut((a, b, c)))
}

fn three_rows_of_a_grid(alloc: Global) -> bool {
    let Some(mut grid) = any_axes(alloc, &[3, 4], &[0, 1, 2, 3, 4, 5, 6, 7, 8, 9, 10, 11]) else {
        return false;
    };
    let a = [SliceInfoElem::Index(0), part(0, None, 1)];
    let b = [part(1, Some(2), 1), part(0, None, 3)];
    let c = [SliceInfoElem::Index(-1), part(1, None, -1)];
    fill_three(&mut grid, &a, &b, &c)
        && is_grid(&grid, [3, 4], &[1, 1, 1, 1, 2, 5, 6, 2, 8, 3, 3, 3])
}

#[test]
fn parts_of_a_grid(rt: HostRuntime) {
    assert!(rt; four_quadrants_of_a_grid(rt.alloc()));
    assert!(rt; every_second_column_of_a_view(rt.alloc()));
    assert!(rt; slices_that_meet_are_not_lent(rt.alloc()));
    assert!(rt; three_rows_of_a_grid(rt.alloc()));
}
