//! Comparing the elements of two storages, index by index.

ghost use Rattle.std.specs.Prelude.{◌≡◌, ◌+◌, ◌≤◌, length, pos};
ghost use Rattle.std.specs.Cmp.Lexicographic.{pointwise};
ghost use Rattle.nd_layout.specs.NumberedPlacesAndWalks.{along, ranked};
ghost use Rattle.nd_elements.specs.StorageByLayout.{equal_shown, HoldsShown};
ghost use Rattle.nd_elements.specs.ElementsAtNumberedPlaces.{Holds, equal_from, equal_along};
ghost use Rattle.nd_elements.specs.elements.EqualElements.{equal_ranked};

use crate::storage::Data;
use nd_layout::{
    Lane, Layout, Places, columns_as_rows, halved_alike, is_worth_turning, turned_alike,
};
use nd_shape_and_slice::{Dimension, StrideList};

/// The number of items of two slices that are compared before the result is tested. Not measured by itself.
const ITEMS_BETWEEN_TESTS: usize = 64;

/// The number of elements along two lanes of any strides that are compared before the result is tested. Measured in
/// plain Rust, squares of 32 to 1,000 words or bytes in two orders: 8 in its place takes 0.91 to 1.23 of the time, and
/// 64, with the last elements as one block too, 1.00 to 1.38.
const ELEMENTS_BETWEEN_TESTS: usize = 16;

/// Returns whether two slices of `ITEMS_BETWEEN_TESTS` items are equal. Compares all items without an early exit.
fn block_equal_slice<A: PartialEq>(xs: &[A], ys: &[A]) -> bool
    requires { (length xs.now ≡ 64) × (length ys.now ≡ 64) }
    ensures { result ≡ pointwise A.eq xs.now ys.now }
{
    let mut same = true;
    for nth in 0..ITEMS_BETWEEN_TESTS {
        same = same & xs[nth].eq(&ys[nth]);
    }
    same
}

/// Returns whether two slices of the same length have equal items.
pub fn equal_slice<A: PartialEq>(xs: &[A], ys: &[A]) -> bool
    requires { length ys.now ≡ length xs.now }
    ensures { result ≡ pointwise A.eq xs.now ys.now }
{
    let (mut ours, mut theirs) = (xs, ys);
    while ours.len() >= ITEMS_BETWEEN_TESTS {
        let (block, rest) = ours.split_at(ITEMS_BETWEEN_TESTS);
        let (other, others) = theirs.split_at(ITEMS_BETWEEN_TESTS);
        if !block_equal_slice(block, other) {
            return false;
        }
        (ours, theirs) = (rest, others);
    }
    ours == theirs
}

/// Returns whether the `count` elements from number `from` on along the lane `ours` of `a` equal those along the lane
/// `theirs` of `b`.
#[inline(always)]
fn block_equal_strided<S: Data>(
    a: &S,
    ours: Lane,
    b: &S,
    theirs: Lane,
    from: usize,
    count: usize,
) -> bool
where
    S::Elem: PartialEq,
    requires within { (from + count ≤ ours.count) × (from + count ≤ theirs.count) }
    requires ours { Holds S.stored (along ours) a.now }
    requires theirs { Holds S.stored (along theirs) b.now }
    ensures { result ≡ equal_from S.Elem.eq S.stored from count a.now ours b.now theirs }
{
    let mut same = true;
    for nth in 0..count {
        let x = a.element(ours.place_of(from + nth));
        let y = b.element(theirs.place_of(from + nth));
        same = same & x.eq(y);
    }
    same
}

/// Returns whether the `count` elements from number `from` on along the lane `ours` of `a` equal those along the lane
/// `theirs` of `b`. Compares them one by one, up to the first that differs.
#[inline(always)]
fn few_equal_strided<S: Data>(
    a: &S,
    ours: Lane,
    b: &S,
    theirs: Lane,
    from: usize,
    count: usize,
) -> bool
where
    S::Elem: PartialEq,
    requires within { (from + count ≤ ours.count) × (from + count ≤ theirs.count) }
    requires ours { Holds S.stored (along ours) a.now }
    requires theirs { Holds S.stored (along theirs) b.now }
    ensures { result ≡ equal_from S.Elem.eq S.stored from count a.now ours b.now theirs }
{
    for nth in 0..count {
        let x = a.element(ours.place_of(from + nth));
        let y = b.element(theirs.place_of(from + nth));
        if !x.eq(y) {
            return false;
        }
    }
    true
}

/// Returns whether the elements along two lanes are equal. Compares block by block, of `ELEMENTS_BETWEEN_TESTS` elements
/// each, which the compiler knows, and then the elements that are left, one by one.
fn equal_strided<S: Data>(a: &S, ours: Lane, b: &S, theirs: Lane) -> bool
where
    S::Elem: PartialEq,
    requires as_long { theirs.count ≡ ours.count }
    requires ours { Holds S.stored (along ours) a.now }
    requires theirs { Holds S.stored (along theirs) b.now }
    ensures { result ≡ equal_along S.Elem.eq S.stored a.now ours b.now theirs }
{
    let mut from = 0;
    while ours.count - from >= ELEMENTS_BETWEEN_TESTS {
        if !block_equal_strided(a, ours, b, theirs, from, ELEMENTS_BETWEEN_TESTS) {
            return false;
        }
        from += ELEMENTS_BETWEEN_TESTS;
    }
    few_equal_strided(a, ours, b, theirs, from, ours.count - from)
}

/// Returns whether the elements along two lanes of stride 1 are equal. They are compared as slices.
fn equal_contiguous<S: Data>(a: &S, ours: Lane, b: &S, theirs: Lane) -> bool
where
    S::Elem: PartialEq,
    requires steps { (ours.stride ≡ pos 1) × (theirs.stride ≡ pos 1) }
    requires as_long { theirs.count ≡ ours.count }
    requires ours { Holds S.stored (along ours) a.now }
    requires theirs { Holds S.stored (along theirs) b.now }
    ensures { result ≡ equal_along S.Elem.eq S.stored a.now ours b.now theirs }
{
    let xs = a.borrowed().run(ours.place, ours.count);
    let ys = b.borrowed().run(theirs.place, theirs.count);
    equal_slice(xs, ys)
}

/// Returns whether the elements along two lanes are equal. The lanes may have any strides. Lanes of few elements are
/// compared without a call of another function.
#[inline(always)]
fn lanes_equal<S: Data>(a: &S, ours: Lane, b: &S, theirs: Lane) -> bool
where
    S::Elem: PartialEq,
    requires as_long { theirs.count ≡ ours.count }
    requires ours { Holds S.stored (along ours) a.now }
    requires theirs { Holds S.stored (along theirs) b.now }
    ensures { result ≡ equal_along S.Elem.eq S.stored a.now ours b.now theirs }
{
    if ours.stride == 1 && theirs.stride == 1 {
        return equal_contiguous(a, ours, b, theirs);
    }
    if ours.count < ELEMENTS_BETWEEN_TESTS {
        return few_equal_strided(a, ours, b, theirs, 0, ours.count);
    }
    equal_strided(a, ours, b, theirs)
}

/// Returns whether `a` has at the places `ours` the elements that `b` has at the places `theirs`. Both have the same
/// lengths of axes, and are compared lane by lane in row-major order.
fn equal_lane_by_lane<S: Data>(a: &S, ours: Places<'_>, b: &S, theirs: Places<'_>) -> bool
where
    S::Elem: PartialEq,
    requires alike { theirs.lengths.now ≡ ours.lengths.now }
    requires ours { Holds S.stored (ranked ours) a.now }
    requires theirs { Holds S.stored (ranked theirs) b.now }
    ensures { result ≡ equal_ranked S.Elem.eq S.stored a.now ours.entry b.now theirs.entry }
{
    let mut lanes = ours.lanes();
    let mut others = theirs.lanes();
    while let Some(lane) = lanes.next() {
        match others.next() {
            Some(other) => {
                if !lanes_equal(a, lane, b, other) {
                    return false;
                }
            }
            None => unreachable!(),
        }
    }
    true
}

/// Returns whether `a` has at the places `ours` the elements that `b` has at the places `theirs`. Both have the same
/// lengths of axes, and are compared in row-major order. If all places of each are one lane, compares these two lanes;
/// otherwise compares lane by lane.
fn equal_places<S: Data>(a: &S, ours: Places<'_>, b: &S, theirs: Places<'_>) -> bool
where
    S::Elem: PartialEq,
    requires alike { theirs.lengths.now ≡ ours.lengths.now }
    requires ours { Holds S.stored (ranked ours) a.now }
    requires theirs { Holds S.stored (ranked theirs) b.now }
    ensures { result ≡ equal_ranked S.Elem.eq S.stored a.now ours.entry b.now theirs.entry }
{
    if let Some((lane, aside)) = ours.as_lanes(&theirs) {
        return lanes_equal(a, lane, b, aside);
    }
    equal_lane_by_lane(a, ours, b, theirs)
}

/// Returns whether at each index the element of `a` under the layout `ours` equals the element of `b` under the layout
/// `theirs`. Compares in row-major order.
fn equal_in_order<S: Data, D: Dimension, T: StrideList>(
    a: &S,
    ours: &Layout<D, T>,
    b: &S,
    theirs: &Layout<D, T>,
) -> bool
where
    S::Elem: PartialEq,
    requires alike { D.lengths theirs.now.dim ≡ D.lengths ours.now.dim }
    requires ours { HoldsShown S.stored a.now ours.now }
    requires theirs { HoldsShown S.stored b.now theirs.now }
    ensures { result ≡ equal_shown S.stored S.Elem.eq a.now ours.now b.now theirs.now }
{
    equal_places(a, ours.places(), b, theirs.places())
}

/// Returns whether at each index the element of `a` under the layout `ours` equals the element of `b` under the layout
/// `theirs`. If long lanes would jump about in the memory of `b`, cuts both layouts in halves at the same index, and
/// compares the lower halves before the upper ones.
fn equal_in_halves<S: Data, D: Dimension, T: StrideList>(
    a: &S,
    ours: &Layout<D, T>,
    b: &S,
    theirs: &Layout<D, T>,
) -> bool
where
    S::Elem: PartialEq,
    requires alike { D.lengths theirs.now.dim ≡ D.lengths ours.now.dim }
    requires ours { HoldsShown S.stored a.now ours.now }
    requires theirs { HoldsShown S.stored b.now theirs.now }
    ensures { result ≡ equal_shown S.stored S.Elem.eq a.now ours.now b.now theirs.now }
{
    let Some(halves) = halved_alike(ours, theirs) else {
        return equal_in_order(a, ours, b, theirs);
    };
    equal_in_halves(a, &halves.lower, b, &halves.lower_other)
        && equal_in_halves(a, &halves.upper, b, &halves.upper_other)
}

/// Returns whether at each index the element of `a` under the layout `ours` equals the element of `b` under the layout
/// `theirs`. Compares in an order that goes along memory: column by column, if the places of both are consecutive so, or
/// else, if that is worth while, permutes the axes of both layouts in the same way, and cuts both in halves.
pub fn layouts_equal<S: Data, D: Dimension, T: StrideList>(
    a: &S,
    ours: &Layout<D, T>,
    b: &S,
    theirs: &Layout<D, T>,
) -> bool
where
    S::Elem: PartialEq,
    requires alike { D.lengths theirs.now.dim ≡ D.lengths ours.now.dim }
    requires ours { HoldsShown S.stored a.now ours.now }
    requires theirs { HoldsShown S.stored b.now theirs.now }
    ensures { result ≡ equal_shown S.stored S.Elem.eq a.now ours.now b.now theirs.now }
{
    if let Some((rows, other_rows)) = columns_as_rows(ours, theirs) {
        return equal_in_order(a, &rows, b, &other_rows);
    }
    if !is_worth_turning(ours, theirs) {
        return equal_in_order(a, ours, b, theirs);
    }
    let (turned, other) = turned_alike(ours, theirs);
    equal_in_halves(a, &turned, b, &other)
}
