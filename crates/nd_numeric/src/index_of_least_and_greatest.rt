//! The indexes of the least and the greatest element.

ghost use Rattle.std.specs.Prelude.{◌≡◌, ◌<◌, ◌↔◌, IfSome, IsNone};
ghost use Rattle.std.specs.List.{reduce};
ghost use Rattle.nd_shape_and_slice.specs.ShapesAndIndexOrders.{index_at, size_of};
ghost use Rattle.nd_array_core.specs.ConcatenationAndSplit.{row_major_elements};
ghost use Rattle.nd_array_core.specs.ArrayMeaning.{meaning_of, shape_of};
ghost use Rattle.nd_numeric.specs.IndexOfLeastAndGreatest.{beaten_before, beats_by, better_by, rank_of_best, IsFirstBest, IsFirstLeast, IsFirstGreatest};

use crate::least_and_greatest::{max, min};
use crate::types_identical_when_equal::Distinct;
use nd_array_core::laws::{elements_by_rank, nothing_outside};
use nd_array_core::{ArrayBase, Data};
use nd_iter::iter;
use nd_numbers::Ordered;
use nd_shape_and_slice::{Dimension, IntoPattern, MAX_AXES, index_of_rank};

/// Returns whether `x` is greater than `y` if `greatest` is true, and otherwise whether it is less.
fn beats<A: Ordered>(x: &A, y: &A, greatest: bool) -> bool
    ensures { result ≡ beats_by A.order greatest x.now y.now }
{
    let order = x.order(y);
    if greatest {
        order.is_gt()
    } else {
        order.is_lt()
    }
}

/// Returns how many elements stand, in row-major order, before the first one that `best` doesn't beat.
fn count_beaten<A: Ordered, S: Data<Elem = A>, D: Dimension>(
    array: &ArrayBase<S, D>,
    best: A,
    greatest: bool,
) -> usize
    ensures { result ≡ beaten_before (beats_by A.order greatest) best (row_major_elements (meaning_of array.now)) }
{
    let _size = array.len();
    elements_by_rank(array);
    let mut count = 0;
    for x in iter(array) {
        if !beats(&best, x, greatest) {
            return count;
        }
        count += 1;
    }
    count
}

/// Returns the greatest element if `greatest` is true, and otherwise the least one.
fn best_of<A: Distinct, S: Data<Elem = A>, D: Dimension>(
    array: &ArrayBase<S, D>,
    greatest: bool,
) -> Option<A>
    ensures { result ≡ reduce (better_by (beats_by A.order greatest)) (row_major_elements (meaning_of array.now)) }
{
    if greatest { max(array) } else { min(array) }
}

/// Returns the rank (the position in row-major order) of the first greatest element if `greatest` is true, and otherwise
/// that of the first least element.
pub(crate) fn best_rank<A: Distinct, S: Data<Elem = A>, D: Dimension>(
    array: &ArrayBase<S, D>,
    greatest: bool,
) -> Option<usize>
    ensures { result ≡ rank_of_best (beats_by A.order greatest) (row_major_elements (meaning_of array.now)) }
{
    // The search for the best element stops nowhere, so it takes many elements at once; the search for its rank can't.
    match best_of(array, greatest) {
        Some(best) => Some(count_beaten(array, best, greatest)),
        None => None,
    }
}

/// Returns the rank of the first greatest element if `greatest` is true, and otherwise that of the first least element.
fn first_best<A: Distinct, S: Data<Elem = A>, D: Dimension>(
    array: &ArrayBase<S, D>,
    greatest: bool,
) -> Option<usize>
    ensures none { IsNone result ↔ (size_of (shape_of array.now) ≡ 0) }
    ensures within { IfSome result (λ rank. rank < size_of (shape_of array.now)) }
    ensures best { IfSome result (λ rank. IsFirstBest (beats_by A.order greatest) (meaning_of array.now) (index_at (shape_of array.now) rank)) }
{
    elements_by_rank(array);
    nothing_outside(array);
    best_rank(array, greatest)
}

/// Returns the index of the element with the rank `rank`.
fn index_of<S: Data, D: IntoPattern>(array: &ArrayBase<S, D>, rank: usize) -> D::Pattern
    requires { rank < size_of (shape_of array.now) }
    ensures { D.pattern_lengths result ≡ index_at (shape_of array.now) rank }
{
    let mut coordinates = [0; MAX_AXES];
    let index = &mut coordinates[..array.ndim()];
    index_of_rank(array.shape(), rank, index);
    match D::from_lengths(index) {
        Some(index) => index.into_pattern(),
        None => unreachable!(),
    }
}

/// Returns the index of the first greatest element if `greatest` is true, and otherwise that of the first least
/// element.
fn best_index<A: Distinct, S: Data<Elem = A>, D: IntoPattern>(
    array: &ArrayBase<S, D>,
    greatest: bool,
) -> Option<D::Pattern>
where
    D::Pattern: Drop,
    ensures none { IsNone result ↔ (size_of (shape_of array.now) ≡ 0) }
    ensures best { IfSome result (λ i. IsFirstBest (beats_by A.order greatest) (meaning_of array.now) (D.pattern_lengths i)) }
{
    match first_best(array, greatest) {
        Some(rank) => Some(index_of(array, rank)),
        None => None,
    }
}

/// Returns the index of the least element, or `None` exactly if there are no elements. Of equal elements it is the
/// first in row-major order. By the number of axes, the index is a number, a tuple or a list of coordinates. In the
/// order of floats a NaN comes after all numbers, so it is the least only if all elements are NaN, and -0 equals 0.
/// This is ndarray-stats' `argmin`, which refuses a NaN.
pub fn argmin<A: Distinct, S: Data<Elem = A>, D: IntoPattern>(
    array: &ArrayBase<S, D>,
) -> Option<D::Pattern>
where
    D::Pattern: Drop,
    ensures none { IsNone result ↔ (size_of (shape_of array.now) ≡ 0) }
    ensures least { IfSome result (λ i. IsFirstLeast A.order (meaning_of array.now) (D.pattern_lengths i)) }
{
    best_index(array, false)
}

/// Returns the index of the greatest element, or `None` exactly if there are no elements. Of equal elements it is the
/// first in row-major order. By the number of axes, the index is a number, a tuple or a list of coordinates. In the
/// order of floats a NaN comes after all numbers, so it is the greatest wherever there is one, and -0 equals 0. This is
/// ndarray-stats' `argmax`, which refuses a NaN.
pub fn argmax<A: Distinct, S: Data<Elem = A>, D: IntoPattern>(
    array: &ArrayBase<S, D>,
) -> Option<D::Pattern>
where
    D::Pattern: Drop,
    ensures none { IsNone result ↔ (size_of (shape_of array.now) ≡ 0) }
    ensures greatest { IfSome result (λ i. IsFirstGreatest A.order (meaning_of array.now) (D.pattern_lengths i)) }
{
    best_index(array, true)
}
