//! The least and the greatest element.

ghost use Rattle.std.specs.Prelude.{◌≡◌, IsTrue};
ghost use Rattle.std.specs.List.{reduce};
ghost use Rattle.nd_array_core.specs.ArrayMeaning.{meaning_of};
ghost use Rattle.nd_array_core.specs.ConcatenationAndSplit.{row_major_elements};
ghost use Rattle.nd_array_core.specs.elements.ElementFolds.{IsOrderFree};
ghost use Rattle.nd_numeric.specs.LeastAndGreatest.{lesser_by, greater_by};

use crate::folds_in_order::fold_from_first;
use crate::types_identical_when_equal::Distinct;
use nd_array_core::{ArrayBase, Data};
use nd_numbers::{Operation, Ordered};
use nd_shape_and_slice::Dimension;

/// Returns the lesser of two numbers, or the first if they are equal.
#[inline]
#[tactic(auto, using(crate::proofs::FoldKeepingTheBest::greater_is))]
pub(crate) fn lesser<A: Ordered>(x: A, y: &A) -> A
    ensures { result ≡ lesser_by A.order x y.now }
{
    // Of floats this test compiles to fewer branches than the one that asks whether `y` is less.
    if x.order(y).is_gt() { *y } else { x }
}

/// Returns the greater of two numbers, or the first if they are equal.
#[inline]
pub(crate) fn greater<A: Ordered>(x: A, y: &A) -> A
    ensures { result ≡ greater_by A.order x y.now }
{
    if y.order(&x).is_gt() { *y } else { x }
}

/// The operation that returns the lesser of the least number so far and the next number.
#[derive(Clone, Copy)]
pub(crate) struct Least;

/// The operation that returns the greater of the greatest number so far and the next number.
#[derive(Clone, Copy)]
pub(crate) struct Greatest;

impl<A: Ordered> Operation<A, A> for Least {
    ghost gives = { λ operation least x. lesser_by A.order least x };

    #[inline]
    fn apply(&self, least: &A, x: &A) -> A {
        lesser(*least, x)
    }
}

impl<A: Ordered> Operation<A, A> for Greatest {
    ghost gives = { λ operation greatest x. greater_by A.order greatest x };

    #[inline]
    fn apply(&self, greatest: &A, x: &A) -> A {
        greater(*greatest, x)
    }
}

/// Returns whether the least and the greatest of such numbers are the same in any order of them. Of a number and itself
/// either one is that number.
#[inline]
fn ends_are_free<A: Distinct>() -> bool
    ensures lesser_of_one { (x : A) → lesser_by A.order x x ≡ x }
    ensures greater_of_one { (x : A) → greater_by A.order x x ≡ x }
    ensures least { IsTrue result → IsOrderFree (lesser_by A.order) }
    ensures greatest { IsTrue result → IsOrderFree (greater_by A.order) }
{
    A::is_distinct()
}

/// Returns the least element, or `None` if there are no elements. Of equal elements it is the first in row-major order.
/// Integers, of which equal ones are the same, are taken as they lie in memory. In the order of floats a NaN comes after
/// all numbers, so it is the least only if all elements are NaN. This is ndarray-stats' `min`, which refuses a NaN.
pub fn min<A: Distinct, S: Data<Elem = A>, D: Dimension>(array: &ArrayBase<S, D>) -> Option<A>
    ensures { result ≡ reduce (lesser_by A.order) (row_major_elements (meaning_of array.now)) }
{
    fold_from_first(array, Least, ends_are_free::<A>())
}

/// Returns the greatest element, or `None` if there are no elements. Of equal elements it is the first in row-major
/// order. Integers, of which equal ones are the same, are taken as they lie in memory. In the order of floats a NaN comes
/// after all numbers, so it is the greatest wherever there is one. This is ndarray-stats' `max`, which refuses a NaN.
pub fn max<A: Distinct, S: Data<Elem = A>, D: Dimension>(array: &ArrayBase<S, D>) -> Option<A>
    ensures { result ≡ reduce (greater_by A.order) (row_major_elements (meaning_of array.now)) }
{
    fold_from_first(array, Greatest, ends_are_free::<A>())
}
