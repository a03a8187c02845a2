//! Calls that make one number of all elements of an array, in row-major order: sum, product and mean.

ghost use Rattle.std.specs.Prelude.{◌≡◌, ◌↔◌, IsNone, IsTrue, IfSome};
ghost use Rattle.nd_shape_and_slice.specs.ShapesAndIndexOrders.{size_of};
ghost use Rattle.nd_array_core.specs.ArrayMeaning.{shape_of};
ghost use Rattle.nd_array_core.specs.elements.ElementFolds.{IsOrderFree};
ghost use Rattle.nd_numeric.specs.SumsProductsAndMeans.{folded_in_order, mean_of_all};

use crate::folds_in_order::fold_all;
use crate::types_with_reorderable_sums::Reorderable;
use nd_array_core::{ArrayBase, Data};
use nd_numbers::{Plus, Times};
use nd_shape_and_slice::Dimension;

/// Returns whether the sum of such numbers is the same in any order of them.
#[inline]
fn sum_is_free<A: Reorderable>() -> bool
    ensures { IsTrue result → IsOrderFree A.plus }
{
    A::is_reorderable()
}

/// Returns whether the product of such numbers is the same in any order of them.
#[inline]
fn product_is_free<A: Reorderable>() -> bool
    ensures { IsTrue result → IsOrderFree A.times }
{
    A::is_reorderable()
}

/// Returns the sum of all elements: they are added to 0 one after another in row-major order, whatever the layout. Of
/// integers, whose sum is the same in any order, they are taken as they lie in memory. This is ndarray's `sum`, which
/// adds in an order of its own.
pub fn sum<A: Reorderable, S: Data<Elem = A>, D: Dimension>(array: &ArrayBase<S, D>) -> A
    ensures { result ≡ folded_in_order A.plus A.zero array.now }
{
    fold_all(array, Plus, A::zero(), sum_is_free::<A>())
}

/// Returns the product of all elements: 1 is multiplied by them one after another in row-major order, whatever the
/// layout. Of integers, whose product is the same in any order, they are taken as they lie in memory. This is ndarray's
/// `product`, which multiplies in an order of its own.
pub fn product<A: Reorderable, S: Data<Elem = A>, D: Dimension>(array: &ArrayBase<S, D>) -> A
    ensures { result ≡ folded_in_order A.times A.one array.now }
{
    fold_all(array, Times, A::one(), product_is_free::<A>())
}

/// Returns the sum of all elements divided by their number, or `None` if there are no elements. This is ndarray's
/// `mean`.
pub fn mean<A: Reorderable, S: Data<Elem = A>, D: Dimension>(array: &ArrayBase<S, D>) -> Option<A>
    ensures none { IsNone result ↔ (size_of (shape_of array.now) ≡ 0) }
    ensures mean { IfSome result (λ mean. mean ≡ mean_of_all A.plus A.over A.zero A.of_count array.now) }
{
    let count = array.len();
    if count == 0 {
        return None;
    }
    Some(sum(array).over(A::of_count(count)))
}
