//! The calls that make one number of all elements of an array, or find one of them, made in turn.

use nd_array_core::{ArrayBase, Data};
use nd_numeric::{Distinct, Reorderable, argmax, argmin, max, mean, min, product, sum};
use nd_shape_and_slice::{Dimension, IntoPattern};

/// Returns the sum and the product of all elements of an array, their mean, the least and the greatest of them. The tests
/// call this for arrays of several types, since each of these calls at known types takes longer to prove.
pub fn totals<A: Reorderable + Distinct, S: Data<Elem = A>, D: Dimension>(
    array: &ArrayBase<S, D>,
) -> (A, A, Option<A>, Option<A>, Option<A>) {
    let least = min(array);
    let greatest = max(array);
    (sum(array), product(array), mean(array), least, greatest)
}

/// Returns the indexes of the least and of the greatest element of an array.
pub fn ends_at<A: Distinct, S: Data<Elem = A>, D: IntoPattern>(
    array: &ArrayBase<S, D>,
) -> (Option<D::Pattern>, Option<D::Pattern>)
where
    D::Pattern: Drop,
{
    (argmin(array), argmax(array))
}
