//! Callers of the iterators of an array. They need no proof file except for a loop's invariant and a line for
//! `greatest`.

ghost use Rattle.std.specs.Prelude.{◌↔◌, ◌≡◌, ◌==◌, ◌+◌, ◌*◌, ◌<◌, ◌≤◌, ◌^◌, IfOk, IfSome, IsNone, [], count_by, nat_lt, reverse, sum, sum_by};
ghost use Rattle.std.specs.List.{All, Contains, list_all};
ghost use Rattle.nd_array_core.specs.ConcatenationAndSplit.{row_major_elements};
ghost use Rattle.nd_array_core.specs.ArrayMeaning.{meaning_of};
ghost use Rattle.tests_nd_iter_stacking_linalg_and_numeric.specs.ElementPairs.{element_pairs};

use nd_array_core::laws::elements_by_rank;
use nd_array_core::{ArrayBase, Data};
use nd_iter::iter;
use nd_shape_and_slice::Dimension;
use std::alloc::{AllocError, Global};

/// Returns how many elements are greater than a number.
pub fn count_above<S: Data<Elem = u64>, D: Dimension>(array: &ArrayBase<S, D>, least: u64) -> usize
    ensures { result ≡ count_by (λ x. nat_lt least x) (row_major_elements (meaning_of array.now)) }
{
    let _size = array.len();
    elements_by_rank(array);
    let mut count = 0;
    for x in iter(array) {
        if *x > least {
            count += 1;
        }
    }
    count
}

/// Returns the sum of all elements, which must be less than 2 ^ 64.
pub fn total<S: Data<Elem = u64>, D: Dimension>(array: &ArrayBase<S, D>) -> u64
    requires { sum (row_major_elements (meaning_of array.now)) < 2 ^ 64 }
    ensures { result ≡ sum (row_major_elements (meaning_of array.now)) }
{
    iter(array).copied().sum()
}

/// Returns the greatest element, or `None` if there are no elements.
pub fn greatest<S: Data<Elem = u64>, D: Dimension>(array: &ArrayBase<S, D>) -> Option<u64>
    ensures none { IsNone result ↔ (row_major_elements (meaning_of array.now) ≡ []) }
    ensures there { IfSome result (Contains (row_major_elements (meaning_of array.now))) }
    ensures greatest { IfSome result (λ most. All (λ x. x ≤ most) (row_major_elements (meaning_of array.now))) }
{
    iter(array).copied().max()
}

/// Returns whether two arrays have the same elements as far as both go, in row-major order.
pub fn agree<S: Data<Elem = u64>, Z: Data<Elem = u64>, D: Dimension, E: Dimension>(
    one: &ArrayBase<S, D>,
    other: &ArrayBase<Z, E>,
) -> bool
    ensures { result ≡ list_all (λ p. p.0 == p.1) (element_pairs (meaning_of one.now) (meaning_of other.now)) }
{
    iter(one).zip(iter(other)).all(|(x, y)| x == y)
}

/// Returns the sum of the products of elements at the same position in row-major order, which must be less than 2 ^ 64.
pub fn products<S: Data<Elem = u32>, Z: Data<Elem = u32>, D: Dimension, E: Dimension>(
    one: &ArrayBase<S, D>,
    other: &ArrayBase<Z, E>,
) -> u64
    requires { sum_by (λ p. p.0 * p.1) (element_pairs (meaning_of one.now) (meaning_of other.now)) < 2 ^ 64 }
    ensures { result ≡ sum_by (λ p. p.0 * p.1) (element_pairs (meaning_of one.now) (meaning_of other.now)) }
{
    iter(one)
        .zip(iter(other))
        .map(|(x, y)| u64::from(*x) * u64::from(*y))
        .sum()
}

/// Returns the elements in row-major order.
pub fn listed<S: Data<Elem = u64>, D: Dimension>(
    alloc: Global,
    array: &ArrayBase<S, D>,
) -> Result<Vec<u64>, AllocError>
    ensures { IfOk result (λ v. v.items ≡ row_major_elements (meaning_of array.now)) }
{
    iter(array).copied().collect(alloc)
}

/// Returns the elements in the opposite of row-major order.
pub fn listed_back<S: Data<Elem = u64>, D: Dimension>(
    alloc: Global,
    array: &ArrayBase<S, D>,
) -> Result<Vec<u64>, AllocError>
    ensures { IfOk result (λ v. v.items ≡ reverse (row_major_elements (meaning_of array.now))) }
{
    iter(array).rev().copied().collect(alloc)
}
