//! Sums of integers that must not wrap.

ghost use Rattle.std.specs.Prelude.{◌≡◌, ◌+ℤ◌, ◌-◌, ◌≤ℤ◌, ◌^◌, pos};
ghost use Rattle.std.specs.Option.{SomeIff};
ghost use Rattle.nd_numeric.specs.ExactSums.{exact_sum_of};

use crate::integers_as_i128::Whole;
use nd_array_core::laws::elements_by_rank;
use nd_array_core::{ArrayBase, Data};
use nd_iter::iter;
use nd_shape_and_slice::Dimension;

/// Returns the sum of a number of 128 bits and a number of at most 64 bits.
fn added<A: Whole>(sum: i128, x: A) -> i128
    requires most { sum ≤ℤ pos (2 ^ 127 - 2 ^ 65) }
    requires least { pos 0 ≤ℤ (sum +ℤ pos (2 ^ 127 - 2 ^ 65)) }
    ensures value { result ≡ sum +ℤ A.value x }
    ensures most { result ≤ℤ (sum +ℤ pos (2 ^ 64)) }
    ensures least { sum ≤ℤ (result +ℤ pos (2 ^ 64)) }
{
    sum + x.widened()
}

/// Returns the sum of all elements if it fits the elements' type, and `None` exactly if it doesn't. Only the sum itself
/// is compared with the type's range: a signed sum may leave the range on the way and come back. Elements have at most
/// 64 bits. ndarray has no such call: its `sum` of integers wraps or panics.
pub fn checked_sum<A: Whole, S: Data<Elem = A>, D: Dimension>(array: &ArrayBase<S, D>) -> Option<A>
    ensures { SomeIff result (A.in_range (exact_sum_of A.value array.now)) (A.of_value (exact_sum_of A.value array.now)) }
{
    let _size = array.len();
    elements_by_rank(array);
    let mut sum: i128 = 0;
    for x in iter(array) {
        sum = added(sum, *x);
    }
    A::narrowed(sum)
}
