//! The small tables of the tests, and their elements written as the digits of a number.

ghost use Rattle.std.specs.Prelude.{◌≡◌, ◌∷◌, [], IfSome};
ghost use Rattle.std.specs.Iterator.{IsFinite};
ghost use Rattle.nd_array_core.specs.ArrayMeaning.{shape_of};

use nd_array_core::{Array2, ArrayBase, ArrayView, Data};
use nd_iter::iter;
use nd_shape_and_slice::Dimension;
use std::alloc::Global;

/// Returns the table of the rows 3 7 8 and 5 2 4.
pub(crate) fn table(alloc: Global) -> Option<Array2<u64>>
    ensures { IfSome result (λ table. shape_of table ≡ 2 ∷ 3 ∷ []) }
{
    nd_test_arrays::table(alloc, (2, 3), &[3, 7, 8, 5, 2, 4])
}

/// Returns the table of two rows without elements.
pub(crate) fn nothing(alloc: Global) -> Option<Array2<u64>>
    ensures { IfSome result (λ table. shape_of table ≡ 2 ∷ 0 ∷ []) }
{
    nd_test_arrays::table(alloc, (2, 0), &[])
}

/// Returns the elements as the digits of a number.
pub(crate) fn digits<S: Data<Elem = u64>, D: Dimension>(array: &ArrayBase<S, D>) -> u64 {
    let mut digits: u64 = 0;
    for x in iter(array) {
        digits = digits.wrapping_mul(10).wrapping_add(*x);
    }
    digits
}

/// Returns the elements as the digits of a number, from the last one back.
pub(crate) fn digits_back<S: Data<Elem = u64>, D: Dimension>(array: &ArrayBase<S, D>) -> u64 {
    let mut digits: u64 = 0;
    for x in iter(array).rev() {
        digits = digits.wrapping_mul(10).wrapping_add(*x);
    }
    digits
}

/// Returns whether there is a part, and its elements are these digits.
pub(crate) fn has_digits<D: Dimension>(part: Option<ArrayView<'_, u64, D>>, wanted: u64) -> bool {
    match part {
        Some(part) => digits(&part) == wanted,
        None => false,
    }
}

/// Returns the parts that are left as one number, each with as many digits as `scale` has zeros.
pub(crate) fn joined<'a, D: Dimension, I: Iterator<Item = ArrayView<'a, u64, D>>>(
    parts: I,
    scale: u64,
) -> u64
    requires can_next { I.can_next parts }
    requires finite { IsFinite (I.remaining parts) }
{
    let mut joined: u64 = 0;
    for part in parts {
        joined = joined.wrapping_mul(scale).wrapping_add(digits(&part));
    }
    joined
}

/// Returns whether there is an element, and it has this value.
pub(crate) fn is(element: Option<&u64>, value: u64) -> bool {
    match element {
        Some(element) => *element == value,
        None => false,
    }
}
