//! Quotients of two arrays, and of an array and a number, element by element.

ghost use Rattle.std.specs.Prelude.{◌≡◌, ◌<◌, IfOk, OnErr, IsTrue};
ghost use Rattle.nd_shape_and_slice.specs.ShapesAndIndexOrders.{size_of};
ghost use Rattle.nd_array_core.specs.ArrayMeaning.{shape_of, element_at};
ghost use Rattle.nd_array_core.specs.arithmetic.ElementwiseArithmetic.{BecomesBoth, BecomesEach, CanMeet, EachIsDivisor, IsOfBoth};

use crate::arithmetic::operations::{
    combine_with, combine_with_scalar, combined, with_each, with_scalar,
};
use crate::base::array::{Array, ArrayBase};
use nd_elements::storage::{Data, DataMut, OwnedRepr};
use nd_numbers::{Arithmetic, Over};
use nd_shape_and_slice::{Dimension, NoMemory};
use std::ops::{Div, DivAssign};

/// `array /= &other` divides each element of `array` by the element of `other` at the same index. `other` is broadcast
/// to the shape of `array`, which must be possible, and no divisor may be the integer 0. It takes no memory. ndarray
/// has the same operator.
impl<
    'a,
    A: Arithmetic,
    S: DataMut<Elem = A>,
    D: Dimension,
    Z: Data<Elem = A>,
    E: Dimension,
> DivAssign<&'a ArrayBase<Z, E>> for ArrayBase<S, D> {
    ghost can_div_assign = { λ a b. CanMeet a b.now × EachIsDivisor A.is_divisor (element_at b.now) };

    ghost div_assign_gives = { λ a b c. BecomesBoth S.frame A.over a b.now c };

    fn div_assign(&mut self, other: &'a ArrayBase<Z, E>) {
        combine_with(self, other, Over);
    }
}

/// `array /= number` divides each element by the number, which must not be the integer 0. It takes no memory. ndarray
/// has the same operator.
impl<A: Arithmetic, S: DataMut<Elem = A>, D: Dimension> DivAssign<A> for ArrayBase<S, D> {
    ghost can_div_assign = { λ a x. IsTrue (A.is_divisor x) };

    ghost div_assign_gives = { λ a x c. BecomesEach S.frame (λ y. A.over y x) a c };

    fn div_assign(&mut self, number: A) {
        combine_with_scalar(self, number, Over);
    }
}

/// `array / &other` is `array` with each element divided by the element of `other` at the same index. `other` is
/// broadcast to the shape of `array`, which must be possible, and no divisor may be the integer 0. It takes no memory:
/// the storage of `array` is written. ndarray has the same operator.
impl<'a, A: Arithmetic, S: DataMut<Elem = A>, D: Dimension, Z: Data<Elem = A>, E: Dimension> Div<
    &'a ArrayBase<Z, E>,
> for ArrayBase<S, D> {
    type Output = ArrayBase<S, D>;

    ghost can_div = { λ a b. CanMeet a b.now × EachIsDivisor A.is_divisor (element_at b.now) };

    ghost div_gives = { λ a b c. BecomesBoth S.frame A.over a b.now c };

    fn div(self, other: &'a ArrayBase<Z, E>) -> ArrayBase<S, D> {
        with_each(self, other, Over)
    }
}

/// `array / number` is the array with each element divided by the number, which must not be the integer 0. It takes no
/// memory: the array's storage is written. ndarray has the same operator.
impl<A: Arithmetic, S: DataMut<Elem = A>, D: Dimension> Div<A> for ArrayBase<S, D> {
    type Output = ArrayBase<S, D>;

    ghost can_div = { λ a x. IsTrue (A.is_divisor x) };

    ghost div_gives = { λ a x c. BecomesEach S.frame (λ y. A.over y x) a c };

    fn div(self, number: A) -> ArrayBase<S, D> {
        with_scalar(self, number, Over)
    }
}

/// `(&array / &other)?` is a new array with the quotient of both elements at each index. `other` is broadcast to the
/// shape of `array`, which must be possible, and no divisor may be the integer 0. The allocator is that of `array`,
/// which owns its elements. Fails with `NoMemory` if the storage is refused. ndarray's operator returns the new array
/// itself, and no `Result`.
impl<'a, 'b, A: Arithmetic, D: Dimension, Z: Data<Elem = A>, E: Dimension> Div<&'b ArrayBase<Z, E>>
    for &'a ArrayBase<OwnedRepr<A>, D> {
    type Output = Result<Array<A, D>, NoMemory>;

    ghost can_div = { λ a b. CanMeet a.now b.now × EachIsDivisor A.is_divisor (element_at b.now) };

    ghost div_gives = { λ a b r. IfOk r (IsOfBoth A.over a.now b.now) × OnErr r (0 < size_of (shape_of a.now)) };

    fn div(self, other: &'b ArrayBase<Z, E>) -> Result<Array<A, D>, NoMemory> {
        combined(*self.storage.items.allocator(), self, other, Over)
    }
}
