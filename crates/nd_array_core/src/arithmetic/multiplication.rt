//! Products of two arrays, and of an array and a number, element by element.

ghost use Rattle.std.specs.Prelude.{◌≡◌, ◌<◌, IfOk, OnErr};
ghost use Rattle.nd_shape_and_slice.specs.ShapesAndIndexOrders.{size_of};
ghost use Rattle.nd_array_core.specs.ArrayMeaning.{shape_of};
ghost use Rattle.nd_array_core.specs.arithmetic.ElementwiseArithmetic.{BecomesBoth, BecomesEach, CanMeet, IsOfBoth};

use crate::arithmetic::operations::{
    combine_with, combine_with_scalar, combined, with_each, with_scalar,
};
use crate::base::array::{Array, ArrayBase};
use nd_elements::storage::{Data, DataMut, OwnedRepr};
use nd_numbers::{Arithmetic, Times};
use nd_shape_and_slice::{Dimension, NoMemory};
use std::ops::{Mul, MulAssign};

/// `array *= &other` multiplies each element of `array` by the element of `other` at the same index. `other` is
/// broadcast to the shape of `array`, which must be possible. It takes no memory. ndarray has the same operator.
impl<
    'a,
    A: Arithmetic,
    S: DataMut<Elem = A>,
    D: Dimension,
    Z: Data<Elem = A>,
    E: Dimension,
> MulAssign<&'a ArrayBase<Z, E>> for ArrayBase<S, D> {
    ghost can_mul_assign = { λ a b. CanMeet a b.now };

    ghost mul_assign_gives = { λ a b c. BecomesBoth S.frame A.times a b.now c };

    fn mul_assign(&mut self, other: &'a ArrayBase<Z, E>) {
        combine_with(self, other, Times);
    }
}

/// `array *= number` multiplies each element by the number. It takes no memory. ndarray has the same operator.
impl<A: Arithmetic, S: DataMut<Elem = A>, D: Dimension> MulAssign<A> for ArrayBase<S, D> {
    ghost mul_assign_gives = { λ a x c. BecomesEach S.frame (λ y. A.times y x) a c };

    fn mul_assign(&mut self, number: A) {
        combine_with_scalar(self, number, Times);
    }
}

/// `array * &other` is `array` with each element multiplied by the element of `other` at the same index. `other` is
/// broadcast to the shape of `array`, which must be possible. It takes no memory: the storage of `array` is written.
/// ndarray has the same operator.
impl<'a, A: Arithmetic, S: DataMut<Elem = A>, D: Dimension, Z: Data<Elem = A>, E: Dimension> Mul<
    &'a ArrayBase<Z, E>,
> for ArrayBase<S, D> {
    type Output = ArrayBase<S, D>;

    ghost can_mul = { λ a b. CanMeet a b.now };

    ghost mul_gives = { λ a b c. BecomesBoth S.frame A.times a b.now c };

    fn mul(self, other: &'a ArrayBase<Z, E>) -> ArrayBase<S, D> {
        with_each(self, other, Times)
    }
}

/// `array * number` is the array with each element multiplied by the number. It takes no memory: the array's storage is
/// written. ndarray has the same operator.
impl<A: Arithmetic, S: DataMut<Elem = A>, D: Dimension> Mul<A> for ArrayBase<S, D> {
    type Output = ArrayBase<S, D>;

    ghost mul_gives = { λ a x c. BecomesEach S.frame (λ y. A.times y x) a c };

    fn mul(self, number: A) -> ArrayBase<S, D> {
        with_scalar(self, number, Times)
    }
}

/// `(&array * &other)?` is a new array with the product of both elements at each index. `other` is broadcast to the
/// shape of `array`, which must be possible. The allocator is that of `array`, which owns its elements. Fails with
/// `NoMemory` if the storage is refused. ndarray's operator returns the new array itself, and no `Result`.
impl<'a, 'b, A: Arithmetic, D: Dimension, Z: Data<Elem = A>, E: Dimension> Mul<&'b ArrayBase<Z, E>>
    for &'a ArrayBase<OwnedRepr<A>, D> {
    type Output = Result<Array<A, D>, NoMemory>;

    ghost can_mul = { λ a b. CanMeet a.now b.now };

    ghost mul_gives = { λ a b r. IfOk r (IsOfBoth A.times a.now b.now) × OnErr r (0 < size_of (shape_of a.now)) };

    fn mul(self, other: &'b ArrayBase<Z, E>) -> Result<Array<A, D>, NoMemory> {
        combined(*self.storage.items.allocator(), self, other, Times)
    }
}
