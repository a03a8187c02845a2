//! Differences of two arrays, and of an array and a number.

ghost use Rattle.std.specs.Prelude.{◌≡◌, ◌<◌, IfOk, OnErr};
ghost use Rattle.nd_shape_and_slice.specs.ShapesAndIndexOrders.{size_of};
ghost use Rattle.nd_array_core.specs.ArrayMeaning.{shape_of};
ghost use Rattle.nd_array_core.specs.arithmetic.ElementwiseArithmetic.{BecomesBoth, BecomesEach, CanMeet, IsOfBoth};

use crate::arithmetic::operations::{
    combine_with, combine_with_scalar, combined, with_each, with_scalar,
};
use crate::base::array::{Array, ArrayBase};
use nd_elements::storage::{Data, DataMut, OwnedRepr};
use nd_numbers::{Arithmetic, Minus};
use nd_shape_and_slice::{Dimension, NoMemory};
use std::ops::{Sub, SubAssign};

/// `array -= &other` subtracts from each element of `array` the element of `other` at the same index. `other` is
/// broadcast to the shape of `array`, which must be possible. It takes no memory. ndarray has the same operator.
impl<
    'a,
    A: Arithmetic,
    S: DataMut<Elem = A>,
    D: Dimension,
    Z: Data<Elem = A>,
    E: Dimension,
> SubAssign<&'a ArrayBase<Z, E>> for ArrayBase<S, D> {
    ghost can_sub_assign = { λ a b. CanMeet a b.now };

    ghost sub_assign_gives = { λ a b c. BecomesBoth S.frame A.minus a b.now c };

    fn sub_assign(&mut self, other: &'a ArrayBase<Z, E>) {
        combine_with(self, other, Minus);
    }
}

/// `array -= number` subtracts the number from each element. It takes no memory. ndarray has the same operator.
impl<A: Arithmetic, S: DataMut<Elem = A>, D: Dimension> SubAssign<A> for ArrayBase<S, D> {
    ghost sub_assign_gives = { λ a x c. BecomesEach S.frame (λ y. A.minus y x) a c };

    fn sub_assign(&mut self, number: A) {
        combine_with_scalar(self, number, Minus);
    }
}

/// `array - &other` is `array` with the element of `other` at the same index subtracted from each element. `other` is
/// broadcast to the shape of `array`, which must be possible. It takes no memory: the storage of `array` is written.
/// ndarray has the same operator.
impl<'a, A: Arithmetic, S: DataMut<Elem = A>, D: Dimension, Z: Data<Elem = A>, E: Dimension> Sub<
    &'a ArrayBase<Z, E>,
> for ArrayBase<S, D> {
    type Output = ArrayBase<S, D>;

    ghost can_sub = { λ a b. CanMeet a b.now };

    ghost sub_gives = { λ a b c. BecomesBoth S.frame A.minus a b.now c };

    fn sub(self, other: &'a ArrayBase<Z, E>) -> ArrayBase<S, D> {
        with_each(self, other, Minus)
    }
}

/// `array - number` is the array with the number subtracted from each element. It takes no memory: the array's storage
/// is written. ndarray has the same operator.
impl<A: Arithmetic, S: DataMut<Elem = A>, D: Dimension> Sub<A> for ArrayBase<S, D> {
    type Output = ArrayBase<S, D>;

    ghost sub_gives = { λ a x c. BecomesEach S.frame (λ y. A.minus y x) a c };

    fn sub(self, number: A) -> ArrayBase<S, D> {
        with_scalar(self, number, Minus)
    }
}

/// `(&array - &other)?` is a new array with the difference of both elements at each index. `other` is broadcast to the
/// shape of `array`, which must be possible. The allocator is that of `array`, which owns its elements. Fails with
/// `NoMemory` if the storage is refused. ndarray's operator returns the new array itself, and no `Result`.
impl<'a, 'b, A: Arithmetic, D: Dimension, Z: Data<Elem = A>, E: Dimension> Sub<&'b ArrayBase<Z, E>>
    for &'a ArrayBase<OwnedRepr<A>, D> {
    type Output = Result<Array<A, D>, NoMemory>;

    ghost can_sub = { λ a b. CanMeet a.now b.now };

    ghost sub_gives = { λ a b r. IfOk r (IsOfBoth A.minus a.now b.now) × OnErr r (0 < size_of (shape_of a.now)) };

    fn sub(self, other: &'b ArrayBase<Z, E>) -> Result<Array<A, D>, NoMemory> {
        combined(*self.storage.items.allocator(), self, other, Minus)
    }
}
