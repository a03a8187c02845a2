//! Arrays with the sign of each element changed.

ghost use Rattle.std.specs.Prelude.{◌≡◌};
ghost use Rattle.nd_array_core.specs.arithmetic.ElementwiseArithmetic.{BecomesEach};

use crate::arithmetic::operations::negate;
use crate::base::array::ArrayBase;
use nd_elements::storage::DataMut;
use nd_numbers::Arithmetic;
use nd_shape_and_slice::Dimension;
use std::ops::Neg;

/// `-array` is the array with the sign of each element changed; unsigned integers wrap. It takes no memory: the array's
/// storage is written. ndarray has the same operator.
impl<A: Arithmetic, S: DataMut<Elem = A>, D: Dimension> Neg for ArrayBase<S, D> {
    type Output = ArrayBase<S, D>;

    ghost neg_gives = { λ a c. BecomesEach S.frame A.negated a c };

    fn neg(self) -> ArrayBase<S, D> {
        let mut array = self;
        negate(&mut array);
        array
    }
}
