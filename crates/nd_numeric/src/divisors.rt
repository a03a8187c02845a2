//! Whether an array's elements are allowed as divisors.

ghost use Rattle.std.specs.Prelude.{◌&&◌, Bool, IsTrue};
ghost use Rattle.nd_array_core.specs.ArrayMeaning.{element_at};
ghost use Rattle.nd_array_core.specs.elements.ElementFolds.{IsOrderFree};
ghost use Rattle.nd_numeric.specs.ElementwiseArithmetic.{EachIsDivisor};

use crate::folds_in_order::fold_in_any_order;
use nd_array_core::laws::{elements_by_rank, nothing_outside};
use nd_array_core::{ArrayBase, Data};
use nd_numbers::{Arithmetic, Operation};
use nd_shape_and_slice::Dimension;

/// The operation that returns whether the left side is true and the right number is allowed as a divisor.
#[derive(Drop)]
struct AndDivides;

impl<A: Arithmetic> Operation<bool, A> for AndDivides {
    ghost gives = { λ operation all x. all && A.is_divisor x };

    #[inline]
    fn apply(&self, all: &bool, x: &A) -> bool {
        *all && x.is_divisor()
    }
}

/// States that it doesn't matter in which order numbers are tested.
fn order_is_free<A: Arithmetic>()
    ensures { IsOrderFree (λ (all : Bool) (x : A). all && A.is_divisor x) }
{}

/// Returns whether each element is allowed as a divisor: an integer if it isn't 0, and any float. It is true exactly if
/// the array meets the condition of `div`, `/` and `/=` on their right side. It asks for no memory. ndarray has no
/// such call: its division panics.
pub fn are_divisors<A: Arithmetic, S: Data<Elem = A>, D: Dimension>(array: &ArrayBase<S, D>) -> bool
    ensures each { IsTrue result → EachIsDivisor A.is_divisor (element_at array.now) }
    ensures all { EachIsDivisor A.is_divisor (element_at array.now) → IsTrue result }
{
    elements_by_rank(array);
    nothing_outside(array);
    order_is_free::<A>();
    fold_in_any_order(array, AndDivides, true)
}
