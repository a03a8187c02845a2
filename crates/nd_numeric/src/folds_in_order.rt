//! Folds of all elements in row-major order by an operation.

ghost use Rattle.std.specs.Prelude.{◌≡◌, IsTrue};
ghost use Rattle.std.specs.List.{reduce};
ghost use Rattle.nd_array_core.specs.ConcatenationAndSplit.{row_major_elements};
ghost use Rattle.nd_array_core.specs.ArrayMeaning.{meaning_of};
ghost use Rattle.nd_array_core.specs.elements.ElementFolds.{IsOrderFree};
ghost use Rattle.nd_numeric.specs.ElementwiseArithmetic.{CanMeet};
ghost use Rattle.nd_numeric.specs.SumsProductsAndMeans.{folded_with_other, folded_in_order};

use nd_array_core::laws::broadcast_to_itself;
use nd_array_core::{ArrayBase, Data};
use nd_iter::iter;
use nd_numbers::Operation;
use nd_shape_and_slice::Dimension;

/// Returns the fold of all elements of `array` by `operation`, from `init` on, in row-major order, next to the elements of
/// `other`, which are left aside. `other` is broadcast to the shape of `array`, which must be possible.
fn fold_pairs_in_order<
    O: Operation<B, A>,
    B: Drop,
    A,
    C,
    S: Data<Elem = A>,
    D: Dimension,
    Z: Data<Elem = C>,
>(array: &ArrayBase<S, D>, other: &ArrayBase<Z, D>, operation: O, init: B) -> B
    requires { CanMeet array.now other.now }
    ensures { result ≡ folded_with_other (O.gives operation) init array.now other.now }
{
    array.zip_fold(
        other,
        init,
        |total: B, x: &A, _: &C| operation.apply(&total, x),
    )
}

/// Says that an array can be broadcast to its own shape.
fn meets_itself<S: Data, D: Dimension>(array: &ArrayBase<S, D>)
    ensures { CanMeet array.now array.now }
{
    broadcast_to_itself(array);
}

/// Returns the fold of all elements by an operation, from `init` on: it is applied to what there is so far and each
/// element in turn, in row-major order, whatever the layout. For elements of which only `Arithmetic` is known,
/// `fold_in_order(array, Plus, A::zero())` is their sum. With ndarray it is written with `iter().fold`.
pub fn fold_in_order<O: Operation<B, A>, B: Drop, A, S: Data<Elem = A>, D: Dimension>(
    array: &ArrayBase<S, D>,
    operation: O,
    init: B,
) -> B
    ensures { result ≡ folded_in_order (O.gives operation) init array.now }
{
    // `zip_fold` goes along one lane after another; an iterator would ask before each element whether its lane goes on.
    meets_itself(array);
    broadcast_to_itself(array);
    fold_pairs_in_order(array, array, operation, init)
}

/// Returns the fold of all elements by `operation`, from `init` on, in an order that is free. The order of two elements
/// must not matter to the operation.
pub(crate) fn fold_in_any_order<O: Operation<B, A>, B: Drop, A, S: Data<Elem = A>, D: Dimension>(
    array: &ArrayBase<S, D>,
    operation: O,
    init: B,
) -> B
    requires { IsOrderFree (O.gives operation) }
    ensures { result ≡ folded_in_order (O.gives operation) init array.now }
{
    array.fold(init, |total: B, x: &A| operation.apply(&total, x))
}

/// Returns the fold of all elements by `operation`, from `init` on, as it is in row-major order. If `is_free` is true, the
/// order of two elements must not matter to the operation, and the elements are taken as they lie in memory.
pub(crate) fn fold_all<O: Operation<B, A>, B: Drop, A, S: Data<Elem = A>, D: Dimension>(
    array: &ArrayBase<S, D>,
    operation: O,
    init: B,
    is_free: bool,
) -> B
    requires { IsTrue is_free → IsOrderFree (O.gives operation) }
    ensures { result ≡ folded_in_order (O.gives operation) init array.now }
{
    if is_free {
        return fold_in_any_order(array, operation, init);
    }
    fold_in_order(array, operation, init)
}

/// Returns what is left when an operation picks one of two elements, from the first one on in row-major order, or `None`
/// if there are no elements. Of an element and itself it must pick that element. If `is_free` is true, the order of two
/// elements must not matter to the operation, and the elements are taken as they lie in memory.
#[tactic(auto, using(nd_array_core::proofs::AxesOfDimensionTypes::known_axes, crate::proofs::FoldOfSelfPairs::from_first))]
pub(crate) fn fold_from_first<O: Operation<A, A>, A: Copy + Drop, S: Data<Elem = A>, D: Dimension>(
    array: &ArrayBase<S, D>,
    operation: O,
    is_free: bool,
) -> Option<A>
    requires itself { (x : A) → O.gives operation x x ≡ x }
    requires free { IsTrue is_free → IsOrderFree (O.gives operation) }
    ensures { result ≡ reduce (O.gives operation) (row_major_elements (meaning_of array.now)) }
{
    let mut elements = iter(array);
    match elements.next() {
        Some(first) => Some(fold_all(array, operation, *first, is_free)),
        None => None,
    }
}
