//! Tables: the outer product of two vectors, and the trace of a table.

ghost use Rattle.std.specs.Prelude.{◌≡◌, ◌<◌, ℕ, List, IfOk, IsSome, IsTrue, OnErr};
ghost use Rattle.std.specs.List.{fold};
ghost use Rattle.nd_shape_and_slice.specs.ShapesAndIndexOrders.{HasCheckedSize, in_box, size_of};
ghost use Rattle.nd_array_core.specs.ArrayMeaning.{element_at, shape_of};
ghost use Rattle.nd_numeric.specs.ElementwiseArithmetic.{CanMeet};
ghost use Rattle.nd_numeric.specs.SumsProductsAndMeans.{diagonal_elements, outer_shape, HasOuterProducts, MeetInCells};

use nd_array_core::arithmetic::combined;
use nd_array_core::laws::elements_by_rank;
use nd_array_core::{Array, Array2, ArrayBase, ArrayView, Data};
use nd_numbers::{Arithmetic, Times};
use nd_shape_and_slice::{Dimension, Ix1, Ix2, NoMemory};
use std::alloc::Global;

/// States that an array has an element at each index inside its shape.
fn has_elements<S: Data, D: Dimension>(array: &ArrayBase<S, D>)
    ensures { (i : List ℕ) → IsTrue (in_box (shape_of array.now) i) → IsSome (element_at array.now i) }
{
    elements_by_rank(array);
}

/// Returns a view of a table that has as many columns as `other` has elements, each of which consists of the elements of
/// `one`. The size of the table must not overflow.
fn columns_of<'a, A, S: Data<Elem = A>, Z: Data<Elem = A>>(
    one: &'a ArrayBase<S, Ix1>,
    other: &ArrayBase<Z, Ix1>,
) -> ArrayView<'a, A, Ix2>
    requires checked { HasCheckedSize (outer_shape (shape_of one.now) (shape_of other.now)) }
    ensures shape { shape_of result ≡ outer_shape (shape_of one.now) (shape_of other.now) }
    ensures meets { CanMeet result other.now }
    ensures cells { (h : A → A → A) (x : A) → MeetInCells h x one.now other.now result }
{
    has_elements(one);
    has_elements(other);
    match one.broadcast((other.len(), one.len())) {
        Some(rows) => rows.reversed_axes(),
        None => unreachable!(),
    }
}

/// Returns the outer product of two vectors: the table that has at each row and column the product of the element of
/// `one` at the row and the element of `other` at the column. The size of the table must not overflow. Fails with
/// `NoMemory` if storage is refused; a table without elements asks for none. With ndarray it is written with a
/// broadcast.
pub fn outer<A: Arithmetic, S: Data<Elem = A>, Z: Data<Elem = A>>(
    alloc: Global,
    one: &ArrayBase<S, Ix1>,
    other: &ArrayBase<Z, Ix1>,
) -> Result<Array2<A>, NoMemory>
    requires checked { HasCheckedSize (outer_shape (shape_of one.now) (shape_of other.now)) }
    ensures shape { IfOk result (λ table. shape_of table ≡ outer_shape (shape_of one.now) (shape_of other.now)) }
    ensures products { IfOk result (HasOuterProducts A.times A.zero one.now other.now) }
    ensures refused { OnErr result (0 < size_of (outer_shape (shape_of one.now) (shape_of other.now))) }
{
    combined(alloc, &columns_of(one, other), other, Times)
}

/// Returns the sum of the elements of a table whose two coordinates are equal. They are added to 0 one after another,
/// from the first row on. This is ndarray's `diag().sum()`.
pub fn trace<A: Arithmetic, S: Data<Elem = A>>(table: &ArrayBase<S, Ix2>) -> A
    ensures { result ≡ fold A.plus A.zero (diagonal_elements table.now) }
{
    let (rows, columns) = table.dim();
    let count = rows.min(columns);
    let mut total = A::zero();
    for k in 0..count {
        total = total.plus(table[[k, k]]);
    }
    total
}
