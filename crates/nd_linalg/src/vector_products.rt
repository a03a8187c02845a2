//! Products of a vector with a vector or a matrix.

ghost use Rattle.std.specs.Prelude.{◌≡◌, ◌<◌, ℕ, Some, IfOk, OnErr, length, slice_get, slice_index};
ghost use Rattle.nd_array_core.specs.ArrayMeaning.{meaning_of, shape_of};
ghost use Rattle.nd_array_core.specs.ElementsByCoordinates.{element_of_1, HasLength};
ghost use Rattle.nd_linalg.specs.DotAndMatrixProducts.{vector_by_vector, IsImage};

use crate::elements_as_slice::cells_of;
use crate::sums_of_products::{rows_by_list, sum_along};
use nd_array_core::laws::elements_by_rank;
use nd_array_core::{Array1, ArrayBase, Data};
use nd_numbers::Arithmetic;
use nd_shape_and_slice::{Ix1, Ix2, NoMemory};
use std::alloc::Global;

/// Returns the sum of the products of two vectors' elements, which are read by their indexes.
fn dot_by_index<A: Arithmetic, S: Data<Elem = A>, Z: Data<Elem = A>>(
    left: &ArrayBase<S, Ix1>,
    right: &ArrayBase<Z, Ix1>,
) -> A
    requires { slice_index (shape_of right.now) 0 ≡ slice_index (shape_of left.now) 0 }
    ensures { Some result ≡ vector_by_vector A.plus A.times A.zero (meaning_of left.now) (meaning_of right.now) }
{
    let count = left.dim();
    let _same = right.dim();
    let mut sum = A::zero();
    for k in 0..count {
        sum = sum.add_product(left[k], right[k]);
    }
    sum
}

/// Returns the sum of the products of two vectors' elements, added up from the first on. The vectors must have the same
/// length. This is ndarray's `dot` of two vectors.
pub fn dot<A: Arithmetic, S: Data<Elem = A>, Z: Data<Elem = A>>(
    left: &ArrayBase<S, Ix1>,
    right: &ArrayBase<Z, Ix1>,
) -> A
    requires { slice_index (shape_of right.now) 0 ≡ slice_index (shape_of left.now) 0 }
    ensures { Some result ≡ vector_by_vector A.plus A.times A.zero (meaning_of left.now) (meaning_of right.now) }
{
    let _count = left.dim();
    let _same = right.dim();
    elements_by_rank(left);
    elements_by_rank(right);
    match left.as_slice() {
        Some(xs) => match right.as_slice() {
            Some(ys) => sum_along(xs, 0, ys),
            None => dot_by_index(left, right),
        },
        None => dot_by_index(left, right),
    }
}

/// Returns the vector whose elements are `items`.
fn of_items<A>(items: Vec<A>) -> Array1<A>
    ensures shape { HasLength result (length items.items) }
    ensures elements { (i : ℕ) → i < length items.items → element_of_1 result i ≡ slice_get items.items i }
{
    Array1::from_vec(items)
}

/// Returns the product of the matrix `a` and the vector `x`. Its element at i is the sum of the products of the
/// elements of row i of `a` and of `x`, added up from the first on. `x` must be as long as `a` has columns. Fails with
/// `NoMemory` if storage is refused; a matrix without rows asks for none. This is ndarray's `dot` of a matrix and a
/// vector.
pub fn matrix_dot_vector<A: Arithmetic, S: Data<Elem = A>, Z: Data<Elem = A>>(
    alloc: Global,
    a: &ArrayBase<S, Ix2>,
    x: &ArrayBase<Z, Ix1>,
) -> Result<Array1<A>, NoMemory>
    requires { slice_index (shape_of x.now) 0 ≡ slice_index (shape_of a.now) 1 }
    ensures shape { IfOk result (λ sums. HasLength sums (slice_index (shape_of a.now) 0)) }
    ensures sums { IfOk result (λ p. IsImage A.plus A.times A.zero (meaning_of a.now) (meaning_of x.now) (meaning_of p)) }
    ensures refused { OnErr result (0 < slice_index (shape_of a.now) 0) }
{
    let (rows, _columns) = a.dim();
    if rows == 0 {
        return Ok(of_items(Vec::new(alloc)));
    }
    let _same = x.dim();
    elements_by_rank(a);
    elements_by_rank(x);
    let cells = cells_of(alloc, a)?;
    let list = cells_of(alloc, x)?;
    let sums = rows_by_list(alloc, cells.slice(), rows, list.slice())?;
    Ok(of_items(sums))
}
