//! The product of two matrices.

ghost use Rattle.std.specs.Prelude.{◌≡◌, ◌<◌, ◌+◌, ◌*◌, ℕ, ◌∷◌, [], IfOk, OnErr, length, slice_index};
ghost use Rattle.nd_shape_and_slice.specs.ShapesAndIndexOrders.{HasCheckedSize, size_of};
ghost use Rattle.nd_array_core.specs.ArrayMeaning.{meaning_of, shape_of};
ghost use Rattle.nd_array_core.specs.ElementsByCoordinates.{element_of_2, HasRowsAndColumns};
ghost use Rattle.nd_linalg.specs.DotAndMatrixProducts.{product_shape, row_cell, IsProduct};

use crate::elements_as_slice::cells_of;
use crate::sums_of_products::product_of;
use nd_array_core::laws::elements_by_rank;
use nd_array_core::{Array2, ArrayBase, Data};
use nd_numbers::Arithmetic;
use nd_shape_and_slice::{Ix2, NoMemory, size_of_shape_checked};
use std::alloc::Global;

/// Returns the matrix with `rows` rows and `columns` columns whose elements in row-major order are `cells`.
fn of_cells<A: Arithmetic>(cells: Vec<A>, rows: usize, columns: usize) -> Array2<A>
    requires checked { HasCheckedSize (rows ∷ columns ∷ []) }
    requires count { length cells.items ≡ rows * columns }
    ensures shape { HasRowsAndColumns result rows columns }
    ensures elements { (i j : ℕ) → i < rows → j < columns → element_of_2 result i j ≡ row_cell cells.items columns i j }
{
    match Array2::from_shape_vec((rows, columns), cells) {
        Ok(matrix) => matrix,
        Err(_) => unreachable!(),
    }
}

/// Returns the product of the matrices `a` and `b`. Its element at i and j is the sum of the products of the elements
/// of row i of `a` and column j of `b`, added up from the first on. `b` must have as many rows as `a` has columns, and
/// the size of the product must not overflow. Fails with `NoMemory` if storage is refused; a product without elements
/// asks for none. This is ndarray's `dot` of two matrices.
pub fn matrix_dot<A: Arithmetic, S: Data<Elem = A>, Z: Data<Elem = A>>(
    alloc: Global,
    a: &ArrayBase<S, Ix2>,
    b: &ArrayBase<Z, Ix2>,
) -> Result<Array2<A>, NoMemory>
    requires fits { slice_index (shape_of b.now) 0 ≡ slice_index (shape_of a.now) 1 }
    requires checked { HasCheckedSize (product_shape (shape_of a.now) (shape_of b.now)) }
    ensures shape { IfOk result (λ p. shape_of p ≡ product_shape (shape_of a.now) (shape_of b.now)) }
    ensures sums { IfOk result (λ p. IsProduct A.plus A.times A.zero (meaning_of a.now) (meaning_of b.now) (meaning_of p)) }
    ensures refused { OnErr result (0 < size_of (product_shape (shape_of a.now) (shape_of b.now))) }
{
    let (rows, inner) = a.dim();
    let (_same, columns) = b.dim();
    elements_by_rank(a);
    elements_by_rank(b);
    let size = match size_of_shape_checked(&[rows, columns]) {
        Ok(size) => size,
        Err(_) => unreachable!(),
    };
    if size == 0 {
        return Ok(of_cells(Vec::new(alloc), rows, columns));
    }
    let one = cells_of(alloc, a)?;
    let other = cells_of(alloc, b)?;
    let cells = product_of(alloc, one.slice(), other.slice(), rows, inner, columns)?;
    Ok(of_cells(cells, rows, columns))
}
