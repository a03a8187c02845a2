//! Callers of the products. They need no proof files of their own.

ghost use Rattle.std.specs.Prelude.{◌≡◌, IfOk, IfSome, Some, slice_index};
ghost use Rattle.nd_array_core.specs.ArrayMeaning.{meaning_of, shape_of};
ghost use Rattle.tests_nd_iter_stacking_linalg_and_numeric.specs.WrappingProducts.{wrapping_dot, IsWrappingImage, IsWrappingProduct};

use nd_array_core::laws::shape_is_checked;
use nd_array_core::{Array1, Array2, ArrayBase, Data};
use nd_linalg::{dot, matrix_dot, matrix_dot_vector};
use nd_shape_and_slice::{Ix1, Ix2, NoMemory};
use std::alloc::Global;

/// Returns the squared length of a vector, in arithmetic that wraps.
pub fn squared_length<S: Data<Elem = i64>>(vector: &ArrayBase<S, Ix1>) -> i64
    ensures { Some result ≡ wrapping_dot (meaning_of vector.now) (meaning_of vector.now) }
{
    dot(vector, vector)
}

/// Returns the product of a matrix and a vector, or `None` if the vector isn't as long as the matrix has columns.
pub fn image_of<S: Data<Elem = i64>, Z: Data<Elem = i64>>(
    alloc: Global,
    matrix: &ArrayBase<S, Ix2>,
    vector: &ArrayBase<Z, Ix1>,
) -> Option<Result<Array1<i64>, NoMemory>>
    ensures { IfSome result (λ made. IfOk made (λ image. IsWrappingImage (meaning_of matrix.now) (meaning_of vector.now) (meaning_of image))) }
{
    let (_rows, columns) = matrix.dim();
    if vector.dim() != columns {
        return None;
    }
    Some(matrix_dot_vector(alloc, matrix, vector))
}

/// Returns the product of a square matrix with itself.
pub fn squared<S: Data<Elem = i64>>(
    alloc: Global,
    matrix: &ArrayBase<S, Ix2>,
) -> Result<Array2<i64>, NoMemory>
    requires { slice_index (shape_of matrix.now) 0 ≡ slice_index (shape_of matrix.now) 1 }
    ensures shape { IfOk result (λ square. shape_of square ≡ shape_of matrix.now) }
    ensures sums { IfOk result (λ square. IsWrappingProduct (meaning_of matrix.now) (meaning_of matrix.now) (meaning_of square)) }
{
    let (_rows, _columns) = matrix.dim();
    shape_is_checked(matrix);
    matrix_dot(alloc, matrix, matrix)
}
