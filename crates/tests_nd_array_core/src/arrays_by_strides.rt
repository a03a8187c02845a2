//! What tests of this crate share beside `nd_test_arrays`: making arrays by lengths and strides, and comparing them.
//! Each function here has fixed types, since a generic call is proved again in each function that has it, and a call of
//! a function without type parameters isn't.

ghost use Rattle.std.specs.Prelude.{◌≡◌, ◌∷◌, [], IfSome};
ghost use Rattle.nd_array_core.specs.ArrayMeaning.{shape_of};

use nd_array_core::{Array, Array2, Array3, ArrayD, ArrayView, ArrayViewD};
use nd_shape_and_slice::{ErrorKind, IxDyn, MAX_AXES, ShapeBuilder, StrideShape};
use nd_test_arrays::{is_table, made, table};
use std::alloc::Global;

/// The lengths of an array, as many strides, and what it is stored as.
pub type Laid = (&'static [usize], &'static [isize], &'static [u64]);

/// Returns the table 1 2 3 / 4 5 6.
pub fn one_to_six(alloc: Global) -> Option<Array2<u64>>
    ensures { IfSome result (λ table. shape_of table ≡ 2 ∷ 3 ∷ []) }
{
    table(alloc, (2, 3), &[1, 2, 3, 4, 5, 6])
}

/// Returns the array of the shape (3, 2, 4) with these numbers in column-major order.
pub fn box_by_columns(alloc: Global, items: &[u64]) -> Option<Array3<u64>> {
    made(alloc, (3, 2, 4).f(), items)
}

// Returns a shape with strides, or `None` if they aren't as many as the lengths.
fn strided(lengths: &[usize], strides: &[isize]) -> Option<StrideShape<IxDyn>> {
    if lengths.len() > MAX_AXES || strides.len() != lengths.len() {
        return None;
    }
    Some(IxDyn::new(lengths).strides(strides))
}

/// Returns the view of these elements with these lengths and strides, or the error with which it is refused. That is
/// `RangeLimited`, which `from_shape` never returns, if there aren't as many strides as lengths.
pub fn seen<'a>(
    lengths: &[usize],
    strides: &[isize],
    items: &'a [u64],
) -> Result<ArrayViewD<'a, u64>, ErrorKind> {
    match strided(lengths, strides) {
        Some(shape) => match ArrayView::from_shape(shape, items) {
            Ok(view) => Ok(view),
            Err(error) => Err(error.kind()),
        },
        None => Err(ErrorKind::RangeLimited),
    }
}

/// Returns the array that lies so, or the error with which it is refused. That is `RangeLimited`, which `from_shape_vec`
/// never returns, if there aren't as many strides as lengths, or memory is refused.
pub fn owned(alloc: Global, laid: &Laid) -> Result<ArrayD<u64>, ErrorKind> {
    let Ok(items) = Vec::from_slice(alloc, laid.2) else {
        return Err(ErrorKind::RangeLimited);
    };
    match strided(laid.0, laid.1) {
        Some(shape) => match Array::from_shape_vec(shape, items) {
            Ok(array) => Ok(array),
            Err(error) => Err(error.kind()),
        },
        None => Err(ErrorKind::RangeLimited),
    }
}

/// Returns whether a view has these lengths, these strides and, in row-major order, these elements.
pub fn lies_so(
    alloc: Global,
    view: &ArrayViewD<'_, u64>,
    lengths: &[usize],
    strides: &[isize],
    wanted: &[u64],
) -> bool {
    view.shape() == lengths
        && view.strides() == strides
        && match view.to_vec(alloc) {
            Ok(items) => items.as_slice() == wanted,
            Err(_) => false,
        }
}

/// Returns whether a table has these strides, this shape, and these numbers in row-major order.
pub fn lies(table: &Array2<u64>, strides: [isize; 2], shape: [usize; 2], wanted: &[u64]) -> bool {
    table.strides() == strides.as_slice() && is_table(table, shape, wanted)
}
