//! What tests of this crate share beside `nd_test_arrays`. Each function that makes an array returns `None` if memory is
//! refused, or the numbers don't fit the shape.

ghost use Rattle.std.specs.Prelude.{◌≡◌, ◌<◌, ◌∷◌, [], IsTrue, IfSome};
ghost use Rattle.nd_array_core.specs.ArrayMeaning.{shape_of};

use nd_array_core::{Array1, Array2};
use nd_shape_and_slice::{Axis, ShapeBuilder};
use nd_test_arrays::{made, table};
use std::alloc::Global;

/// Returns the table of this shape that is stored in column-major order as these numbers.
pub fn by_columns(alloc: Global, shape: (usize, usize), numbers: &[u64]) -> Option<Array2<u64>>
    ensures { IfSome result (λ table. shape_of table ≡ shape.0 ∷ shape.1 ∷ []) }
{
    made(alloc, shape.f(), numbers)
}

/// Returns the table of this shape and these numbers with one of its axes in the opposite order.
#[tactic(auto, using(nd_array_core::proofs::AxesOfDimensionTypes::known_axes))]
pub fn inverted(
    alloc: Global,
    shape: (usize, usize),
    axis: Axis,
    numbers: &[u64],
) -> Option<Array2<u64>>
    requires { axis.0 < 2 }
    ensures { IfSome result (λ table. shape_of table ≡ shape.0 ∷ shape.1 ∷ []) }
{
    let Some(mut array) = table(alloc, shape, numbers) else {
        return None;
    };
    array.invert_axis(axis);
    Some(array)
}

/// Returns whether a table has two rows and three columns.
pub fn is_two_by_three(table: &Array2<u64>) -> bool
    ensures { IsTrue result → shape_of table.now ≡ 2 ∷ 3 ∷ [] }
{
    let (rows, columns) = table.dim();
    rows == 2 && columns == 3
}

/// Returns whether a table is stored in a vector of these numbers, and its first element is at the position `first`.
pub fn lies_in(array: Array2<u64>, numbers: &[u64], first: Option<usize>) -> bool {
    let (items, offset) = array.into_raw_vec_and_offset();
    items.as_slice() == numbers && offset == first
}

/// Returns whether a list is stored in a vector of these numbers, and its first element is at the position `first`.
pub fn list_lies_in(list: Array1<u64>, numbers: &[u64], first: Option<usize>) -> bool {
    let (items, offset) = list.into_raw_vec_and_offset();
    items.as_slice() == numbers && offset == first
}
