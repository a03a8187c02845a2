//! Making arrays for a test, and comparing arrays with what the test expects. None of these functions returns a `Fail`,
//! since each `?` makes a test more expensive to prove, and a function of a library can't end the test itself.

ghost use Rattle.std.specs.Prelude.{◌≡◌, IfSome};
ghost use Rattle.nd_array_core.specs.ArrayMeaning.{shape_of};

use crate::array_and_slice_makers::NumberedElement;
use nd_array_core::{Array, ArrayBase, Data};
use nd_shape_and_slice::{Dimension, IntoStrideShape, Ix1, NdIndex};
use std::alloc::Global;

/// Returns the array of the shape `shape` with these numbers as its elements. Returns `None` if memory is refused, or
/// the number of items isn't the size of the shape.
pub fn made<D: Dimension, Sh: IntoStrideShape<Dim = D> + Drop>(
    alloc: Global,
    shape: Sh,
    items: &[u64],
) -> Option<Array<u64, D>>
    ensures { IfSome result (λ array. shape_of array ≡ Sh.lengths_meant shape) }
{
    let items = Vec::from_slice(alloc, items).ok()?;
    match Array::from_shape_vec(shape, items) {
        Ok(array) => Some(array),
        Err(_) => None,
    }
}

/// Returns whether a table has the shape `shape`, and its elements in row-major order have the numbers `wanted`.
pub fn shows<A: NumberedElement, S: Data<Elem = A>, D: Dimension>(
    array: &ArrayBase<S, D>,
    shape: [usize; 2],
    wanted: &[u64],
) -> bool
where
    [usize; 2]: NdIndex<D>,
{
    let [rows, columns] = shape;
    let mut count = 0usize;
    for row in 0..rows {
        for column in 0..columns {
            let number = match array.get([row, column]) {
                Some(element) => Some(element.number()),
                None => None,
            };
            if number != wanted.get(count).copied() {
                return false;
            }
            count = count.saturating_add(1);
        }
    }
    array.shape() == shape.as_slice() && count == wanted.len()
}

/// Returns whether the elements of an array with one axis have the numbers `wanted`, in this order.
pub fn lists<A: NumberedElement, S: Data<Elem = A>>(
    array: &ArrayBase<S, Ix1>,
    wanted: &[u64],
) -> bool {
    for k in 0..array.len() {
        let number = match array.get(k) {
            Some(element) => Some(element.number()),
            None => None,
        };
        if number != wanted.get(k).copied() {
            return false;
        }
    }
    array.len() == wanted.len()
}

/// Returns whether the array's storage, as `into_raw_vec` returns it, is `wanted`.
pub fn stores<D: Dimension>(array: Array<u64, D>, wanted: &[u64]) -> bool {
    array.into_raw_vec().as_slice() == wanted
}
