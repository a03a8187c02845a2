//! Making arrays of given elements, elements that have numbers, and slices as items of lists.

ghost use Rattle.std.specs.Prelude.{◌≡◌, IfOk};
ghost use Rattle.nd_array_core.specs.ArrayMeaning.{shape_of};

use nd_array_core::Array;
use nd_shape_and_slice::{Dimension, IntoStrideShape, SliceInfoElem};
use std::alloc::Global;
use std::test::Fail;

/// Returns `count` consecutive numbers, from `first` on.
pub fn numbers(alloc: Global, first: u64, count: u64) -> Result<Vec<u64>, Fail> {
    let mut items = Vec::new(alloc);
    for number in 0..count {
        items.push(first.saturating_add(number))?;
    }
    Ok(items)
}

/// Returns the array of the shape `shape` with these items as its elements. Fails if the number of items isn't the size
/// of the shape.
pub fn array_of<A: Drop, D: Dimension, Sh: IntoStrideShape<Dim = D>>(
    shape: Sh,
    items: Vec<A>,
) -> Result<Array<A, D>, Fail>
    ensures { IfOk result (λ array. shape_of array ≡ Sh.lengths_meant shape) }
{
    match Array::from_shape_vec(shape, items) {
        Ok(array) => Ok(array),
        Err(_) => Err("shape".into()),
    }
}

/// An element that has a number, by which it is compared.
pub trait NumberedElement {
    /// Returns the element's number.
    fn number(&self) -> u64;
}

impl NumberedElement for u64 {
    fn number(&self) -> u64 {
        *self
    }
}

/// Returns the slice of one axis with this start, end and step, as an item of a list of slices.
pub fn part(start: isize, end: Option<isize>, step: isize) -> SliceInfoElem {
    SliceInfoElem::Slice { start, end, step }
}
