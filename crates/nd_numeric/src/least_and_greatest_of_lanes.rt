//! The least and the greatest element of each lane of an axis.

ghost use Rattle.std.specs.Prelude.{◌≡◌, ◌<◌, IfOk, OnErr, length};
ghost use Rattle.nd_shape_and_slice.specs.ShapesAndIndexOrders.{size_of};
ghost use Rattle.nd_shape_and_slice.specs.LayoutIndexMaps.{indexed_shape};
ghost use Rattle.nd_array_core.specs.ArrayMeaning.{shape_of, element_at};
ghost use Rattle.nd_numeric.specs.LeastAndGreatest.{lesser_by, greater_by, end_so_far, AreLaneEnds};

use crate::least_and_greatest::{Greatest, Least, greater, lesser};
use crate::sums_of_lanes::fold_lanes;
use nd_array_core::{Array, ArrayBase, Data};
use nd_numbers::{Operation, Ordered};
use nd_shape_and_slice::{Axis, NoMemory, RemoveAxis};
use std::alloc::Global;

impl<A: Ordered> Operation<Option<A>, A> for Least {
    ghost gives = { λ operation least x. end_so_far (lesser_by A.order) least x };

    fn apply(&self, least: &Option<A>, x: &A) -> Option<A> {
        match *least {
            Some(y) => Some(lesser(y, x)),
            None => Some(*x),
        }
    }
}

impl<A: Ordered> Operation<Option<A>, A> for Greatest {
    ghost gives = { λ operation greatest x. end_so_far (greater_by A.order) greatest x };

    fn apply(&self, greatest: &Option<A>, x: &A) -> Option<A> {
        match *greatest {
            Some(y) => Some(greater(y, x)),
            None => Some(*x),
        }
    }
}

/// Returns the least element of each lane of an axis, as `min` returns it: of equal elements the first, and `None` for
/// an empty lane. The result doesn't have this axis, and `axis` must be below `ndim`. Fails with `NoMemory` if storage
/// is refused; a result without elements asks for none. With ndarray it is written with `map_axis`.
pub fn min_axis<A: Ordered, S: Data<Elem = A>, D: RemoveAxis>(
    alloc: Global,
    array: &ArrayBase<S, D>,
    axis: Axis,
) -> Result<Array<Option<A>, D::Smaller>, NoMemory>
    requires axis { axis.0 < length (shape_of array.now) }
    ensures shape { IfOk result (λ a. shape_of a ≡ indexed_shape (shape_of array.now) axis.0) }
    ensures least { IfOk result (λ a. AreLaneEnds (lesser_by A.order) array.now axis.0 (element_at a)) }
    ensures refused { OnErr result (0 < size_of (indexed_shape (shape_of array.now) axis.0)) }
{
    fold_lanes(alloc, array, axis, Least, None)
}

/// Returns the greatest element of each lane of an axis, as `max` returns it: of equal elements the first, and `None`
/// for an empty lane. The result doesn't have this axis, and `axis` must be below `ndim`. Fails with `NoMemory` if
/// storage is refused; a result without elements asks for none. With ndarray it is written with `map_axis`.
pub fn max_axis<A: Ordered, S: Data<Elem = A>, D: RemoveAxis>(
    alloc: Global,
    array: &ArrayBase<S, D>,
    axis: Axis,
) -> Result<Array<Option<A>, D::Smaller>, NoMemory>
    requires axis { axis.0 < length (shape_of array.now) }
    ensures shape { IfOk result (λ a. shape_of a ≡ indexed_shape (shape_of array.now) axis.0) }
    ensures greatest { IfOk result (λ a. AreLaneEnds (greater_by A.order) array.now axis.0 (element_at a)) }
    ensures refused { OnErr result (0 < size_of (indexed_shape (shape_of array.now) axis.0)) }
{
    fold_lanes(alloc, array, axis, Greatest, None)
}
