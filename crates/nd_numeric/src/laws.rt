//! Laws for callers. Nothing here runs: each law is the contract of a function.

ghost use Rattle.std.specs.Prelude.{◌≡◌, ◌<◌, length};
ghost use Rattle.nd_shape_and_slice.specs.LayoutIndexMaps.{indexed_shape};
ghost use Rattle.nd_array_core.specs.ArrayMeaning.{shape_of};
ghost use Rattle.nd_numeric.specs.ElementwiseArithmetic.{CanMeet};
ghost use Rattle.nd_numeric.specs.SumsProductsAndMeans.{ListsFromFirst, SpreadsOverLanes};

use nd_array_core::laws::shape_is_checked;
use nd_array_core::{ArrayBase, Data};
use nd_shape_and_slice::{Dimension, Ix1};

/// States that `lanes`, which has one element for each lane of the first axis of `array` as `sum_axis` and `mean_axis`
/// return it, can be broadcast to the shape of `array`, and then has at each index the element for the lane there; for
/// a table this is the element of the column. It is called before `div` or `sub` with the sums or means of columns.
pub fn lanes_broadcast<S: Data, D: Dimension, Z: Data, E: Dimension>(
    array: &ArrayBase<S, D>,
    lanes: &ArrayBase<Z, E>,
)
    requires some { 0 < length (shape_of array.now) }
    requires shape { shape_of lanes.now ≡ indexed_shape (shape_of array.now) 0 }
    ensures broadcasts { CanMeet array.now lanes.now }
    ensures elements { SpreadsOverLanes array.now lanes.now }
{
    shape_is_checked(array);
}

/// States that the elements of an array of one axis in row-major order are those at 0, at 1 and so on. It is called by a
/// caller of `sum` or `mean` whose contract says the result number by number.
pub fn list_in_order<S: Data>(list: &ArrayBase<S, Ix1>)
    ensures { ListsFromFirst list.now }
{}
