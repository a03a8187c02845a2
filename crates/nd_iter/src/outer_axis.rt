//! Iteration over the views at each coordinate of the first axis.

ghost use Rattle.std.specs.Prelude.{◌≡◌, ◌<◌, length};
ghost use Rattle.nd_array_core.specs.ArrayMeaning.{meaning_of, shape_of};
ghost use Rattle.nd_iter.specs.IteratedElements.{along_axis};

use crate::{AxisIter, axis_iter};
use nd_array_core::{ArrayBase, Data};
use nd_shape_and_slice::{Axis, RemoveAxis};

/// Returns an iterator over the views at each coordinate of the first axis, from the first on. They don't have this
/// axis, which must exist. This is ndarray's `outer_iter`.
pub fn outer_iter<A, S: Data<Elem = A>, D: RemoveAxis>(
    array: &ArrayBase<S, D>,
) -> AxisIter<'_, A, S, D>
    requires { 0 < length (shape_of array.now) }
    ensures { result ≡ along_axis (meaning_of array.now) 0 }
{
    axis_iter(array, Axis(0))
}
