//! A call that reserves capacity for more coordinates of an axis.

ghost use Rattle.std.specs.Prelude.{◌≡◌, None, IfOk, OnErr};
ghost use Rattle.nd_array_core.specs.growth.ReservedAlongAxis.{HasRoomAlong};
ghost use Rattle.nd_steps.specs.StepsAndWritesOnArrays.{RoomIsMade};

use crate::refusal_causes::Cause;
use nd_array_core::{Array, ArrayError};
use nd_shape_and_slice::{Axis, IxDyn};
use std::alloc::AllocError;

/// Reserves capacity for `additional` more coordinates of `axis`, or returns the first cause for which that is refused.
/// The array's shape and elements stay. Fails with `AllocError` if memory is refused.
pub fn make_room<A>(
    array: &mut Array<A, IxDyn>,
    axis: usize,
    additional: usize,
) -> Result<Option<Cause>, AllocError>
    ensures made { RoomIsMade axis additional array.old array.new result }
    ensures room { IfOk result (λ refused. refused ≡ None → HasRoomAlong axis additional array.new) }
    ensures enough { OnErr result (¬ HasRoomAlong axis additional array.old) }
{
    if axis >= array.ndim() {
        return Ok(Some(Cause::Axis));
    }
    match array.reserve(Axis(axis), additional) {
        Ok(()) => Ok(None),
        Err(ArrayError::Shape(_)) => Ok(Some(Cause::Overflow)),
        Err(ArrayError::NoMemory) => Err(AllocError),
    }
}
