//! Calls that change an array's elements by acts, at the end of a path of steps or on the two parts of a split.

ghost use Rattle.std.specs.Prelude.{map};
ghost use Rattle.nd_array_core.specs.base.NewArrays.{EachCloneIsEqual};
ghost use Rattle.nd_read.specs.ScriptCalls.{asked_split, asked_step, acting, Writing};
ghost use Rattle.nd_run.specs.CallsOnArrays.{CarriesOut};

use crate::replies::{Reply, done_unless};
use nd_array_core::Array;
use nd_read::{Act, HoldsArray, Step};
use nd_shape_and_slice::IxDyn;
use nd_steps::{act_along, act_on_parts};
use std::alloc::AllocError;

/// Carries out `act` on what the steps of a path lead to, which changes the array's own elements. If a step or the act
/// is refused, nothing changes.
pub fn write_through<A: Clone + Eq + Drop, T: HoldsArray<A>>(
    array: &mut Array<A, IxDyn>,
    path: &[Step],
    act: &Act<A, T>,
) -> Result<Reply<A>, AllocError>
    requires { EachCloneIsEqual A.is_clone }
    ensures { CarriesOut A.eq (Writing (map asked_step path.now) (acting T.held act.now)) array.old array.new result }
{
    let refused = act_along(array, path, act)?;
    Ok(done_unless(refused))
}

/// Splits the array along an axis, and carries out an act on each of the two parts. Both acts are checked before either
/// changes anything.
pub fn write_parts<A: Clone + Eq + Drop, T: HoldsArray<A>>(
    array: &mut Array<A, IxDyn>,
    axis: usize,
    index: usize,
    first: &Act<A, T>,
    second: &Act<A, T>,
) -> Result<Reply<A>, AllocError>
    requires { EachCloneIsEqual A.is_clone }
    ensures { CarriesOut A.eq (asked_split T.held axis index first.now second.now) array.old array.new result }
{
    let refused = act_on_parts(array, axis, index, first, second)?;
    Ok(done_unless(refused))
}
