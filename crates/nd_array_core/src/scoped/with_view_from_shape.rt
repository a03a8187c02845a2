//! A call that lends a slice to a task as a mutable view while it runs.
//!
//! If a mutable view is made of a slice without such a call, then after it has ended a caller's proof knows the slice's
//! length, but not which elements were written. This call says what the slice holds.

ghost use Rattle.std.specs.Prelude.{◌≡◌, length, IfOk, IfErr, Some, None, slice_get};
ghost use Rattle.nd_region.specs.Region.{region_stored, borrow_of};
ghost use Rattle.nd_array_core.specs.scoped.ViewTasks.{LiesBy, AsksOfPlacement, shown_under, IsDoneUnder};
ghost use Rattle.nd_layout.specs.LayoutStepsOfCalls.{placement_of};
ghost use Rattle.nd_array_core.specs.scoped.SlicesLentAsViews.{meant_by, refusal_for, AsksOfSlice, IsDoneOnSlice, IsDoneByLayout, KeepsUnseen};

use super::with_view_mut::{ViewTask, run_on_placement};
use crate::base::from_shape::{GivenIn, laid_out};
use nd_elements::storage::part_of_slice;
use nd_layout::Layout;
use nd_shape_and_slice::{Dimension, IntoStrideShape, ShapeError, StrideList};

/// Runs the task on a view of `slice` by a layout whose places the slice has.
fn with_slice_placement<A, D: Dimension, K: ViewTask<A, D>>(
    slice: &mut [A],
    layout: Layout<D, D::Strides>,
    task: K,
) -> K::Answer
    requires sound { LiesBy (slice_get slice.old) (placement_of layout) }
    requires callable { AsksOfPlacement (K.pre task) (slice_get slice.old) (placement_of layout) }
    ensures long { length slice.new ≡ length slice.old }
    ensures done { IsDoneByLayout (K.post task) slice.old slice.new (placement_of layout) result }
{
    let lent = layout.copied();
    part_of_slice(
        slice,
        layout.places(),
        move |region|
            requires sound { LiesBy (region_stored region) (placement_of lent) }
            requires pre { K.pre task (shown_under region lent) }
            ensures borrow { borrow_of result.0 ≡ borrow_of region.entry }
            ensures done { IsDoneUnder (K.post task) lent region.entry result }
        { run_on_placement(region, lent, task) },
    )
}

/// Lends the task a mutable view of the slice's elements under a shape, for the length of the call: in row-major order,
/// in column-major order after `.f()`, or by the strides given to `.strides(..)`. Afterwards the slice has the elements
/// that the view was left with, and beyond the shape those that it had. Fails, for the causes of
/// `ArrayViewMut::from_shape`, with `Overflow` where the shape has no checked size, or where its places would lie
/// further apart than `isize::MAX`; with `OutOfBounds` where the slice is too short (it may be longer); with
/// `Unsupported` where two indexes could share an element. After a failure the slice is as it was. ndarray has no such
/// call; the nearest is its `ArrayViewMut::from_shape`.
pub fn with_view_of<A, D: Dimension, Sh: IntoStrideShape<Dim = D>, K: ViewTask<A, D>>(
    slice: &mut [A],
    shape: Sh,
    task: K,
) -> Result<K::Answer, ShapeError>
    requires callable { AsksOfSlice (K.pre task) slice.old (meant_by Sh.IntoStrideShape shape) }
    ensures refused { IfErr result (λ e. refusal_for (meant_by Sh.IntoStrideShape shape) (length slice.old) ≡ Some e) }
    ensures accepted { IfOk result (λ _. refusal_for (meant_by Sh.IntoStrideShape shape) (length slice.old) ≡ None) }
    ensures unchanged { IfErr result (λ _. slice.new ≡ slice.old) }
    ensures long { length slice.new ≡ length slice.old }
    ensures kept { KeepsUnseen slice.old slice.new (meant_by Sh.IntoStrideShape shape) }
    ensures done { IfOk result (IsDoneOnSlice (K.post task) slice.old slice.new (meant_by Sh.IntoStrideShape shape)) }
{
    let layout = laid_out(GivenIn::SliceMut, slice.len(), shape)?;
    Ok(with_slice_placement(slice, layout, task))
}
