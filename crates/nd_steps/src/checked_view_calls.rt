//! The steps of a path: for which cause a step is refused, what it results in, and what a whole path leads to.

ghost use Rattle.std.specs.Prelude.{◌≡◌, ◌<◌, ◌+◌, ◌^◌, ◌∷◌, [], None, length, map, IsTrue};
ghost use Rattle.nd_shape_and_slice.specs.AxisPermutations.{names_each_axis, permuted_list, unpermuted_list};
ghost use Rattle.nd_array_core.specs.ArrayMeaning.{meaning_of, shape_of};
ghost use Rattle.nd_paths.specs.CallbacksOnViewsAndSplits.{LiesWith, LiesThrough};
ghost use Rattle.nd_shape_and_slice.specs.SliceInfo.{reads_axis, axes_read};
ghost use Rattle.nd_steps.specs.StepsAndWritesOnArrays.{MovesBy, ShowsThrough};
ghost use Rattle.nd_read.specs.ScriptCalls.{asked_step, Sliced, BroadcastTo, Indexed};
ghost use Rattle.nd_steps.specs.StepListResults.{LeadsAlong, look_refusal};
ghost use Rattle.nd_steps.specs.StepTestsAndShapes.{Refuses, first_failed, element_tests, refusal, keep_refusal, changes_axes, step_shape, step_index};

use crate::laws::paths_lead_along;
use crate::refusal_causes::Cause;
use nd_array_core::{ArrayBase, ArrayView, Data};
use nd_read::Step;
use nd_shape_and_slice::{
    Axis, IxDyn, MAX_AXES, Slice, SliceInfoElem, axes_fit, axes_kept, axes_read, axis_after,
    coordinate_on_axis, slice_fits,
};

/// Fails with `cause` if `holds` is false.
pub fn check(holds: bool, cause: Cause) -> Result<(), Cause>
    ensures { Refuses result (first_failed ((holds, cause) ∷ [])) }
{
    if holds { Ok(()) } else { Err(cause) }
}

/// Checks that `element`, which stands for axis `axis`, fits that axis. A new axis always fits.
fn check_element(shape: &[usize], axis: usize, element: SliceInfoElem) -> Result<(), Cause>
    requires { IsTrue (reads_axis element) → axis < length shape.now }
    ensures { Refuses result (first_failed (element_tests axis shape.now (element ∷ []))) }
{
    match element {
        SliceInfoElem::Slice { start, end, step } => check(
            slice_fits(shape[axis], Slice { start, end, step }),
            Cause::Slice,
        ),
        SliceInfoElem::Index(coordinate) => check(
            coordinate_on_axis(shape[axis], coordinate).is_some(),
            Cause::Index,
        ),
        SliceInfoElem::NewAxis => Ok(()),
    }
}

fn check_elements(shape: &[usize], elements: &[SliceInfoElem]) -> Result<(), Cause>
    requires { axes_read elements.now ≡ length shape.now }
    ensures { Refuses result (first_failed (element_tests 0 shape.now elements.now)) }
{
    let mut axis = 0;
    for element in elements {
        check_element(shape, axis, *element)?;
        axis = axis_after(axis, *element);
    }
    Ok(())
}

/// Checks that `elements` is a list by which an array of shape `shape` can be sliced. Fails with the first cause
/// against it.
fn check_list(shape: &[usize], elements: &[SliceInfoElem]) -> Result<(), Cause>
    ensures { Refuses result (refusal (Sliced elements.now) shape.now) }
{
    check(axes_read(elements) == shape.len(), Cause::Shape)?;
    check(axes_kept(elements) <= MAX_AXES, Cause::TooManyAxes)?;
    check_elements(shape, elements)
}

/// Checks that there is an axis `axis`, and that it has coordinate `index`. Fails with the first cause against it.
pub fn check_index(shape: &[usize], axis: usize, index: usize) -> Result<(), Cause>
    ensures { Refuses result (refusal (Indexed axis index) shape.now) }
{
    check(axis < shape.len(), Cause::Axis)?;
    check(index < shape[axis], Cause::Index)
}

/// Checks that an array of shape `shape` can be replaced by the result of `step`. Fails with the first cause against
/// it. A broadcast is always refused, because its result shares elements.
fn check_keep(shape: &[usize], step: &Step) -> Result<(), Cause>
    ensures { Refuses result (keep_refusal (asked_step step.now) shape.now) }
{
    match step {
        Step::SliceAxis(axis, slice) => {
            check(*axis < shape.len(), Cause::Axis)?;
            check(slice_fits(shape[*axis], *slice), Cause::Slice)
        }
        Step::Slice(elements) => check_list(shape, elements.as_slice()),
        Step::Collapse(axis, index) => check_index(shape, *axis, *index),
        Step::IndexAxis(axis, index) => check_index(shape, *axis, *index),
        Step::Permute(axes) => check(axes_fit(axes.as_slice(), shape.len()), Cause::Permutation),
        Step::SwapAxes(a, b) => {
            check(*a < shape.len(), Cause::Axis)?;
            check(*b < shape.len(), Cause::Axis)
        }
        Step::Invert(axis) => check(*axis < shape.len(), Cause::Axis),
        Step::InsertAxis(axis) => {
            check(*axis <= shape.len(), Cause::Axis)?;
            check(shape.len() < MAX_AXES, Cause::TooManyAxes)
        }
        Step::RemoveAxis(axis) => check_index(shape, *axis, 0),
        Step::Reverse | Step::Squeeze | Step::Diag => Ok(()),
        Step::Broadcast(_) => Err(Cause::Broadcast),
    }
}

/// Returns the first cause for which an array of shape `shape` can't be replaced by the result of `step`, or None if it
/// can be.
pub fn keep_refusal(shape: &[usize], step: &Step) -> Option<Cause>
    ensures { result ≡ keep_refusal (asked_step step.now) shape.now }
{
    check_keep(shape, step).err()
}

/// Puts the axes of `array` in the order `axes`.
fn permute<S: Data>(array: &mut ArrayBase<S, IxDyn>, axes: &[usize])
    requires { IsTrue (names_each_axis axes.now (length (shape_of array.old))) }
    ensures shape { shape_of array.new ≡ permuted_list axes.now (shape_of array.old) }
    ensures elements { ShowsThrough array.old (unpermuted_list axes.now) array.new }
    ensures storage { LiesWith array.old array.new }
    ensures source { LiesThrough array.old (unpermuted_list axes.now) array.new }
{
    let order = IxDyn::new(&axes[..array.ndim()]);
    array.permute_axes(order);
}

/// Returns whether `change_axes` takes this step in place. Each other step is taken by value.
pub(crate) fn changes_axes(step: &Step) -> bool
    ensures { result ≡ changes_axes (asked_step step.now) }
{
    !matches!(
        step,
        Step::Slice(_) | Step::Squeeze | Step::Diag | Step::Broadcast(_)
    )
}

/// Takes a step in place. Nothing of the array is copied, which matters on long paths, because a view has 536 bytes.
pub(crate) fn change_axes<S: Data>(array: &mut ArrayBase<S, IxDyn>, step: &Step)
    requires changes { IsTrue (changes_axes (asked_step step.now)) }
    requires allowed { keep_refusal (asked_step step.now) (shape_of array.old) ≡ None }
    ensures shape { shape_of array.new ≡ step_shape (asked_step step.now) (shape_of array.old) }
    ensures elements { ShowsThrough array.old (step_index (asked_step step.now) (shape_of array.old)) array.new }
    ensures storage { LiesWith array.old array.new }
    ensures source { LiesThrough array.old (step_index (asked_step step.now) (shape_of array.old)) array.new }
{
    match step {
        Step::SliceAxis(axis, slice) => array.slice_axis_inplace(Axis(*axis), *slice),
        Step::Collapse(axis, index) => array.collapse_axis(Axis(*axis), *index),
        Step::IndexAxis(axis, index) => array.index_axis_inplace(Axis(*axis), *index),
        Step::Permute(axes) => permute(array, axes.as_slice()),
        Step::Reverse => array.reverse_axes(),
        Step::SwapAxes(a, b) => array.swap_axes(*a, *b),
        Step::Invert(axis) => array.invert_axis(Axis(*axis)),
        Step::InsertAxis(axis) => array.insert_axis_inplace(Axis(*axis)),
        Step::RemoveAxis(axis) => array.index_axis_inplace(Axis(*axis), 0),
        Step::Slice(_) | Step::Squeeze | Step::Diag | Step::Broadcast(_) => {}
    }
}

/// Returns the result of a step, which must not be a broadcast, in the array's own storage.
pub(crate) fn stepped<S: Data>(array: ArrayBase<S, IxDyn>, step: &Step) -> ArrayBase<S, IxDyn>
    requires { keep_refusal (asked_step step.now) (shape_of array) ≡ None }
    ensures shape { shape_of result ≡ step_shape (asked_step step.now) (shape_of array) }
    ensures elements { ShowsThrough array (step_index (asked_step step.now) (shape_of array)) result }
    ensures storage { LiesWith array result }
    ensures source { LiesThrough array (step_index (asked_step step.now) (shape_of array)) result }
{
    if changes_axes(step) {
        let mut array = array;
        change_axes(&mut array, step);
        return array;
    }
    match step {
        Step::Slice(elements) => array.slice_move(elements.as_slice()),
        Step::Squeeze => array.squeeze(),
        Step::Diag => array.into_diag().into_dyn(),
        _ => array,
    }
}

/// Returns the result of a step, which must not be a broadcast or be refused for another cause.
pub fn take_step<S: Data>(array: ArrayBase<S, IxDyn>, step: &Step) -> ArrayBase<S, IxDyn>
    requires { keep_refusal (asked_step step.now) (shape_of array) ≡ None }
    ensures shape { shape_of result ≡ step_shape (asked_step step.now) (shape_of array) }
    ensures elements { ShowsThrough array (step_index (asked_step step.now) (shape_of array)) result }
{
    stepped(array, step)
}

/// Broadcasts the view to the shape `lengths`, or returns the cause for which that is refused.
fn broadcast_to<A>(view: &mut ArrayView<'_, A, IxDyn>, lengths: &[usize]) -> Option<Cause>
    ensures { MovesBy (BroadcastTo lengths.now) view.old view.new result }
{
    if lengths.len() > MAX_AXES {
        return Some(Cause::TooManyAxes);
    }
    match view.broadcast_move(IxDyn::new(lengths)) {
        Some(wide) => {
            *view = wide;
            None
        }
        None => Some(Cause::Broadcast),
    }
}

/// Takes a step on the view, or returns the cause for which it is refused.
pub fn advance<A>(view: &mut ArrayView<'_, A, IxDyn>, step: &Step) -> Option<Cause>
    ensures { MovesBy (asked_step step.now) view.old view.new result }
{
    if let Step::Broadcast(lengths) = step {
        return broadcast_to(view, lengths.as_slice());
    }
    match keep_refusal(view.shape(), step) {
        None if changes_axes(step) => {
            change_axes(view, step);
            None
        }
        None => {
            *view = stepped(*view, step);
            None
        }
        Some(cause) => Some(cause),
    }
}

/// Takes the steps of `path` on the view in turn, or returns the cause for which the first refused step is refused.
pub fn follow_path<A>(view: &mut ArrayView<'_, A, IxDyn>, path: &[Step]) -> Option<Cause>
    ensures refused { result ≡ look_refusal (map asked_step path.now) (shape_of view.old) }
    ensures along { result ≡ None → LeadsAlong (map asked_step path.now) (meaning_of view.old) (meaning_of view.new) }
{
    for step in path {
        if let Some(cause) = advance(view, step) {
            return Some(cause);
        }
    }
    paths_lead_along::<A>();
    None
}
