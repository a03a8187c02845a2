//! Taking steps one after another on an array, some of which copy elements.

ghost use Rattle.std.specs.Prelude.{◌≡◌, ◌<◌, ◌≤◌, drop, length, map, IfOk, IsTrue, IsFalse, nat_lt};
ghost use Rattle.std.specs.List.{list_all};
ghost use Rattle.nd_array_core.specs.ArrayMeaning.{meaning_of, shape_of};
ghost use Rattle.nd_array_core.specs.base.NewArrays.{EachCloneIsEqual};
ghost use Rattle.nd_read.specs.ScriptCalls.{asked_step};
ghost use Rattle.nd_steps.specs.StepTestsAndShapes.{Refuses, first_failed, shares};
ghost use Rattle.nd_npy_run.specs.declared.steps.errors.StepCause.TheVariants.{Layout};
ghost use Rattle.nd_npy_run.specs.declared.steps.errors.NpyStepsError.TheVariants.{Refused};
ghost use Rattle.nd_npy_run.specs.ViewSelectAndReshapeSteps.{asked_npy_step, are_viewed, Viewed, Chosen, Regrouped};
ghost use Rattle.nd_npy_run.specs.StepResults.{choice_tests, lengths_tests, npy_refusal, RefusesStep};
ghost use Rattle.nd_npy_run.specs.StepListResults.{GivesArrayAfterSome, GivesArrayAfterStep};

use crate::steps::errors::{NpyStepsError, Refusal, StepCause};
use crate::steps::step::NpyStep;
use nd_array_core::{Array, ArrayBase, Data};
use nd_read::Step;
use nd_shape_and_slice::{Axis, Dimension, IxDyn, MAX_AXES, Order, size_of_shape_checked};
use nd_steps::Cause;
use nd_steps::checked_view_calls::{advance, check, keep_refusal, take_step};
use std::alloc::Global;

/// Returns how many of the steps come up to and with the last one that may copy elements: 0 if there is none.
#[tactic(auto, using(crate::proofs::StepListsJoined::views_none))]
pub fn copying_steps(steps: &[NpyStep]) -> usize
    ensures few { result ≤ length steps.now }
    ensures copies { 0 < result → IsFalse (are_viewed (map asked_npy_step steps.now)) }
    ensures rest { IsTrue (are_viewed (drop result (map asked_npy_step steps.now))) }
{
    let mut count = steps.len();
    while count > 0 && steps[count - 1].is_view() {
        count -= 1;
    }
    count
}

/// Returns the error that the step of this number is refused for a cause for which steps of a script are refused, too.
fn refused_for(number: usize, cause: Cause) -> NpyStepsError
    ensures { result ≡ Refused (record { number = number; cause = Layout cause }) }
{
    NpyStepsError::Refused(Refusal {
        number,
        cause: StepCause::Layout(cause),
    })
}

/// Returns whether each of `indexes` is below `len`.
fn all_below(indexes: &[usize], len: usize) -> bool
    ensures { result ≡ list_all (λ k. nat_lt k len) indexes.now }
{
    indexes.iter().all(|k| *k < len)
}

/// Checks that the coordinates `indexes` of `axis` can be chosen from an array of the dimension `dim`. Fails with the
/// first cause against it.
fn check_choice(dim: IxDyn, axis: usize, indexes: &[usize]) -> Result<(), Cause>
    ensures { Refuses result (first_failed (choice_tests axis indexes.now (⟦<IxDyn as Dimension>⟧.lengths dim))) }
{
    let mut dim = dim;
    if axis >= dim.ndim() {
        return Err(Cause::Axis);
    }
    if !all_below(indexes, dim.length(axis)) {
        return Err(Cause::Index);
    }
    dim.set_length(axis, indexes.len());
    check(size_of_shape_checked(dim.slice()).is_ok(), Cause::Overflow)
}

/// Returns the array of the coordinates `indexes` of `axis`, in the order in which they are listed.
fn chosen<A: Clone + Drop>(
    alloc: Global,
    array: &Array<A, IxDyn>,
    number: usize,
    axis: usize,
    indexes: &[usize],
) -> Result<Array<A, IxDyn>, NpyStepsError>
    requires { EachCloneIsEqual A.is_clone }
    ensures { GivesArrayAfterStep meaning_of number (Chosen axis indexes.now) (meaning_of array.now) result }
{
    match check_choice(array.raw_dim(), axis, indexes) {
        Ok(()) => match array.select(alloc, Axis(axis), indexes) {
            Ok(selected) => Ok(selected),
            Err(_) => Err(NpyStepsError::Memory),
        },
        Err(cause) => Err(refused_for(number, cause)),
    }
}

/// Checks that an array can have these lengths. Fails with the first cause against it.
fn check_lengths(lengths: &[usize]) -> Result<(), Cause>
    ensures { Refuses result (first_failed (lengths_tests lengths.now)) }
{
    check(lengths.len() <= MAX_AXES, Cause::TooManyAxes)?;
    check(size_of_shape_checked(lengths).is_ok(), Cause::Overflow)
}

/// Returns the dimension with these lengths, if they make as many elements as the array has. Fails with the first cause
/// against it.
fn regrouped_dim<S: Data>(
    array: &ArrayBase<S, IxDyn>,
    lengths: &[usize],
) -> Result<IxDyn, StepCause>
    ensures lengths { IfOk result (λ dim. ⟦<IxDyn as Dimension>⟧.lengths dim ≡ lengths.now) }
    ensures refused { RefusesStep result (npy_refusal (Regrouped lengths.now) (shape_of array.now)) }
{
    if let Err(cause) = check_lengths(lengths) {
        return Err(StepCause::Layout(cause));
    }
    let dim = IxDyn::new(lengths);
    if dim.size() == array.len() {
        Ok(dim)
    } else {
        Err(StepCause::Count)
    }
}

/// Returns the array under these lengths, where each element keeps its row-major rank. The elements are copied if no
/// strides serve.
fn regrouped<A: Clone + Drop>(
    alloc: Global,
    array: Array<A, IxDyn>,
    number: usize,
    lengths: &[usize],
) -> Result<Array<A, IxDyn>, NpyStepsError>
    requires { EachCloneIsEqual A.is_clone }
    ensures { GivesArrayAfterStep meaning_of number (Regrouped lengths.now) (meaning_of array) result }
{
    match regrouped_dim(&array, lengths) {
        Ok(dim) => match array.into_shape_clone(alloc, (dim, Order::RowMajor)) {
            Ok(regrouped) => Ok(regrouped),
            Err(_) => Err(NpyStepsError::Memory),
        },
        Err(cause) => Err(NpyStepsError::Refused(Refusal { number, cause })),
    }
}

/// Returns a copy of what a view of the array shows after a step.
fn copied<A: Clone + Drop>(
    alloc: Global,
    array: &Array<A, IxDyn>,
    number: usize,
    step: &Step,
) -> Result<Array<A, IxDyn>, NpyStepsError>
    requires { EachCloneIsEqual A.is_clone }
    ensures { GivesArrayAfterStep meaning_of number (Viewed (asked_step step.now)) (meaning_of array.now) result }
{
    let mut view = array.view();
    match advance(&mut view, step) {
        None => match view.to_owned(alloc) {
            Ok(owned) => Ok(owned),
            Err(_) => Err(NpyStepsError::Memory),
        },
        Some(cause) => Err(refused_for(number, cause)),
    }
}

/// Returns whether the step lets indexes share an element, as a broadcast does.
fn shares(step: &Step) -> bool
    ensures { result ≡ shares (asked_step step.now) }
{
    matches!(step, Step::Broadcast(_))
}

/// Returns the array after a step of a script. A broadcast is copied; every other step leaves the elements where they
/// lie.
fn stepped<A: Clone + Drop>(
    alloc: Global,
    array: Array<A, IxDyn>,
    number: usize,
    step: &Step,
) -> Result<Array<A, IxDyn>, NpyStepsError>
    requires { EachCloneIsEqual A.is_clone }
    ensures { GivesArrayAfterStep meaning_of number (Viewed (asked_step step.now)) (meaning_of array) result }
{
    if shares(step) {
        return copied(alloc, &array, number, step);
    }
    match keep_refusal(array.shape(), step) {
        None => Ok(take_step(array, step)),
        Some(cause) => Err(refused_for(number, cause)),
    }
}

/// Returns the array after a step, whose number is `number`.
fn step_taken<A: Clone + Drop>(
    alloc: Global,
    array: Array<A, IxDyn>,
    number: usize,
    step: &NpyStep,
) -> Result<Array<A, IxDyn>, NpyStepsError>
    requires { EachCloneIsEqual A.is_clone }
    ensures { GivesArrayAfterStep meaning_of number (asked_npy_step step.now) (meaning_of array) result }
{
    match step {
        NpyStep::View(step) => stepped(alloc, array, number, step),
        NpyStep::Select(axis, indexes) => chosen(alloc, &array, number, *axis, indexes.as_slice()),
        NpyStep::Reshape(lengths) => regrouped(alloc, array, number, lengths.as_slice()),
    }
}

/// Takes the first `count` steps and returns the array after them. `count` is at most the number of steps, and 0 if they
/// all lead to views, as `copying_steps` is. A clone of an element must equal it.
///
/// # Errors
///
/// Fails with `Refused`, which tells the first step that is refused and why, or with `Memory` if memory for a copy is
/// refused.
#[tactic(auto, using(crate::proofs::StepListsJoined::taken_all))]
pub fn take_steps<A: Clone + Drop>(
    alloc: Global,
    array: Array<A, IxDyn>,
    steps: &[NpyStep],
    count: usize,
) -> Result<Array<A, IxDyn>, NpyStepsError>
    requires clones { EachCloneIsEqual A.is_clone }
    requires few { count ≤ length steps.now }
    requires copies { 0 < count → IsFalse (are_viewed (map asked_npy_step steps.now)) }
    ensures { GivesArrayAfterSome meaning_of count (map asked_npy_step steps.now) (meaning_of array) result }
{
    let mut array = array;
    for nth in 0..count {
        match step_taken(alloc, array, nth + 1, &steps[nth]) {
            Ok(next) => array = next,
            Err(error) => return Err(error),
        }
    }
    Ok(array)
}
