//! Taking steps one after another on a view, and the array after them.

ghost use Rattle.std.specs.Prelude.{◌≡◌, ◌≤◌, drop, length, map, IfOk, OnOk, IsTrue};
ghost use Rattle.nd_array_core.specs.ArrayMeaning.{meaning_of};
ghost use Rattle.nd_array_core.specs.base.NewArrays.{EachCloneIsEqual};
ghost use Rattle.nd_npy_run.specs.ViewSelectAndReshapeSteps.{asked_npy_step, are_viewed, is_viewed};
ghost use Rattle.nd_npy_run.specs.StepListResults.{EndsIn, GivesArrayAfter, LeadsOn};
ghost use Rattle.nd_npy_run.specs.StepResults.{MovesByStep, LeadsAlongSteps};

use crate::steps::errors::{NpyStepsError, Refusal, StepCause};
use crate::steps::laws::steps_lead_along;
use crate::steps::step::NpyStep;
use crate::steps::steps_on_arrays::{copying_steps, take_steps};
use nd_array_core::{Array, ArrayView};
use nd_shape_and_slice::IxDyn;
use nd_steps::checked_view_calls::advance;
use std::alloc::Global;

/// Takes a step on the view, which must be a step that leads to a view, or returns the cause for which it is refused.
fn advance_view<A>(view: &mut ArrayView<'_, A, IxDyn>, step: &NpyStep) -> Option<StepCause>
    requires { IsTrue (is_viewed (asked_npy_step step.now)) }
    ensures { MovesByStep (asked_npy_step step.now) (meaning_of view.old) (meaning_of view.new) result }
{
    match step {
        NpyStep::View(step) => match advance(view, step) {
            Some(cause) => Some(StepCause::Layout(cause)),
            None => None,
        },
        _ => unreachable!(),
    }
}

/// Takes the steps that follow the first `done` ones on the view, each on what the one before it has left. They must all
/// lead to views, as those that follow the first `copying_steps` do. No element is read or written.
///
/// # Errors
///
/// Fails with the number of the first step that is refused, counted from 1 among all steps, and why.
pub fn follow_steps<A>(
    view: &mut ArrayView<'_, A, IxDyn>,
    steps: &[NpyStep],
    done: usize,
) -> Result<(), Refusal>
    requires few { done ≤ length steps.now }
    requires views { IsTrue (are_viewed (drop done (map asked_npy_step steps.now))) }
    ensures ends { EndsIn done (map asked_npy_step steps.now) (meaning_of view.old) (meaning_of view.new) result }
    ensures along { OnOk result (LeadsOn done (map asked_npy_step steps.now) (meaning_of view.old) (meaning_of view.new)) }
{
    for nth in done..steps.len() {
        if let Some(cause) = advance_view(view, &steps[nth]) {
            return Err(Refusal {
                number: nth + 1,
                cause,
            });
        }
    }
    steps_lead_along::<A>();
    Ok(())
}

/// Returns the array after the steps, each taken on what the one before it has left. Up to the last step that may copy
/// elements the array itself is taken from step to step; those that follow it are taken on a view, whose elements are
/// copied at the end. A clone of an element must equal it.
///
/// # Errors
///
/// Fails with `Refused`, which tells the first step that is refused and why, or with `Memory` if memory for a copy is
/// refused.
pub fn after_steps<A: Clone + Drop>(
    alloc: Global,
    array: Array<A, IxDyn>,
    steps: &[NpyStep],
) -> Result<Array<A, IxDyn>, NpyStepsError>
    requires { EachCloneIsEqual A.is_clone }
    ensures ends { GivesArrayAfter meaning_of (map asked_npy_step steps.now) (meaning_of array) result }
    ensures along { IfOk result (λ a. LeadsAlongSteps (map asked_npy_step steps.now) (meaning_of array) (meaning_of a)) }
{
    steps_lead_along::<A>();
    let done = copying_steps(steps);
    let array = match take_steps(alloc, array, steps, done) {
        Ok(array) => array,
        Err(error) => return Err(error),
    };
    let mut view = array.view();
    match follow_steps(&mut view, steps, done) {
        Ok(()) => match view.to_owned(alloc) {
            Ok(owned) => Ok(owned),
            Err(_) => Err(NpyStepsError::Memory),
        },
        Err(refusal) => Err(NpyStepsError::Refused(refusal)),
    }
}
