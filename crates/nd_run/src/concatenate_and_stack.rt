//! Calls that join the array with others: one after another along an axis, or stacked along a new axis.

ghost use Rattle.std.specs.Prelude.{◌≡◌, ◌<◌, ◌≤◌, ◌+◌, ◌^◌, ◌∷◌, nat_eq, map, length, slice_index, slice_set, None, IfOk, IfSome};
ghost use Rattle.std.specs.Cmp.Lexicographic.{pointwise};
ghost use Rattle.std.specs.List.{insert, list_all};
ghost use Rattle.nd_array_core.specs.ArrayMeaning.{meaning_of, shape_of};
ghost use Rattle.nd_array_core.specs.growth.AppendEach.{meanings_of};
ghost use Rattle.nd_stacking.specs.ConcatenateAndStack.{followed_by, is_alike_but};
ghost use Rattle.nd_steps.specs.StepTestsAndShapes.{Refuses, first_failed, size_test};
ghost use Rattle.nd_run.specs.CallsOnArrays.{CarriesOut};
ghost use Rattle.nd_read.specs.ScriptCalls.{Concatenating, Stacking};
ghost use Rattle.nd_run.specs.OutcomesOfCalls.{concatenate_tests, joined_shape, lengths_with, stack_of, stack_tests};
ghost use Rattle.nd_array_core.specs.base.NewArrays.{EachCloneIsEqual};

use crate::replies::Reply;
use nd_array_core::{Array, ArrayError, ArrayView};
use nd_read::HoldsArray;
use nd_shape_and_slice::{
    Axis, Dimension, InsertAxis, IxDyn, MAX_AXES, RemoveAxis, size_of_shape_checked,
};
use nd_steps::Cause;
use nd_steps::checked_view_calls::check;
use std::alloc::{AllocError, Global};

/// Returns whether `other` has the shape of the array, once the length of its axis `axis` is replaced by `len`.
fn is_alike<A, T: HoldsArray<A>>(
    array: &Array<A, IxDyn>,
    axis: usize,
    len: usize,
    other: &T,
) -> bool
    ensures { result ≡ pointwise nat_eq (slice_set (T.held other.now).shape axis len) (shape_of array.now) }
{
    let mut alike = other.array().raw_dim();
    alike.set_length(axis, len);
    alike.slice() == array.shape()
}

/// Returns whether each of `others` has as many axes as the array, and the same lengths on all axes but `axis`.
fn are_alike<A, T: HoldsArray<A>>(array: &Array<A, IxDyn>, axis: usize, others: &[T]) -> bool
    requires { axis < length (shape_of array.now) }
    ensures { result ≡ list_all (λ n. is_alike_but axis (shape_of array.now) n.shape) (map T.held others.now) }
{
    let len = array.len_of(Axis(axis));
    others.iter().all(|other| is_alike(array, axis, len, other))
}

/// Returns the length of an axis, or 0 if there is no such axis.
fn length_at<A>(array: &Array<A, IxDyn>, axis: usize) -> usize
    ensures { result ≡ slice_index (shape_of array.now) axis }
{
    match array.shape().get(axis) {
        Some(len) => *len,
        None => 0,
    }
}

/// Returns the sum of the lengths that the array and the others have on an axis, or None if it doesn't fit into a
/// `usize`.
fn lengths_together<A, T: HoldsArray<A>>(
    array: &Array<A, IxDyn>,
    axis: usize,
    others: &[T],
) -> Option<usize>
    ensures total { IfSome result (λ total. total ≡ lengths_with axis (map T.held others.now) (shape_of array.now)) }
    ensures many { result ≡ None → 2 ^ 64 ≤ lengths_with axis (map T.held others.now) (shape_of array.now) }
{
    let mut total = length_at(array, axis);
    for other in others {
        match total.checked_add(length_at(other.array(), axis)) {
            Some(more) => total = more,
            None => return None,
        }
    }
    Some(total)
}

/// Returns whether the shape of the array with the others appended along `axis` has a checked size.
fn fit_joined<A, T: HoldsArray<A>>(array: &Array<A, IxDyn>, axis: usize, others: &[T]) -> bool
    requires { axis < length (shape_of array.now) }
    ensures { result ≡ (size_test (joined_shape axis (map T.held others.now) (shape_of array.now))).0 }
{
    let mut joined = array.raw_dim();
    match lengths_together(array, axis, others) {
        Some(total) => {
            joined.set_length(axis, total);
            size_of_shape_checked(joined.slice()).is_ok()
        }
        None => false,
    }
}

/// Checks that `others` can be appended to the array along `axis`. Fails with the first cause against it.
fn check_concatenate<A, T: HoldsArray<A>>(
    array: &Array<A, IxDyn>,
    axis: usize,
    others: &[T],
) -> Result<(), Cause>
    ensures { Refuses result (first_failed (concatenate_tests axis (map T.held others.now) (shape_of array.now))) }
{
    check(axis < array.ndim(), Cause::Axis)?;
    check(are_alike(array, axis, others), Cause::Shape)?;
    check(fit_joined(array, axis, others), Cause::Overflow)
}

/// Returns whether `other` has the same shape as the array.
fn is_equal<A, T: HoldsArray<A>>(array: &Array<A, IxDyn>, other: &T) -> bool
    ensures { result ≡ pointwise nat_eq (T.held other.now).shape (shape_of array.now) }
{
    other.array().shape() == array.shape()
}

/// Returns whether each of `others` has the same shape as the array.
fn are_equal<A, T: HoldsArray<A>>(array: &Array<A, IxDyn>, others: &[T]) -> bool
    ensures { result ≡ list_all (λ n. pointwise nat_eq n.shape (shape_of array.now)) (map T.held others.now) }
{
    others.iter().all(|other| is_equal(array, other))
}

/// Returns whether the shape of the array and `others` more arrays, stacked along a new axis, has a checked size.
fn fit_stacked<A>(array: &Array<A, IxDyn>, axis: usize, others: usize) -> bool
    requires place { axis ≤ length (shape_of array.now) }
    requires axes_fit { length (shape_of array.now) < MAX_AXES }
    ensures { result ≡ (size_test (insert (shape_of array.now) axis (others + 1))).0 }
{
    match others.checked_add(1) {
        Some(count) => {
            let mut joined = array.raw_dim().insert_axis(Axis(axis));
            joined.set_length(axis, count);
            size_of_shape_checked(joined.slice()).is_ok()
        }
        None => false,
    }
}

/// Checks that `others` can be stacked with the array along a new axis. Fails with the first cause against it.
fn check_stack<A, T: HoldsArray<A>>(
    array: &Array<A, IxDyn>,
    axis: usize,
    others: &[T],
) -> Result<(), Cause>
    ensures { Refuses result (first_failed (stack_tests axis (map T.held others.now) (shape_of array.now))) }
{
    check(axis <= array.ndim(), Cause::Axis)?;
    check(array.ndim() < MAX_AXES, Cause::TooManyAxes)?;
    check(are_equal(array, others), Cause::Shape)?;
    check(fit_stacked(array, axis, others.len()), Cause::Overflow)
}

/// Returns views of the array and of the others, in this order.
fn views_of<'a, A, T: HoldsArray<A>>(
    alloc: Global,
    array: &'a Array<A, IxDyn>,
    others: &'a [T],
) -> Result<Vec<ArrayView<'a, A, IxDyn>>, AllocError>
    ensures { IfOk result (λ views. meanings_of views.items ≡ meaning_of array.now ∷ map T.held others.now) }
{
    let mut views = Vec::with_capacity(alloc, others.len().saturating_add(1))?;
    views.push(array.view())?;
    for other in others {
        views.push(other.array().view())?;
    }
    Ok(views)
}

/// Returns a new array of clones of the array's elements and then those of the others, one array after another along an
/// axis.
fn concatenated<A: Clone + Drop, T: HoldsArray<A>>(
    alloc: Global,
    array: &Array<A, IxDyn>,
    axis: usize,
    others: &[T],
) -> Result<Array<A, IxDyn>, AllocError>
    requires clones { EachCloneIsEqual A.is_clone }
    requires fits { first_failed (concatenate_tests axis (map T.held others.now) (shape_of array.now)) ≡ None }
    ensures { IfOk result (λ all. meaning_of all ≡ followed_by axis (meaning_of array.now) (map T.held others.now)) }
{
    let views = match views_of(alloc, array, others) {
        Ok(views) => views,
        Err(_) => return Err(AllocError),
    };
    match nd_stacking::concatenate(alloc, Axis(axis), views.as_slice()) {
        Ok(all) => Ok(all),
        Err(ArrayError::NoMemory) => Err(AllocError),
        Err(ArrayError::Shape(_)) => unreachable!(),
    }
}

/// Returns a new array of clones of the array's elements and those of the others, stacked along a new axis.
fn stacked<A: Clone + Drop, T: HoldsArray<A>>(
    alloc: Global,
    array: &Array<A, IxDyn>,
    axis: usize,
    others: &[T],
) -> Result<Array<A, IxDyn>, AllocError>
    requires clones { EachCloneIsEqual A.is_clone }
    requires fits { first_failed (stack_tests axis (map T.held others.now) (shape_of array.now)) ≡ None }
    ensures { IfOk result (λ all. meaning_of all ≡ stack_of axis (meaning_of array.now) (map T.held others.now)) }
{
    let views = match views_of(alloc, array, others) {
        Ok(views) => views,
        Err(_) => return Err(AllocError),
    };
    match nd_stacking::stack(alloc, Axis(axis), views.as_slice()) {
        Ok(all) => Ok(all),
        Err(ArrayError::NoMemory) => Err(AllocError),
        Err(ArrayError::Shape(_)) => unreachable!(),
    }
}

/// Appends other arrays to the array along an axis, one after another. A refused call changes nothing.
pub(crate) fn concatenate<A: Clone + Eq + Drop, T: HoldsArray<A>>(
    alloc: Global,
    array: &mut Array<A, IxDyn>,
    axis: usize,
    others: &[T],
) -> Result<Reply<A>, AllocError>
    requires { EachCloneIsEqual A.is_clone }
    ensures { CarriesOut A.eq (Concatenating axis (map T.held others.now)) array.old array.new result }
{
    match check_concatenate(array, axis, others) {
        Ok(()) => match concatenated(alloc, array, axis, others) {
            Ok(all) => {
                *array = all;
                Ok(Reply::Done)
            }
            Err(_) => Err(AllocError),
        },
        Err(cause) => Ok(Reply::Refused(cause.number())),
    }
}

/// Stacks other arrays of the same lengths with the array along a new axis. A refused call changes nothing.
pub(crate) fn stack<A: Clone + Eq + Drop, T: HoldsArray<A>>(
    alloc: Global,
    array: &mut Array<A, IxDyn>,
    axis: usize,
    others: &[T],
) -> Result<Reply<A>, AllocError>
    requires { EachCloneIsEqual A.is_clone }
    ensures { CarriesOut A.eq (Stacking axis (map T.held others.now)) array.old array.new result }
{
    match check_stack(array, axis, others) {
        Ok(()) => match stacked(alloc, array, axis, others) {
            Ok(all) => {
                *array = all;
                Ok(Reply::Done)
            }
            Err(_) => Err(AllocError),
        },
        Err(cause) => Ok(Reply::Refused(cause.number())),
    }
}
