//! Running a list of calls on one array.

ghost use Rattle.std.specs.Prelude.{◌≡◌, ◌≤◌, nat_lt, map, length, vec_capacity, [], None, is_some, IfOk, IfErr, OnErr, IsTrue};
ghost use Rattle.std.specs.Option.{option_copied};
ghost use Rattle.nd_array_core.specs.ArrayMeaning.{meaning_of, shape_of};
ghost use Rattle.std.specs.List.{count_by, list_all};
ghost use Rattle.nd_steps.specs.StepTestsAndShapes.{Refuses, first_failed};
ghost use Rattle.nd_run.specs.CallsOnArrays.{ReplyLacksOnlyMemory, CarriesOut, IsReplyTo};
ghost use Rattle.nd_read.specs.ScriptCalls.{asked_call, asked_calls, asked_step, asking, Keeping, About, Selecting, Removing, Reshaping, Appending, Reserving, AskReshaped};
ghost use Rattle.nd_run.specs.CallReplies.{said_reply, SaidElement};
ghost use Rattle.nd_run.specs.OutcomesOfCalls.{select_tests, reshape_tests, append_tests, AreRepliesTo, end_of, IsCarriedOut, StoppedAt, StoppedBefore, KeepsReplies};
ghost use Rattle.nd_array_core.specs.LayoutLaws.{with_axis_inserted};
ghost use Rattle.nd_array_core.specs.EqualityAndHashing.{equal_meanings};
ghost use Rattle.nd_array_core.specs.ConcatenationAndSplit.{row_major_elements};
ghost use Rattle.nd_array_core.specs.base.NewArrays.{EachCloneIsEqual};

use crate::concatenate_and_stack::{concatenate, stack};
use crate::replies::{Reply, done_unless};
use crate::writes_through_views::{write_parts, write_through};
use nd_array_core::laws::{nothing_outside, shapes_after};
use nd_array_core::{Array, ArrayBase, ArrayError, ArrayView, Data, fits_after};
use nd_read::{Call, HoldsArray, Question, Step};
use nd_shape_and_slice::{Axis, Dimension, IxDyn, MAX_AXES, Order, size_of_shape_checked};
use nd_steps::checked_view_calls::{check, check_index, follow_path, keep_refusal, take_step};
use nd_steps::{Cause, make_room};
use std::alloc::{AllocError, Global};
use std::mem;

/// Returns a new vector of clones of the elements in row-major order.
fn elements<A: Clone + Drop>(
    alloc: Global,
    view: &ArrayView<'_, A, IxDyn>,
) -> Result<Vec<A>, AllocError>
    requires { EachCloneIsEqual A.is_clone }
    ensures { IfOk result (λ v. v.items ≡ row_major_elements (meaning_of view.now)) }
{
    view.to_vec(alloc).map_err(|_| AllocError)
}

/// Returns the reply that has a clone of `element`, if there is one.
fn told<A: Clone>(element: Option<&A>) -> Result<Reply<A>, AllocError>
    requires { EachCloneIsEqual A.is_clone }
    ensures reply { IfOk result (λ reply. said_reply reply ≡ SaidElement (option_copied element.entry)) }
    ensures memory { OnErr result (IsTrue (is_some (option_copied element.entry))) }
{
    match element {
        Some(element) => Ok(Reply::Element(Some(element.clone()?))),
        None => Ok(Reply::Element(None)),
    }
}

/// Returns whether both have the same lengths and equal elements.
fn equal<'a, A: Eq>(view: &'a ArrayView<'_, A, IxDyn>, other: &'a Array<A, IxDyn>) -> bool
    ensures { result ≡ equal_meanings A.eq (meaning_of view.now) (meaning_of other.now) }
{
    view.view() == other.view()
}

/// Returns how many elements of the view equal `element`.
fn count<A: Eq>(view: &ArrayView<'_, A, IxDyn>, element: &A) -> usize
    ensures { result ≡ count_by (λ x. A.eq x element.now) (row_major_elements (meaning_of view.now)) }
{
    // The count is never above the number of elements, so the sum doesn't wrap.
    let _size = view.len();
    view.fold(0, |count: usize, x| {
        if x.eq(element) {
            count.wrapping_add(1)
        } else {
            count
        }
    })
}

/// Returns the dimension with these lengths, if the elements of the array can be shown under them. Fails with the first
/// cause against it.
fn reshape_dim<S: Data>(array: &ArrayBase<S, IxDyn>, lengths: &[usize]) -> Result<IxDyn, Cause>
    ensures lengths { IfOk result (λ dim. ⟦<IxDyn as Dimension>⟧.lengths dim ≡ lengths.now) }
    ensures refused { Refuses result (first_failed (reshape_tests lengths.now (shape_of array.now))) }
{
    if lengths.len() > MAX_AXES {
        return Err(Cause::TooManyAxes);
    }
    match size_of_shape_checked(lengths) {
        Ok(size) if size == array.len() => Ok(IxDyn::new(lengths)),
        _ => Err(Cause::Shape),
    }
}

/// Returns the reply that has the elements under other lengths, or the refusal of these lengths.
fn to_shape<A: Clone + Eq + Drop>(
    alloc: Global,
    view: &ArrayView<'_, A, IxDyn>,
    lengths: &[usize],
    order: Order,
) -> Result<Reply<A>, AllocError>
    requires { EachCloneIsEqual A.is_clone }
    ensures reply { IfOk result (IsReplyTo A.eq (AskReshaped lengths.now order) view.now) }
    ensures memory { OnErr result (first_failed (reshape_tests lengths.now (shape_of view.now)) ≡ None) }
{
    let dim = match reshape_dim(view, lengths) {
        Ok(dim) => dim,
        Err(cause) => return Ok(Reply::Refused(cause.number())),
    };
    let shape = lengths.to_vec(alloc)?;
    match view.to_shape(alloc, (dim, order)) {
        Ok(reshaped) => Ok(Reply::Elements(shape, elements(alloc, &reshaped.view())?)),
        Err(_) => Err(AllocError),
    }
}

/// Returns the reply to a question about the view, or its refusal.
fn reply_to_question<A: Clone + Eq + Drop, T: HoldsArray<A>>(
    alloc: Global,
    view: &ArrayView<'_, A, IxDyn>,
    question: &Question<A, T>,
) -> Result<Reply<A>, AllocError>
    requires { EachCloneIsEqual A.is_clone }
    ensures reply { IfOk result (IsReplyTo A.eq (asking T.held question.now) view.now) }
    ensures memory { OnErr result (ReplyLacksOnlyMemory (asking T.held question.now) view.now) }
{
    match question {
        Question::Shape => Ok(Reply::Shape(view.shape().to_vec(alloc)?)),
        Question::Elements => {
            let shape = view.shape().to_vec(alloc)?;
            Ok(Reply::Elements(shape, elements(alloc, view)?))
        }
        Question::Get(index) => told(view.get(index.as_slice())),
        Question::First => told(view.first()),
        Question::Last => told(view.last()),
        Question::EqualTo(other) => Ok(Reply::Truth(equal(view, other.array()))),
        Question::Count(element) => Ok(Reply::Number(count(view, element))),
        Question::ToShape(lengths, order) => to_shape(alloc, view, lengths.as_slice(), *order),
    }
}

/// Returns the reply to a question about what the steps of a path lead to. It can run out of memory only if no step was
/// refused.
fn ask<A: Clone + Eq + Drop, T: HoldsArray<A>>(
    alloc: Global,
    array: &Array<A, IxDyn>,
    path: &[Step],
    question: &Question<A, T>,
) -> Result<Reply<A>, AllocError>
    requires { EachCloneIsEqual A.is_clone }
    ensures { CarriesOut A.eq (About (map asked_step path.now) (asking T.held question.now)) array.now array.now result }
{
    let mut view = array.view();
    match follow_path(&mut view, path) {
        None => {
            nothing_outside(&view);
            reply_to_question(alloc, &view, question)
        }
        Some(refused) => Ok(Reply::Refused(refused.number())),
    }
}

/// Returns the array, and leaves an empty one in its place. It takes no memory.
fn taken<A: Drop>(alloc: Global, array: &mut Array<A, IxDyn>) -> Array<A, IxDyn>
    ensures { result ≡ array.old }
{
    mem::replace(array, Array::from_vec(Vec::new(alloc)).into_dyn())
}

/// Replaces the array by the step's result. A refused step changes nothing.
fn keep<A: Eq + Drop>(alloc: Global, array: &mut Array<A, IxDyn>, step: &Step) -> Reply<A>
    ensures { IsCarriedOut A.eq (Keeping (asked_step step.now)) (meaning_of array.old) (meaning_of array.new) result }
{
    match keep_refusal(array.shape(), step) {
        None => {
            *array = take_step(taken(alloc, array), step);
            Reply::Done
        }
        Some(cause) => Reply::Refused(cause.number()),
    }
}

/// Returns whether each of `indexes` is below `len`.
fn all_below(indexes: &[usize], len: usize) -> bool
    ensures { result ≡ list_all (λ k. nat_lt k len) indexes.now }
{
    indexes.iter().all(|k| *k < len)
}

/// Checks that the array can be replaced by one of the coordinates `indexes` of `axis`. Fails with the first cause
/// against it.
fn check_select<S: Data>(
    array: &ArrayBase<S, IxDyn>,
    axis: usize,
    indexes: &[usize],
) -> Result<(), Cause>
    ensures { Refuses result (first_failed (select_tests axis indexes.now (shape_of array.now))) }
{
    let mut dim = array.raw_dim();
    check(axis < dim.ndim(), Cause::Axis)?;
    check(all_below(indexes, array.len_of(Axis(axis))), Cause::Index)?;
    dim.set_length(axis, indexes.len());
    check(size_of_shape_checked(dim.slice()).is_ok(), Cause::Overflow)
}

/// Replaces the array by one of the chosen coordinates of an axis. A refused call changes nothing.
fn select<A: Clone + Eq + Drop>(
    alloc: Global,
    array: &mut Array<A, IxDyn>,
    axis: usize,
    indexes: &[usize],
) -> Result<Reply<A>, AllocError>
    requires { EachCloneIsEqual A.is_clone }
    ensures { CarriesOut A.eq (Selecting axis indexes.now) array.old array.new result }
{
    match check_select(array, axis, indexes) {
        Ok(()) => match array.select(alloc, Axis(axis), indexes) {
            Ok(selected) => {
                *array = selected;
                Ok(Reply::Done)
            }
            Err(_) => Err(AllocError),
        },
        Err(cause) => Ok(Reply::Refused(cause.number())),
    }
}

/// Removes a coordinate of an axis. A refused call changes nothing.
fn remove_index<A: Eq>(array: &mut Array<A, IxDyn>, axis: usize, index: usize) -> Reply<A>
    ensures { IsCarriedOut A.eq (Removing axis index) (meaning_of array.old) (meaning_of array.new) result }
{
    match check_index(array.shape(), axis, index) {
        Ok(()) => {
            array.remove_index(Axis(axis), index);
            Reply::Done
        }
        Err(refused) => Reply::Refused(refused.number()),
    }
}

/// Replaces the array by one of the same elements under other lengths. A refused call changes nothing.
fn reshape<A: Clone + Eq + Drop>(
    alloc: Global,
    array: &mut Array<A, IxDyn>,
    lengths: &[usize],
    order: Order,
) -> Result<Reply<A>, AllocError>
    requires { EachCloneIsEqual A.is_clone }
    ensures { CarriesOut A.eq (Reshaping lengths.now order) array.old array.new result }
{
    match reshape_dim(array, lengths) {
        Ok(dim) => match taken(alloc, array).into_shape_clone(alloc, (dim, order)) {
            Ok(reshaped) => {
                *array = reshaped;
                Ok(Reply::Done)
            }
            Err(_) => Err(AllocError),
        },
        Err(cause) => Ok(Reply::Refused(cause.number())),
    }
}

/// Checks that `other` can be appended to the array along `axis`. Fails with the first cause against it.
fn check_append<S: Data, T: Data>(
    array: &ArrayBase<S, IxDyn>,
    axis: usize,
    other: &ArrayBase<T, IxDyn>,
) -> Result<(), Cause>
    ensures { Refuses result (first_failed (append_tests axis (shape_of other.now) (shape_of array.now))) }
{
    shapes_after();
    check(array.ndim() > 0, Cause::Shape)?;
    check(axis < array.ndim(), Cause::Axis)?;
    check(fits_after(array.shape(), other.shape(), axis), Cause::Shape)?;
    let mut joined = array.raw_dim();
    joined.set_length(axis, array.len_of(Axis(axis)) + other.len_of(Axis(axis)));
    check(
        size_of_shape_checked(joined.slice()).is_ok(),
        Cause::Overflow,
    )
}

/// Appends another array to the array along an axis. A refused call changes nothing.
fn append<A: Clone + Eq + Drop>(
    array: &mut Array<A, IxDyn>,
    axis: usize,
    other: ArrayView<'_, A, IxDyn>,
) -> Result<Reply<A>, AllocError>
    requires { EachCloneIsEqual A.is_clone }
    ensures { CarriesOut A.eq (Appending axis (meaning_of other.entry)) array.old array.new result }
{
    shapes_after();
    match check_append(array, axis, &other) {
        Ok(()) => match array.append(Axis(axis), other) {
            Ok(()) => Ok(Reply::Done),
            Err(ArrayError::NoMemory) => Err(AllocError),
            Err(ArrayError::Shape(_)) => unreachable!(),
        },
        Err(cause) => Ok(Reply::Refused(cause.number())),
    }
}

/// Appends an array with one axis fewer to the array, as one more coordinate of an axis. A refused call changes
/// nothing.
fn push<A: Clone + Eq + Drop>(
    array: &mut Array<A, IxDyn>,
    axis: usize,
    other: &Array<A, IxDyn>,
) -> Result<Reply<A>, AllocError>
    requires { EachCloneIsEqual A.is_clone }
    ensures { CarriesOut A.eq (Appending axis (with_axis_inserted axis (meaning_of other.now))) array.old array.new result }
{
    shapes_after();
    if array.ndim() == 0 {
        return Ok(Reply::Refused(Cause::Shape.number()));
    }
    if axis >= array.ndim() {
        return Ok(Reply::Refused(Cause::Axis.number()));
    }
    if other.ndim() + 1 != array.ndim() {
        return Ok(Reply::Refused(Cause::Shape.number()));
    }
    append(array, axis, other.view().insert_axis(Axis(axis)))
}

/// Reserves capacity for more coordinates of an axis. A refused call changes nothing.
fn reserve<A: Eq + Drop>(
    array: &mut Array<A, IxDyn>,
    axis: usize,
    additional: usize,
) -> Result<Reply<A>, AllocError>
    ensures { CarriesOut A.eq (Reserving axis additional) array.old array.new result }
{
    let refused = make_room(array, axis, additional)?;
    Ok(done_unless(refused))
}

/// Carries out one call, and returns the reply to it.
fn act<A: Clone + Eq + Drop, T: HoldsArray<A>>(
    alloc: Global,
    array: &mut Array<A, IxDyn>,
    call: &Call<A, T>,
) -> Result<Reply<A>, AllocError>
    requires { EachCloneIsEqual A.is_clone }
    ensures { CarriesOut A.eq (asked_call T.held call.now) array.old array.new result }
{
    match call {
        Call::Keep(step) => Ok(keep(alloc, array, step)),
        Call::Ask(path, question) => ask(alloc, array, path.as_slice(), question),
        Call::Write(path, act) => write_through(array, path.as_slice(), act),
        Call::SplitWrite(axis, index, first, second) => {
            write_parts(array, *axis, *index, first, second)
        }
        Call::Select(axis, indexes) => select(alloc, array, *axis, indexes.as_slice()),
        Call::RemoveIndex(axis, index) => Ok(remove_index(array, *axis, *index)),
        Call::Reshape(lengths, order) => reshape(alloc, array, lengths.as_slice(), *order),
        Call::Append(axis, other) => append(array, *axis, other.array().view()),
        Call::Push(axis, other) => push(array, *axis, other.array()),
        Call::Reserve(axis, additional) => reserve(array, *axis, *additional),
        Call::Concatenate(axis, others) => concatenate(alloc, array, *axis, others.as_slice()),
        Call::Stack(axis, others) => stack(alloc, array, *axis, others.as_slice()),
    }
}

/// The error of a run that stopped early. ndarray has no such call.
#[derive(Debug, Drop)]
pub enum RunFault<A> {
    /// Memory was refused; these are the replies to the calls before that.
    Memory(Vec<Reply<A>>),
}

/// Runs the calls in order, and appends each reply to `room`, which must be empty and have capacity for all of them. It
/// stops at the first call for which memory is refused, and then the error has the replies to the calls before it.
fn run_with_room<A: Clone + Eq + Drop, T: HoldsArray<A>>(
    alloc: Global,
    start: Array<A, IxDyn>,
    calls: &[Call<A, T>],
    room: Vec<Reply<A>>,
) -> Result<(Vec<Reply<A>>, Array<A, IxDyn>), RunFault<A>>
    requires clone { EachCloneIsEqual A.is_clone }
    requires empty { room.items ≡ [] }
    requires room { length calls.now ≤ vec_capacity room }
    ensures replies { IfOk result (λ r. AreRepliesTo A.eq (asked_calls T.held calls.now) (meaning_of start) r.0.items) }
    ensures array { IfOk result (λ r. meaning_of r.1 ≡ end_of A.eq (asked_calls T.held calls.now) (meaning_of start)) }
    ensures memory { IfErr result (StoppedAt A.eq (asked_calls T.held calls.now) (meaning_of start)) }
{
    let mut replies = room;
    let mut array = start;
    for call in calls {
        match act(alloc, &mut array, call) {
            Ok(reply) => replies.push_reserved(reply),
            Err(_) => return Err(RunFault::Memory(replies)),
        }
    }
    Ok((replies, array))
}

/// Does what `run` does, for calls that hold their arrays in any way: as they are, or in boxes.
pub fn run_held<A: Clone + Eq + Drop, T: HoldsArray<A>>(
    alloc: Global,
    start: Array<A, IxDyn>,
    calls: &[Call<A, T>],
) -> Result<(Vec<Reply<A>>, Array<A, IxDyn>), RunFault<A>>
    requires { EachCloneIsEqual A.is_clone }
    ensures replies { IfOk result (λ r. AreRepliesTo A.eq (asked_calls T.held calls.now) (meaning_of start) r.0.items) }
    ensures array { IfOk result (λ r. meaning_of r.1 ≡ end_of A.eq (asked_calls T.held calls.now) (meaning_of start)) }
    ensures memory { IfErr result (StoppedBefore A.eq (asked_calls T.held calls.now) (meaning_of start)) }
    ensures kept { IfErr result (KeepsReplies A.eq (asked_calls T.held calls.now) (meaning_of start)) }
{
    match Vec::with_capacity(alloc, calls.len()) {
        Ok(room) => run_with_room(alloc, start, calls, room),
        Err(_) => Err(RunFault::Memory(Vec::new(alloc))),
    }
}

/// Runs the calls in order, and returns one reply for each, and the array that the last call left. Memory for the
/// replies is requested before the first call. A call that is refused changes nothing. If memory is refused, the error
/// has the replies to the calls before that. ndarray has no such call.
pub fn run<A: Clone + Eq + Drop>(
    alloc: Global,
    start: Array<A, IxDyn>,
    calls: &[Call<A>],
) -> Result<(Vec<Reply<A>>, Array<A, IxDyn>), RunFault<A>>
    requires { EachCloneIsEqual A.is_clone }
    ensures replies { IfOk result (λ r. AreRepliesTo A.eq (asked_calls meaning_of calls.now) (meaning_of start) r.0.items) }
    ensures array { IfOk result (λ r. meaning_of r.1 ≡ end_of A.eq (asked_calls meaning_of calls.now) (meaning_of start)) }
    ensures memory { IfErr result (StoppedBefore A.eq (asked_calls meaning_of calls.now) (meaning_of start)) }
    ensures kept { IfErr result (KeepsReplies A.eq (asked_calls meaning_of calls.now) (meaning_of start)) }
{
    run_held(alloc, start, calls)
}
