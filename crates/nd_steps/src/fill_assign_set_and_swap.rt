//! Acts that change an array's elements, at the end of a path of steps or on the two parts of a split.

ghost use Rattle.std.specs.Prelude.{◌≡◌, map, None, OnErr, OnOk, IsTrue};
ghost use Rattle.nd_array_core.specs.ArrayMeaning.{shape_of, meaning_of};
ghost use Rattle.nd_array_core.specs.base.ArrayWrites.{KeepsFrame};
ghost use Rattle.nd_array_core.specs.base.NewArrays.{EachCloneIsEqual};
ghost use Rattle.nd_paths.specs.CallbacksOnViewsAndSplits.{LiesWith, EndsAlong};
ghost use Rattle.nd_read.specs.ScriptCalls.{asked_step, acting};
ghost use Rattle.nd_steps.specs.WritesThroughViewsAndSplits.{act_refusal, acted_elements, clones, path_refusal, point_refusal};
ghost use Rattle.nd_steps.specs.StepsAndWritesOnArrays.{ActsOnBoth, HasElements, WritesAlong, WritesParts};
ghost use Rattle.nd_steps.specs.StepTestsAndShapes.{Refuses};
ghost use Rattle.nd_steps.specs.WriteResults.{written_path, Acts, ActsOnTwo, as_one};

use crate::checked_view_calls::{change_axes, changes_axes, check, keep_refusal, stepped};
use crate::laws::paths_lead_along;
use crate::refusal_causes::Cause;
use nd_array_core::laws::{elements_have_places, nothing_outside};
use nd_array_core::{Array, ArrayBase, Data, DataMut};
use nd_paths::{ArrayPath, ArrayTask, PairOfArraysTask, with_halves_mut, with_path_mut};
use nd_read::{Act, HoldsArray, Step};
use nd_shape_and_slice::{Axis, IxDyn};
use std::alloc::AllocError;

/// Takes the steps of `path` on `array`, and returns what they lead to. If a step is refused, it stops there, and
/// returns the cause too.
fn go_along<S: Data>(
    array: ArrayBase<S, IxDyn>,
    path: &[Step],
) -> (ArrayBase<S, IxDyn>, Option<Cause>)
    ensures refused { result.1 ≡ path_refusal (map asked_step path.now) (shape_of array) }
    ensures storage { LiesWith array result.0 }
    ensures end { result.1 ≡ None → EndsAlong (written_path (map asked_step path.now)) array result.0 }
{
    let mut array = array;
    for step in path {
        let refused = keep_refusal(array.shape(), step);
        if refused.is_some() {
            return (array, refused);
        }
        if changes_axes(step) {
            change_axes(&mut array, step);
            continue;
        }
        array = stepped(array, step);
    }
    paths_lead_along::<usize>();
    elements_have_places(&array);
    (array, None)
}

/// A path of steps to the elements that an act changes.
#[derive(Drop)]
struct WritePath<'p> {
    path: &'p [Step],
}

impl<'p> ArrayPath for WritePath<'p> {
    type Refusal = Cause;

    ghost leads = { λ way. written_path (map asked_step way.path.now) };

    fn follow<S: Data>(self, array: ArrayBase<S, IxDyn>) -> (ArrayBase<S, IxDyn>, Option<Cause>)
        ensures refused { result.1 ≡ path_refusal (map asked_step self.entry.path.now) (shape_of array) }
        ensures storage { LiesWith array result.0 }
        ensures end { result.1 ≡ None → EndsAlong (written_path (map asked_step self.entry.path.now)) array result.0 }
    {
        go_along(array, self.path)
    }
}

/// Checks that `act` can be carried out on `array`. Fails with the first cause against it.
fn check_act<S: Data, T: HoldsArray<S::Elem>>(
    array: &ArrayBase<S, IxDyn>,
    act: &Act<S::Elem, T>,
) -> Result<(), Cause>
    ensures { Refuses result (act_refusal (acting T.held act.now) (shape_of array.now)) }
{
    match act {
        Act::Fill(_) => Ok(()),
        Act::Assign(other) => check(
            other.array().broadcast(array.raw_dim()).is_some(),
            Cause::Broadcast,
        ),
        Act::Set(index, _) => check(array.get(index.as_slice()).is_some(), Cause::Index),
        Act::Swap(a, b) => {
            check(array.get(a.as_slice()).is_some(), Cause::Index)?;
            check(array.get(b.as_slice()).is_some(), Cause::Index)
        }
    }
}

/// Returns the first cause for which `act` on `array` is refused, or None if it can be carried out.
fn act_refusal<S: Data, T: HoldsArray<S::Elem>>(
    array: &ArrayBase<S, IxDyn>,
    act: &Act<S::Elem, T>,
) -> Option<Cause>
    ensures { result ≡ act_refusal (acting T.held act.now) (shape_of array.now) }
{
    check_act(array, act).err()
}

/// Carries out `act` on `array`. It must have been checked that nothing is against it.
fn do_act<S: DataMut, T: HoldsArray<S::Elem>>(
    array: &mut ArrayBase<S, IxDyn>,
    act: &Act<S::Elem, T>,
) -> Result<(), AllocError>
where
    S::Elem: Clone + Drop,
    requires clone { EachCloneIsEqual S.Elem.is_clone }
    requires fits { act_refusal (acting T.held act.now) (shape_of array.old) ≡ None }
    ensures frame { KeepsFrame S.frame array.old array.new }
    ensures elements { OnOk result (HasElements array.new (acted_elements (acting T.held act.now) (meaning_of array.old))) }
    ensures memory { OnErr result (IsTrue (clones (acting T.held act.now))) }
{
    match act {
        Act::Fill(value) => array.fill(value.clone()?).map_err(|_| AllocError),
        Act::Assign(other) => array.assign(other.array()).map_err(|_| AllocError),
        Act::Set(index, value) => {
            let value = value.clone()?;
            let _ = array.replace(index.as_slice(), value);
            Ok(())
        }
        Act::Swap(a, b) => {
            array.swap(a.as_slice(), b.as_slice());
            Ok(())
        }
    }
}

/// Carries out `act` on `array`, or returns the first cause for which it is refused.
fn act_on<S: DataMut, T: HoldsArray<S::Elem>>(
    array: &mut ArrayBase<S, IxDyn>,
    act: &Act<S::Elem, T>,
) -> Result<Option<Cause>, AllocError>
where
    S::Elem: Clone + Drop,
    requires { EachCloneIsEqual S.Elem.is_clone }
    ensures frame { KeepsFrame S.frame array.old array.new }
    ensures done { Acts (acting T.held act.now) (meaning_of array.old) (meaning_of array.new) result }
{
    let refused = act_refusal(array, act);
    if refused.is_some() {
        return Ok(refused);
    }
    match do_act(array, act) {
        Ok(()) => Ok(None),
        Err(error) => Err(error),
    }
}

/// An act, as the task that carries it out.
#[derive(Drop)]
struct ActOn<'p, A, T> {
    act: &'p Act<A, T>,
}

impl<'p, A: Clone + Drop, T: HoldsArray<A>> ArrayTask<A> for ActOn<'p, A, T> {
    type Answer = Result<Option<Cause>, AllocError>;

    ghost pre = { λ _ _. EachCloneIsEqual A.is_clone };

    ghost post = { λ task m n answer. Acts (acting T.held task.act.now) m n answer };

    fn run<S: DataMut<Elem = A>>(
        self,
        array: &mut ArrayBase<S, IxDyn>,
    ) -> Result<Option<Cause>, AllocError>
        requires { EachCloneIsEqual A.is_clone }
        ensures frame { KeepsFrame S.frame array.old array.new }
        ensures done { Acts (acting T.held self.entry.act.now) (meaning_of array.old) (meaning_of array.new) result }
    {
        act_on(array, self.act)
    }
}

/// Carries out `first` on `lower` and `second` on `upper`, or returns the first cause for which one of them is refused.
/// Both acts are checked before either changes anything.
fn act_on_both<S: DataMut, T: HoldsArray<S::Elem>>(
    lower: &mut ArrayBase<S, IxDyn>,
    upper: &mut ArrayBase<S, IxDyn>,
    first: &Act<S::Elem, T>,
    second: &Act<S::Elem, T>,
) -> Result<Option<Cause>, AllocError>
where
    S::Elem: Clone + Drop,
    requires { EachCloneIsEqual S.Elem.is_clone }
    ensures lower_frame { KeepsFrame S.frame lower.old lower.new }
    ensures upper_frame { KeepsFrame S.frame upper.old upper.new }
    ensures done { ActsOnBoth T.held first.now second.now lower.old upper.old lower.new upper.new result }
{
    let refused = act_refusal(lower, first);
    if refused.is_some() {
        return Ok(refused);
    }
    let refused = act_refusal(upper, second);
    if refused.is_some() {
        return Ok(refused);
    }
    do_act(lower, first)?;
    do_act(upper, second)?;
    Ok(None)
}

/// An act for each of two parts of an array, as the task that carries them out.
#[derive(Drop)]
struct ActOnParts<'p, A, T> {
    first: &'p Act<A, T>,
    second: &'p Act<A, T>,
}

impl<'p, A: Clone + Drop, T: HoldsArray<A>> PairOfArraysTask<A> for ActOnParts<'p, A, T> {
    type Answer = Result<Option<Cause>, AllocError>;

    ghost pre = { λ _ _ _. EachCloneIsEqual A.is_clone };

    ghost post = { λ task m m' n n' answer. ActsOnTwo (acting T.held task.first.now) (acting T.held task.second.now) m m' n n' answer };

    fn run<S: DataMut<Elem = A>>(
        self,
        one: &mut ArrayBase<S, IxDyn>,
        two: &mut ArrayBase<S, IxDyn>,
    ) -> Result<Option<Cause>, AllocError>
        requires { EachCloneIsEqual A.is_clone }
        ensures one_frame { KeepsFrame S.frame one.old one.new }
        ensures two_frame { KeepsFrame S.frame two.old two.new }
        ensures done { ActsOnBoth T.held self.entry.first.now self.entry.second.now one.old two.old one.new two.new result }
    {
        act_on_both(one, two, self.first, self.second)
    }
}

/// Returns the first cause for which an array of shape `shape` can't be split at coordinate `index` of `axis`, or None
/// if it can be.
fn point_refusal(shape: &[usize], axis: usize, index: usize) -> Option<Cause>
    ensures { result ≡ point_refusal axis index shape.now }
{
    if axis >= shape.len() {
        return Some(Cause::Axis);
    }
    if index > shape[axis] {
        return Some(Cause::Index);
    }
    None
}

/// Returns the task's answer if the path was followed, and otherwise the cause for which it was refused, as one result.
fn as_one(
    done: Result<Result<Option<Cause>, AllocError>, Cause>,
) -> Result<Option<Cause>, AllocError>
    ensures { result ≡ as_one done }
{
    match done {
        Ok(answer) => answer,
        Err(cause) => Ok(Some(cause)),
    }
}

/// Carries out `act` on what the steps of `path` lead to, which changes the array's own elements. If a step or the act
/// is refused, it returns the first cause, and nothing changes.
pub fn act_along<A: Clone + Drop, T: HoldsArray<A>>(
    array: &mut Array<A, IxDyn>,
    path: &[Step],
    act: &Act<A, T>,
) -> Result<Option<Cause>, AllocError>
    requires { EachCloneIsEqual A.is_clone }
    ensures { WritesAlong (map asked_step path.now) (acting T.held act.now) array.old array.new result }
{
    as_one(with_path_mut(array, WritePath { path }, ActOn { act }))
}

/// Splits the array at coordinate `index` of an axis, and carries out `first` on the part below the coordinate and
/// `second` on the other part. If the split or an act is refused, it returns the first cause. Both acts are checked
/// before either changes anything.
pub fn act_on_parts<A: Clone + Drop, T: HoldsArray<A>>(
    array: &mut Array<A, IxDyn>,
    axis: usize,
    index: usize,
    first: &Act<A, T>,
    second: &Act<A, T>,
) -> Result<Option<Cause>, AllocError>
    requires { EachCloneIsEqual A.is_clone }
    ensures { WritesParts axis index (acting T.held first.now) (acting T.held second.now) array.old array.new result }
{
    let refused = point_refusal(array.shape(), axis, index);
    if refused.is_some() {
        return Ok(refused);
    }
    nothing_outside(array);
    let refused = with_halves_mut(array, Axis(axis), index, ActOnParts { first, second })?;
    nothing_outside(array);
    Ok(refused)
}
