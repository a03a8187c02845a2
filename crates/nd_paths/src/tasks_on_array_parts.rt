//! Calls that run a task on the part of an array to which a path leads, or on the two parts of an axis. A task is
//! written once for arrays over any storage, and its clauses speak of shapes and elements alone.
#![tactic(auto)]

ghost use Rattle.std.specs.Prelude.{◌≡◌, ◌≤◌, ◌<◌, ℕ, None, List, length, slice_index};
ghost use Rattle.nd_array_core.specs.ArrayMeaning.{Meaning, shape_of, meaning_of, storage_of, placed_array};
ghost use Rattle.nd_array_core.specs.base.ArrayWrites.{KeepsFrame};
ghost use Rattle.nd_array_core.specs.scoped.ViewTasks.{view_frame, lent_frame, CanBeSeen};
ghost use Rattle.nd_paths.specs.CallbacksOnViewsAndSplits.{PathMap, AsksAlong, IsDoneAlong, IsDoneAlongPlaced, IsDoneAlongView, AsksOfTwo, AsksOfViews, IsDoneWithTwo, IsDoneWithViews, lent_meaning, meaning_placed, meaning_left, LiesWith, EndsAlong};

use nd_array_core::laws::{distinct_places, elements_have_places};
use nd_array_core::scoped::{LentView, PairTask, ViewTask};
use nd_array_core::{ArrayBase, Data, DataMut, ViewMutRepr};
use nd_shape_and_slice::{Axis, Dimension, IxDyn};

/// A path from an array to a part of it: a list of layout calls, each of which may be refused.
pub trait ArrayPath: Drop {
    /// The type of the cause of a refusal.
    type Refusal;

    /// Returns what the path does with a shape: the cause for which it is refused, the shape of the part, and the map
    /// from the part's indexes to those of the array.
    ghost leads: { Self → PathMap Self.Refusal };

    /// Carries out the layout calls on `array`, and returns what they lead to. If a call is refused, it stops there,
    /// and returns the cause too.
    fn follow<S: Data>(
        self,
        array: ArrayBase<S, IxDyn>,
    ) -> (ArrayBase<S, IxDyn>, Option<Self::Refusal>)
        ensures refused { result.1 ≡ (leads self).cause_against (shape_of array) }
        ensures storage { LiesWith array result.0 }
        ensures end { result.1 ≡ None → EndsAlong (leads self) array result.0 };
}

/// A task that a caller runs on an array over any storage.
pub trait ArrayTask<A>: Drop {
    /// The type of the task's result.
    type Answer;

    /// Says what the task requires of the array.
    ghost pre: { Self → Meaning A → Type 0 };
    /// Says what holds of the array before and after the task, and of the result.
    ghost post: { Self → Meaning A → Meaning A → Self.Answer → Type 0 };

    /// Runs the task.
    fn run<S: DataMut<Elem = A>>(self, array: &mut ArrayBase<S, IxDyn>) -> Self::Answer
        requires { pre self (meaning_of array.old) }
        ensures frame { KeepsFrame S.frame array.old array.new }
        ensures done { post self (meaning_of array.old) (meaning_of array.new) result };
}

/// A task that a caller runs on two arrays over any storage.
pub trait PairOfArraysTask<A>: Drop {
    /// The type of the task's result.
    type Answer;

    /// Says what the task requires of the two arrays.
    ghost pre: { Self → Meaning A → Meaning A → Type 0 };
    /// Says what holds of the two arrays before the task, of the two after it, and of the result.
    ghost post: { Self → Meaning A → Meaning A → Meaning A → Meaning A → Self.Answer → Type 0 };

    /// Runs the task.
    fn run<S: DataMut<Elem = A>>(
        self,
        one: &mut ArrayBase<S, IxDyn>,
        two: &mut ArrayBase<S, IxDyn>,
    ) -> Self::Answer
        requires { pre self (meaning_of one.old) (meaning_of two.old) }
        ensures one_frame { KeepsFrame S.frame one.old one.new }
        ensures two_frame { KeepsFrame S.frame two.old two.new }
        ensures done { post self (meaning_of one.old) (meaning_of two.old) (meaning_of one.new) (meaning_of two.new) result };
}

/// Follows `path` from `array`, and runs the task on what it leads to. If the path is refused, the task isn't run, and
/// the cause is returned.
fn run_along<S: DataMut, P: ArrayPath, K: ArrayTask<S::Elem>>(
    array: ArrayBase<S, IxDyn>,
    path: P,
    task: K,
) -> (ArrayBase<S, IxDyn>, Result<K::Answer, P::Refusal>)
    requires { AsksAlong (P.leads path) (K.pre task) (meaning_placed (placed_array array)) }
    ensures frame { S.frame (storage_of result.0) ≡ S.frame (storage_of array) }
    ensures done { IsDoneAlongPlaced (P.leads path) (K.post task) (placed_array array) (placed_array result.0) result.1 }
{
    distinct_places(&array);
    let (mut end, refused) = path.follow(array);
    match refused {
        Some(cause) => (end, Err(cause)),
        None => {
            elements_have_places(&end);
            let answer = task.run(&mut end);
            elements_have_places(&end);
            (end, Ok(answer))
        }
    }
}

/// The task that follows a path from a mutable view, and runs another task at its end.
#[derive(Drop)]
struct Along<P: Drop, K: Drop> {
    path: P,
    task: K,
}

impl<A, D: Dimension, P: ArrayPath, K: ArrayTask<A>> ViewTask<A, D> for Along<P, K> {
    type Answer = Result<K::Answer, P::Refusal>;

    ghost pre = { λ both v. AsksAlong (P.leads both.path) (K.pre both.task) (meaning_placed v) };

    ghost post = { λ both v w answer. IsDoneAlongPlaced (P.leads both.path) (K.post both.task) v w answer };

    fn run(
        self,
        lent: LentView<'_, A, D, D::Strides>,
    ) -> (ViewMutRepr<'_, A>, Result<K::Answer, P::Refusal>)
        requires sound { CanBeSeen D.lengths D.Strides.strides_of lent }
        requires pre { AsksAlong (P.leads self.path) (K.pre self.task) (lent_meaning D.lengths D.Strides.strides_of lent) }
        ensures frame { view_frame result.0 ≡ lent_frame lent.entry }
        ensures done { IsDoneAlongView D.lengths D.Strides.strides_of (P.leads self.path) (K.post self.task) lent.entry result }
    {
        let view = lent.into_view().into_dyn();
        elements_have_places(&view);
        let (end, answer) = run_along(view, self.path, self.task);
        (end.into_storage(), answer)
    }
}

/// The task that runs another task on two mutable views.
#[derive(Drop)]
struct BothHalves<K: Drop> {
    task: K,
}

impl<A, D: Dimension, K: PairOfArraysTask<A>> PairTask<A, D, D> for BothHalves<K> {
    type Answer = K::Answer;

    ghost pre = { λ both v v'. K.pre both.task (meaning_placed v) (meaning_placed v') };

    ghost post = { λ both v v' w w' answer. K.post both.task (meaning_placed v) (meaning_placed v') (meaning_left v w) (meaning_left v' w') answer };

    fn run<'b>(
        self,
        one: LentView<'b, A, D, D::Strides>,
        two: LentView<'b, A, D, D::Strides>,
    ) -> (ViewMutRepr<'b, A>, ViewMutRepr<'b, A>, K::Answer)
        requires one { CanBeSeen D.lengths D.Strides.strides_of one }
        requires two { CanBeSeen D.lengths D.Strides.strides_of two }
        requires pre { AsksOfViews D.lengths D.Strides.strides_of (K.pre self.task) one two }
        ensures one_frame { view_frame result.0 ≡ lent_frame one.entry }
        ensures two_frame { view_frame result.1 ≡ lent_frame two.entry }
        ensures done { IsDoneWithViews D.lengths D.Strides.strides_of (K.post self.task) one.entry two.entry result }
    {
        let mut lower = one.into_view().into_dyn();
        let mut upper = two.into_view().into_dyn();
        elements_have_places(&lower);
        elements_have_places(&upper);
        let answer = self.task.run(&mut lower, &mut upper);
        elements_have_places(&lower);
        elements_have_places(&upper);
        (lower.into_storage(), upper.into_storage(), answer)
    }
}

/// Runs the task on a mutable view of the part of the array to which the path leads, for the length of the call. Each
/// index of the array that no index of the part leads to keeps its element. If the path is refused, the array stays as
/// it was, and the cause is returned.
pub fn with_path_mut<S: DataMut, D: Dimension, P: ArrayPath, K: ArrayTask<S::Elem>>(
    array: &mut ArrayBase<S, D>,
    path: P,
    task: K,
) -> Result<K::Answer, P::Refusal>
    requires { AsksAlong (P.leads path) (K.pre task) (meaning_of array.old) }
    ensures frame { KeepsFrame S.frame array.old array.new }
    ensures done { IsDoneAlong (P.leads path) (K.post task) (meaning_of array.old) (meaning_of array.new) result }
{
    array.with_view_mut(Along { path, task })
}

/// Runs the task on mutable views of the two parts of an axis, for the length of the call: of the coordinates below
/// `index`, and of those from `index` on. The axis must be below `ndim`, and `index` at most its length.
pub fn with_halves_mut<S: DataMut, D: Dimension, K: PairOfArraysTask<S::Elem>>(
    array: &mut ArrayBase<S, D>,
    axis: Axis,
    index: usize,
    task: K,
) -> K::Answer
    requires axis { axis.0 < length (shape_of array.old) }
    requires within { index ≤ slice_index (shape_of array.old) axis.0 }
    requires asks { AsksOfTwo axis.0 index (K.pre task) (meaning_of array.old) }
    ensures frame { KeepsFrame S.frame array.old array.new }
    ensures done { IsDoneWithTwo axis.0 index (K.post task) (meaning_of array.old) (meaning_of array.new) result }
{
    array.with_split_at(axis, index, BothHalves { task })
}
