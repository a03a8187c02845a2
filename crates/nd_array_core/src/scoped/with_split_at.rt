//! Calls that lend a task mutable views of two parts of an array, which share no place, while they run.
#![tactic(auto, unfolding(crate::specs::ArrayMeaning::meaning_of, crate::specs::ArrayMeaning::memory_layout_of))]

ghost use Rattle.std.specs.Prelude.{◌≡◌, ◌≤◌, ◌<◌, ℕ, length, slice_index};
ghost use Rattle.std.specs.Option.{is_some};
ghost use Rattle.nd_region.specs.Region.{region_stored, borrow_of};
ghost use Rattle.nd_array_core.specs.ArrayInStorage.{PlacedArray};
ghost use Rattle.nd_array_core.specs.scoped.ViewTasks.{view_frame, lent_frame, lent_view, CanBeSeen, IsDoneOnViews, LiesBy, HoldsBy, AreApart, IsWithin, AsksOfPair, KeepsUnnamed, KeepsUnnamedByTwo, shown_under, IsDoneUnderBoth, IsDoneOnTwo, IsDoneInParts, KeepsOutsideTwo};
ghost use Rattle.nd_layout.specs.LayoutStepsOfCalls.{placement_of};
ghost use Rattle.nd_array_core.specs.scoped.TasksOnParts.{AsksOfHalves, IsDoneOnHalves};
ghost use Rattle.nd_array_core.specs.base.ArrayWrites.{KeepsFrame};

use super::with_view_mut::LentView;
use crate::base::array::ArrayBase;
use crate::layout::splits::halves;
use nd_elements::storage::{DataMut, ViewMutRepr};
use nd_layout::Layout;
use nd_region::Region;
use nd_shape_and_slice::{Axis, Dimension, StrideList};

/// A task that works on two mutable views, which are lent to it for the length of a call. It gives back the storage of
/// each view, or of a part that it cut from it, with the same borrow.
pub trait PairTask<A, D: Dimension, E: Dimension>: Drop {
    /// The type of the task's result.
    type Answer;

    /// Says what the task requires of the views.
    ghost pre: { Self → PlacedArray A → PlacedArray A → Type 0 };
    /// Says what is true of the two views as they were lent, of the two as they are given back, and of the answer.
    ghost post: { Self → PlacedArray A → PlacedArray A → PlacedArray A → PlacedArray A → Self.Answer → Type 0 };

    /// Runs the task.
    fn run<'b>(
        self,
        one: LentView<'b, A, D, D::Strides>,
        two: LentView<'b, A, E, E::Strides>,
    ) -> (ViewMutRepr<'b, A>, ViewMutRepr<'b, A>, Self::Answer)
        requires one { CanBeSeen D.lengths D.Strides.strides_of one }
        requires two { CanBeSeen E.lengths E.Strides.strides_of two }
        requires pre { pre self (lent_view D.lengths D.Strides.strides_of one) (lent_view E.lengths E.Strides.strides_of two) }
        ensures one_frame { view_frame result.0 ≡ lent_frame one.entry }
        ensures two_frame { view_frame result.1 ≡ lent_frame two.entry }
        ensures done { IsDoneOnViews D.lengths D.Strides.strides_of E.lengths E.Strides.strides_of (post self) one.entry two.entry result };
}

/// Runs the task on two views of `region` by the layouts `one` and `two`, which must share no place.
fn run_on_split<'b, A, D: Dimension, E: Dimension, K: PairTask<A, D, E>>(
    region: Region<'b, A>,
    one: Layout<D, D::Strides>,
    two: Layout<E, E::Strides>,
    task: K,
) -> (Region<'b, A>, K::Answer)
    requires one { LiesBy (region_stored region) (placement_of one) }
    requires two { LiesBy (region_stored region) (placement_of two) }
    requires apart { AreApart (placement_of one) (placement_of two) }
    requires callable { AsksOfPair (K.pre task) (region_stored region) (placement_of one) (placement_of two) }
    ensures borrow { borrow_of result.0 ≡ borrow_of region.entry }
    ensures done { IsDoneOnTwo (K.post task) one two region.entry result }
{
    let mut region = region;
    let lent = one.copied();
    let answer = region.split_with(
        one.offset,
        one.dim.slice(),
        one.strides.slice(),
        move |part, rest|
            requires one { LiesBy (region_stored part) (placement_of lent) }
            requires two { LiesBy (region_stored rest) (placement_of two) }
            requires pre { K.pre task (shown_under part lent) (shown_under rest two) }
            ensures part { borrow_of result.0 ≡ borrow_of part.entry }
            ensures rest { borrow_of result.1 ≡ borrow_of rest.entry }
            ensures done { IsDoneUnderBoth (K.post task) lent two part.entry rest.entry result }
        {
            let (one, other) = (lent, two);
            let first = LentView {
                region: part,
                offset: one.offset,
                dim: one.dim,
                strides: one.strides,
            };
            let second = LentView {
                region: rest,
                offset: other.offset,
                dim: other.dim,
                strides: other.strides,
            };
            let (first, second, answer) = task.run(first, second);
            (first.region, second.region, answer)
        },
    );
    (region, answer)
}

/// Runs the task on two views of `region` by the layouts `one` and `two`, which must share no place. No other place
/// changes.
fn run_on_either<'b, A, D: Dimension, E: Dimension, K: PairTask<A, D, E>>(
    region: Region<'b, A>,
    one: Layout<D, D::Strides>,
    two: Layout<E, E::Strides>,
    task: K,
) -> (Region<'b, A>, K::Answer)
    requires one { LiesBy (region_stored region) (placement_of one) }
    requires two { LiesBy (region_stored region) (placement_of two) }
    requires apart { AreApart (placement_of one) (placement_of two) }
    requires callable { AsksOfPair (K.pre task) (region_stored region) (placement_of one) (placement_of two) }
    ensures borrow { borrow_of result.0 ≡ borrow_of region.entry }
    ensures done { IsDoneOnTwo (K.post task) one two region.entry result }
    ensures kept { KeepsOutsideTwo region.entry result.0 one two }
{
    let mut region = region;
    let first = one.copied();
    let second = two.copied();
    let answer = region.with_either(
        first.offset,
        first.dim.slice(),
        first.strides.slice(),
        second.offset,
        second.dim.slice(),
        second.strides.slice(),
        move |both|
            requires one { LiesBy (region_stored both) (placement_of one) }
            requires two { LiesBy (region_stored both) (placement_of two) }
            requires apart { AreApart (placement_of one) (placement_of two) }
            requires callable { AsksOfPair (K.pre task) (region_stored both) (placement_of one) (placement_of two) }
            ensures borrow { borrow_of result.0 ≡ borrow_of both.entry }
            ensures done { IsDoneOnTwo (K.post task) one two both.entry result }
        { run_on_split(both, one, two, task) },
    );
    (region, answer)
}

/// Runs the task on two views of `storage` by the layouts `one` and `two`. They must share no place, and their places
/// must be among those of `whole`.
pub(crate) fn with_placement_pair<
    S: DataMut,
    W: Dimension,
    D: Dimension,
    E: Dimension,
    K: PairTask<S::Elem, D, E>,
>(
    storage: &mut S,
    whole: &Layout<W, W::Strides>,
    one: Layout<D, D::Strides>,
    two: Layout<E, E::Strides>,
    task: K,
) -> K::Answer
    requires whole { HoldsBy (S.stored storage.old) (placement_of whole.now) }
    requires one { LiesBy (S.stored storage.old) (placement_of one) }
    requires two { LiesBy (S.stored storage.old) (placement_of two) }
    requires one_within { IsWithin (placement_of one) (placement_of whole.now) }
    requires two_within { IsWithin (placement_of two) (placement_of whole.now) }
    requires apart { AreApart (placement_of one) (placement_of two) }
    requires callable { AsksOfPair (K.pre task) (S.stored storage.old) (placement_of one) (placement_of two) }
    ensures there { (p : ℕ) → is_some (S.stored storage.new p) ≡ is_some (S.stored storage.old p) }
    ensures frame { S.frame storage.new ≡ S.frame storage.old }
    ensures others { KeepsUnnamed (S.stored storage.old) (S.stored storage.new) (placement_of whole.now) }
    ensures kept { KeepsUnnamedByTwo (S.stored storage.old) (S.stored storage.new) (placement_of one) (placement_of two) }
    ensures done { IsDoneInParts (K.post task) S.stored storage.old storage.new one two result }
{
    storage.with_part(
        whole.places(),
        move |region|
            requires one { LiesBy (region_stored region) (placement_of one) }
            requires two { LiesBy (region_stored region) (placement_of two) }
            requires apart { AreApart (placement_of one) (placement_of two) }
            requires callable { AsksOfPair (K.pre task) (region_stored region) (placement_of one) (placement_of two) }
            ensures borrow { borrow_of result.0 ≡ borrow_of region.entry }
            ensures done { IsDoneOnTwo (K.post task) one two region.entry result }
            ensures kept { KeepsOutsideTwo region.entry result.0 one two }
        { run_on_either(region, one, two, task) },
    )
}

impl<S: DataMut, D: Dimension> ArrayBase<S, D> {
    ghost use Rattle.nd_array_core.specs.ArrayMeaning.{shape_of};

    /// Lends the task, for the length of the call, mutable views of two parts of an axis: of the coordinates below
    /// `index`, and of those from `index` on. Afterwards each part has the elements that its view was left with. The
    /// axis must be below `ndim`, and `index` at most its length. ndarray has no such call; the nearest is its
    /// `split_at` of mutable views.
    pub fn with_split_at<K: PairTask<S::Elem, D, D>>(
        &mut self,
        axis: Axis,
        index: usize,
        task: K,
    ) -> K::Answer
        requires axis { axis.0 < length (shape_of self.old) }
        requires within { index ≤ slice_index (shape_of self.old) axis.0 }
        requires callable { AsksOfHalves (K.pre task) self.old axis.0 index }
        ensures frame { KeepsFrame S.frame self.old self.new }
        ensures done { IsDoneOnHalves (K.post task) result self.old self.new axis.0 index }
    {
        let (lower, upper) = halves(&self.layout, axis.0, index);
        with_placement_pair(&mut self.storage, &self.layout, lower, upper, task)
    }
}
