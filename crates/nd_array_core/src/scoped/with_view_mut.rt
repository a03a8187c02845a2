//! A call that lends a task a mutable view while it runs.
//!
//! If a mutable view is lent without such a call, then after it has ended a caller's proof knows the array's shape,
//! strides and places, but not which elements were written. This call gets the view's elements back, and so says what
//! the array holds.
#![tactic(auto, unfolding(crate::specs::ArrayMeaning::meaning_of, crate::specs::ArrayMeaning::memory_layout_of))]

ghost use Rattle.std.specs.Prelude.{◌≡◌, ℕ, List};
ghost use Rattle.std.specs.Option.{is_some};
ghost use Rattle.nd_region.specs.Region.{region_stored, borrow_of};
ghost use Rattle.nd_array_core.specs.LayoutLaws.{ShowsStored};
ghost use Rattle.nd_array_core.specs.ArrayInStorage.{PlacedArray, found_at};
ghost use Rattle.nd_elements.specs.BorrowedAndOwnedStorages.{held_by};
ghost use Rattle.nd_array_core.specs.scoped.ViewTasks.{view_frame, lent_frame, lent_view, CanBeSeen, IsDoneOnView, LiesBy, AsksOfPlacement, KeepsUnnamed, shown_under, IsDoneUnder, IsDoneInPart};
ghost use Rattle.nd_layout.specs.LayoutStepsOfCalls.{placement_of};
ghost use Rattle.nd_array_core.specs.base.ArrayWrites.{KeepsFrame};
ghost use Rattle.nd_array_core.specs.scoped.TasksOnParts.{AsksOfWhole, IsDoneOnWhole};

use crate::base::array::{ArrayBase, ArrayViewMut};
use nd_elements::storage::{DataMut, RegionRepr, ViewMutRepr};
use nd_layout::Layout;
use nd_region::Region;
use nd_shape_and_slice::{Dimension, StrideList};
use std::snapshot::Snapshot;

/// A mutable view while it is lent to a task. The task turns it into an array view with `into_view`.
#[derive(Drop)]
pub struct LentView<'a, A, D: Drop, T: Drop> {
    pub(crate) region: Region<'a, A>,
    pub(crate) offset: usize,
    pub(crate) dim: D,
    pub(crate) strides: T,
}

impl<'a, A, D: Dimension> LentView<'a, A, D, D::Strides> {
    ghost use Rattle.nd_array_core.specs.ArrayMeaning.{shape_of, element_at, storage_of, place_at};

    /// Returns the array view that is lent.
    pub fn into_view(self) -> ArrayViewMut<'a, A, D>
        requires { CanBeSeen D.lengths D.Strides.strides_of self }
        ensures shape { shape_of result ≡ (lent_view D.lengths D.Strides.strides_of self.entry).placed_shape }
        ensures places { (i : List ℕ) → place_at result i ≡ (lent_view D.lengths D.Strides.strides_of self.entry).place i }
        ensures elements { ShowsStored (element_at result) (lent_view D.lengths D.Strides.strides_of self.entry) }
        ensures frame { view_frame (storage_of result) ≡ lent_frame self.entry }
    {
        ArrayBase {
            storage: RegionRepr {
                region: self.region,
                tie: Snapshot::of(&0),
            },
            layout: Layout::strided(self.offset, self.dim, self.strides),
        }
    }
}

impl<'a, A, D: Dimension> ArrayViewMut<'a, A, D> {
    ghost use Rattle.nd_array_core.specs.ArrayMeaning.{shape_of, element_at, storage_of, place_at};

    /// Returns the storage of the view, which a task gives back.
    pub fn into_storage(self) -> ViewMutRepr<'a, A>
        ensures same { result ≡ storage_of self.entry }
        ensures elements { (i : List ℕ) → found_at (held_by result) (place_at self.entry i) ≡ element_at self.entry i }
    {
        self.storage
    }
}

/// A task that works on a mutable view, which is lent to it for the length of a call. It gives back the storage of the
/// view, or of a part that it cut from it, with the same borrow.
pub trait ViewTask<A, D: Dimension>: Drop {
    /// The type of the task's result.
    type Answer;

    /// Says what the task requires of the view.
    ghost pre: { Self → PlacedArray A → Type 0 };
    /// Says what holds of the view as it was lent, of the view as it is given back, and of the result.
    ghost post: { Self → PlacedArray A → PlacedArray A → Self.Answer → Type 0 };

    /// Runs the task.
    fn run(self, lent: LentView<'_, A, D, D::Strides>) -> (ViewMutRepr<'_, A>, Self::Answer)
        requires sound { CanBeSeen D.lengths D.Strides.strides_of lent }
        requires pre { pre self (lent_view D.lengths D.Strides.strides_of lent) }
        ensures frame { view_frame result.0 ≡ lent_frame lent.entry }
        ensures done { IsDoneOnView D.lengths D.Strides.strides_of (post self) lent.entry result.0 result.1 };
}

/// Runs the task on a view of `region` by a layout whose places the region has.
pub(crate) fn run_on_placement<'a, A, D: Dimension, K: ViewTask<A, D>>(
    region: Region<'a, A>,
    layout: Layout<D, D::Strides>,
    task: K,
) -> (Region<'a, A>, K::Answer)
    requires sound { LiesBy (region_stored region) (placement_of layout) }
    requires pre { K.pre task (shown_under region layout) }
    ensures borrow { borrow_of result.0 ≡ borrow_of region.entry }
    ensures done { IsDoneUnder (K.post task) layout region.entry result }
{
    let lent = LentView {
        region,
        offset: layout.offset,
        dim: layout.dim,
        strides: layout.strides,
    };
    let (storage, answer) = task.run(lent);
    (storage.region, answer)
}

/// Runs the task on a view of `storage` by a layout whose places the storage has.
pub(crate) fn with_placement<S: DataMut, D: Dimension, K: ViewTask<S::Elem, D>>(
    storage: &mut S,
    layout: &Layout<D, D::Strides>,
    task: K,
) -> K::Answer
    requires sound { LiesBy (S.stored storage.old) (placement_of layout.now) }
    requires callable { AsksOfPlacement (K.pre task) (S.stored storage.old) (placement_of layout.now) }
    ensures there { (p : ℕ) → is_some (S.stored storage.new p) ≡ is_some (S.stored storage.old p) }
    ensures frame { S.frame storage.new ≡ S.frame storage.old }
    ensures done { IsDoneInPart (K.post task) S.stored storage.old storage.new layout.now result }
    ensures kept { KeepsUnnamed (S.stored storage.old) (S.stored storage.new) (placement_of layout.now) }
{
    let lent = layout.copied();
    storage.with_part(
        layout.places(),
        move |region|
            requires sound { LiesBy (region_stored region) (placement_of lent) }
            requires pre { K.pre task (shown_under region lent) }
            ensures borrow { borrow_of result.0 ≡ borrow_of region.entry }
            ensures done { IsDoneUnder (K.post task) lent region.entry result }
        { run_on_placement(region, lent, task) },
    )
}

impl<S: DataMut, D: Dimension> ArrayBase<S, D> {
    ghost use Rattle.nd_array_core.specs.ArrayMeaning.{shape_of, element_at, storage_of, place_at};

    /// Lends the task a mutable view of the array, for the length of the call. Afterwards the array has the elements
    /// that the view was left with. ndarray has no such call; the nearest is its `view_mut`.
    pub fn with_view_mut<K: ViewTask<S::Elem, D>>(&mut self, task: K) -> K::Answer
        requires { AsksOfWhole (K.pre task) self.old }
        ensures frame { KeepsFrame S.frame self.old self.new }
        ensures done { IsDoneOnWhole (K.post task) result self.old self.new }
    {
        with_placement(&mut self.storage, &self.layout, task)
    }
}
