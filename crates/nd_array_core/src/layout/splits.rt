//! Calls that split a view by value at a coordinate of an axis. Parts to be written share no place.
#![tactic(auto, unfolding(crate::specs::ArrayMeaning::meaning_of, crate::specs::ArrayMeaning::memory_layout_of))]

ghost use Rattle.std.specs.Prelude.{◌≡◌, ◌<◌, ◌≤◌, ℕ, length, slice_index};
ghost use Rattle.nd_shape_and_slice.specs.ShapesAndIndexOrders.{size_of};
ghost use Rattle.nd_shape_and_slice.specs.LayoutIndexMaps.{lower_shape, upper_shape, upper_index};
ghost use Rattle.nd_layout.specs.LayoutStepsOfCalls.{placement_of, IsStepOf, KeepsApart};
ghost use Rattle.nd_elements.specs.StoragePlaces.{ShareNoPlace};
ghost use Rattle.nd_elements.specs.BorrowedAndOwnedStorages.{held_by};
ghost use Rattle.nd_array_core.specs.ArrayMeaning.{shape_of, place_at};
ghost use Rattle.nd_array_core.specs.PartsOfArrays.{lower_part, upper_part, ShowsPart};
ghost use Rattle.nd_array_core.specs.layout.MultiSlice.{HoldsOnceBy, TakenBy};
ghost use Rattle.nd_array_core.specs.layout.ViewsOfStorageParts.{LeavesOutside};
ghost use Rattle.nd_array_core.specs.layout.ArrayAfterMutableView.{tie_of};
ghost use Rattle.nd_array_core.specs.scoped.ViewTasks.{AreApart};

use crate::base::array::{ArrayBase, ArrayView, ArrayViewMut};
use nd_elements::storage::{RegionRepr, ViewMutRepr, ViewRepr};
use nd_layout::Layout;
use nd_shape_and_slice::{Axis, Dimension, StrideList};
use std::snapshot::Snapshot;

impl<'a, A, D: Dimension> ArrayView<'a, A, D> {
    /// Returns two views: one of the coordinates of an axis below `index`, and one of those from `index` on. The axis
    /// must be below `ndim`, and `index` at most its length. This is ndarray's `ArrayView::split_at`.
    #[inline]
    pub fn split_at(self, axis: Axis, index: usize) -> (Self, Self)
        requires axis { axis.0 < length (shape_of self) }
        requires within { index ≤ slice_index (shape_of self) axis.0 }
        ensures lower { ShowsPart self.entry (lower_part self.entry axis.0 index) result.0 }
        ensures upper { ShowsPart self.entry (upper_part self.entry axis.0 index) result.1 }
    {
        let mut lower = ArrayBase {
            storage: ViewRepr {
                region: self.storage.region,
            },
            layout: self.layout.copied(),
        };
        let mut upper = self;
        lower.layout.keep_lower(axis.0, index);
        upper.layout.keep_upper(axis.0, index);
        (lower, upper)
    }
}

/// Returns the layouts of the coordinates of `axis` below `index` and of those from `index` on. No two indexes of
/// `layout` may have the same place, and then the two layouts share no place.
#[inline]
pub(crate) fn halves<D: Dimension, T: StrideList>(
    layout: &Layout<D, T>,
    axis: usize,
    index: usize,
) -> (Layout<D, T>, Layout<D, T>)
    requires on { axis < length (D.lengths layout.now.dim) }
    requires within { index ≤ slice_index (D.lengths layout.now.dim) axis }
    requires separated { KeepsApart (placement_of layout.now) }
    ensures lower_lengths { D.lengths result.0.dim ≡ lower_shape (D.lengths layout.now.dim) axis index }
    ensures lower_strides { T.strides_of result.0.strides ≡ T.strides_of layout.now.strides }
    ensures lower { IsStepOf (placement_of layout.now) (placement_of result.0) (λ i. i) }
    ensures upper_lengths { D.lengths result.1.dim ≡ upper_shape (D.lengths layout.now.dim) axis index }
    ensures upper_strides { T.strides_of result.1.strides ≡ T.strides_of layout.now.strides }
    ensures upper { IsStepOf (placement_of layout.now) (placement_of result.1) (upper_index axis index) }
    ensures apart { AreApart (placement_of result.0) (placement_of result.1) }
    ensures lower_offset { result.0.offset ≡ layout.now.offset }
    ensures upper_empty { size_of (D.lengths layout.now.dim) ≡ 0 → result.1.offset ≡ layout.now.offset }
{
    layout.halves(axis, index)
}

/// Takes the elements that `layout` names out of `storage`, and returns a view of them. It has the tie `tie`, the name
/// by which the lending array's contract refers to it.
pub(crate) fn tied_part<'a, A, D: Dimension>(
    storage: &mut ViewMutRepr<'a, A>,
    layout: Layout<D, D::Strides>,
    tie: Snapshot<usize>,
) -> ArrayViewMut<'a, A, D>
    requires { HoldsOnceBy (held_by storage.old) (placement_of layout) }
    ensures tied { tie_of result ≡ tie.value }
    ensures taken { TakenBy (held_by storage.old) (placement_of layout) result }
    ensures left { LeavesOutside (held_by storage.old) (held_by storage.new) (placement_of layout) }
{
    let part = storage.split(&layout);
    ArrayBase {
        storage: RegionRepr {
            region: part.region,
            tie,
        },
        layout,
    }
}

/// Takes the elements that `layout` names out of `storage`, and returns a view of them to which no lending array's
/// contract refers.
pub(crate) fn part<'a, A, D: Dimension>(
    storage: &mut ViewMutRepr<'a, A>,
    layout: Layout<D, D::Strides>,
) -> ArrayViewMut<'a, A, D>
    requires { HoldsOnceBy (held_by storage.old) (placement_of layout) }
    ensures taken { TakenBy (held_by storage.old) (placement_of layout) result }
    ensures left { LeavesOutside (held_by storage.old) (held_by storage.new) (placement_of layout) }
{
    tied_part(storage, layout, Snapshot::of(&0))
}

impl<'a, A, D: Dimension> ArrayViewMut<'a, A, D> {
    /// Returns two views: one of the coordinates of an axis below `index`, and one of those from `index` on. The axis
    /// must be below `ndim`, and `index` at most its length. This is ndarray's `ArrayViewMut::split_at`.
    #[inline]
    pub fn split_at(self, axis: Axis, index: usize) -> (Self, Self)
        requires axis { axis.0 < length (shape_of self) }
        requires within { index ≤ slice_index (shape_of self) axis.0 }
        ensures lower { ShowsPart self.entry (lower_part self.entry axis.0 index) result.0 }
        ensures upper { ShowsPart self.entry (upper_part self.entry axis.0 index) result.1 }
        ensures apart { ShareNoPlace (place_at result.0) (place_at result.1) }
    {
        let (lower, upper) = halves(&self.layout, axis.0, index);
        let mut storage = self.storage;
        (part(&mut storage, lower), part(&mut storage, upper))
    }
}
