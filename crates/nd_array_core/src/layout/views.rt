//! Views of a whole array, to be read or to be written; mutable views of what a layout names, which the other `_mut` calls
//! use; and views of a view for a shorter lifetime.
#![tactic(auto, unfolding(crate::specs::ArrayMeaning::meaning_of, crate::specs::ArrayMeaning::memory_layout_of))]

ghost use Rattle.std.specs.Prelude.{◌≡◌, ℕ, Bool, List};
ghost use Rattle.std.specs.Borrow.{sem};
ghost use Rattle.nd_elements.specs.StoragePlaces.{kept_at};
ghost use Rattle.nd_elements.specs.BorrowedAndOwnedStorages.{held_by};
ghost use Rattle.nd_array_core.specs.layout.ViewsOfStorageParts.{ViewsBy};
ghost use Rattle.nd_array_core.specs.scoped.ViewTasks.{HoldsBy};
ghost use Rattle.nd_layout.specs.LayoutStepsOfCalls.{placement_of, KeepsApart};
ghost use Rattle.nd_array_core.specs.ArrayMeaning.{shape_of, element_at, place_at, layout_strides, layout_offset};
ghost use Rattle.nd_array_core.specs.PartsOfArrays.{ShowsWhole, BecomesWhole};

use crate::base::array::{ArrayBase, ArrayView, ArrayViewMut};
use nd_elements::storage::{Data, DataMut, RegionRepr, ViewMutRepr, ViewRepr};
use nd_layout::Layout;
use nd_shape_and_slice::{Dimension, StrideList};

/// A value that names places of a storage: a layout, or a pair of such values.
pub trait NamesPlaces {
    ghost named: { Self → ℕ → Bool };
}

impl<D: Dimension, T: StrideList> NamesPlaces for Layout<D, T> {
    ghost use Rattle.nd_array_core.specs.layout.SeveralMutableViews.{named_of};

    ghost named = { λ layout. named_of (placement_of layout) };
}

impl<M: NamesPlaces, N: NamesPlaces> NamesPlaces for (M, N) {
    ghost use Rattle.nd_array_core.specs.layout.SeveralMutableViews.{pass_either};

    ghost named = { λ both. pass_either (M.named both.0) (N.named both.1) };
}

impl<S: Data, D: Dimension> ArrayBase<S, D> {
    /// Returns a read-only view of the array, with the same strides. This is ndarray's `view`.
    #[inline]
    pub fn view(&self) -> ArrayView<'_, S::Elem, D>
        ensures whole { ShowsWhole self.now result }
    {
        ArrayBase {
            storage: self.storage.borrowed(),
            layout: self.layout.copied(),
        }
    }
}

impl<S: DataMut, D: Dimension> ArrayBase<S, D> {
    ghost use Rattle.nd_array_core.specs.layout.ArrayAfterMutableView.{array_follows_part, left_by, lent_places, tie_of, LeavesBut, LeavesPlacesBut, LeavesRefilled};

    /// Lends the places of the array's storage that `_named` names, as a storage of a mutable view. The array's
    /// contract refers to it by its tie.
    pub(crate) fn lent_named<N: NamesPlaces>(&mut self, _named: &N) -> ViewMutRepr<'_, S::Elem>
        ensures* writes_back { sem 𝓛 (array_follows_part S.row S.Elem.row D.row D.Strides.row S.Data D.Dimension D.AxisCount D.Strides.StrideList self.entry result.tie.value (N.named _named.now)) }
        ensures elements { (p : ℕ) → held_by result p ≡ kept_at (N.named _named.now) (S.stored self.old.storage) p }
    {
        ViewMutRepr::of_region(self.storage.lend())
    }

    /// Returns a mutable view of the places of the array's storage that `layout` names. The storage must hold something
    /// at each of them, and no two indexes may have the same place.
    pub(crate) fn lent_as<E: Dimension>(
        &mut self,
        layout: Layout<E, E::Strides>,
    ) -> ArrayViewMut<'_, S::Elem, E>
        requires holds { HoldsBy (S.stored self.old.storage) (placement_of layout) }
        requires separated { KeepsApart (placement_of layout) }
        ensures* writes_back { sem 𝓛 (array_follows_part S.row S.Elem.row D.row D.Strides.row S.Data D.Dimension D.AxisCount D.Strides.StrideList self.entry (tie_of result) (lent_places result)) }
        ensures seen { ViewsBy (S.stored self.old.storage) (placement_of layout) result }
        ensures offset { layout_offset result ≡ layout.offset }
        ensures refilled { LeavesRefilled S.frame self.old (left_by self.old result) }
        ensures others { LeavesPlacesBut (place_at result) self.old (left_by self.old result) }
    {
        ArrayBase {
            storage: self.lent_named(&layout),
            layout,
        }
    }

    /// Returns a view of the array, to be read and written, with the same strides. This is ndarray's `view_mut`.
    ///
    /// Once the view has ended, a caller knows that the shape, the strides and the places of the array are as before,
    /// and so are its borrow and the places at which its storage holds something (`refilled`); and that each place
    /// which isn't one of the view's holds what it held (`others`). It doesn't know which elements were written: for
    /// that, lend the view for a call (`with_view_mut`).
    pub fn view_mut(&mut self) -> ArrayViewMut<'_, S::Elem, D>
        ensures* writes_back { sem 𝓛 (array_follows_part S.row S.Elem.row D.row D.Strides.row S.Data D.Dimension D.AxisCount D.Strides.StrideList self.entry (tie_of result) (lent_places result)) }
        ensures whole { ShowsWhole self.old result }
        ensures refilled { LeavesRefilled S.frame self.old (left_by self.old result) }
        ensures others { LeavesPlacesBut (place_at result) self.old (left_by self.old result) }
    {
        let layout = self.layout.copied();
        self.lent_as(layout)
    }
}

impl<'a, A, D: Dimension> ArrayViewMut<'a, A, D> {
    /// Returns the view itself, by value, with a shorter lifetime. This is ndarray's `ArrayViewMut::reborrow`.
    pub fn reborrow<'b>(self) -> ArrayViewMut<'b, A, D>
    where
        'a: 'b,
        ensures whole { BecomesWhole self.entry result }
    {
        ArrayBase {
            storage: RegionRepr {
                region: self.storage.region.shortened(),
                tie: self.storage.tie,
            },
            layout: self.layout,
        }
    }
}

impl<'a, A, D: Dimension> ArrayView<'a, A, D> {
    /// Returns the view itself, by value, with a shorter lifetime. This is ndarray's `ArrayView::reborrow`.
    pub fn reborrow<'b>(self) -> ArrayView<'b, A, D>
    where
        'a: 'b,
        ensures whole { ShowsWhole self.entry result }
    {
        let layout = self.layout;
        ArrayBase {
            storage: ViewRepr {
                region: self.storage.region.shortened(),
            },
            layout,
        }
    }
}
