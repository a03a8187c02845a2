//! Calls that return views of several parts of an array at once, to be written. Each part is named by a list of slices,
//! and no two parts share a place.
#![tactic(auto, unfolding(crate::specs::ArrayMeaning::meaning_of, crate::specs::ArrayMeaning::memory_layout_of))]

ghost use Rattle.std.specs.Prelude.{◌≡◌};
ghost use Rattle.std.specs.Borrow.{sem};
ghost use Rattle.nd_elements.specs.StoragePlaces.{ShareNoPlace};
ghost use Rattle.nd_elements.specs.BorrowedAndOwnedStorages.{held_by};
ghost use Rattle.nd_layout.specs.LayoutStepsOfCalls.{placement_of};
ghost use Rattle.nd_array_core.specs.ArrayMeaning.{shape_of, place_at, layout_offset};
ghost use Rattle.nd_array_core.specs.PartsOfArrays.{sliced_part, ShowsPart};
ghost use Rattle.nd_array_core.specs.layout.MultiSlice.{TwoFit, ThreeFit, FourFit, ThreeShareNoPlace, FourShareNoPlace, TwoHeld, ThreeHeld, FourHeld, ThreeApart, FourApart, TakenBy};
ghost use Rattle.nd_array_core.specs.layout.ArrayAfterMutableView.{tie_of};
ghost use Rattle.nd_array_core.specs.scoped.ViewTasks.{AreApart};

use super::slices::sliced_by;
use super::splits::{part, tied_part};
use crate::base::array::{ArrayBase, ArrayViewMut};
use nd_elements::storage::{DataMut, RegionRepr, ViewMutRepr};
use nd_layout::Layout;
use nd_shape_and_slice::{Dimension, SliceArg};
use std::snapshot::Snapshot;

/// Returns views of the elements of `storage` that each of two layouts names. The layouts must name no place in common.
/// The first view has the tie `tie`, the name by which the lending array's contract refers to it.
fn two_parts<'a, A, D: Dimension, E: Dimension>(
    mut storage: ViewMutRepr<'a, A>,
    layouts: (Layout<D, D::Strides>, Layout<E, E::Strides>),
    tie: Snapshot<usize>,
) -> (ArrayViewMut<'a, A, D>, ArrayViewMut<'a, A, E>)
    requires held { TwoHeld (held_by storage) (placement_of layouts.0) (placement_of layouts.1) }
    requires apart { AreApart (placement_of layouts.0) (placement_of layouts.1) }
    ensures tied { tie_of result.0 ≡ tie.value }
    ensures first { TakenBy (held_by storage.entry) (placement_of layouts.0) result.0 }
    ensures second { TakenBy (held_by storage.entry) (placement_of layouts.1) result.1 }
    ensures apart { ShareNoPlace (place_at result.0) (place_at result.1) }
{
    let (one, two) = layouts;
    let first = tied_part(&mut storage, one, tie);
    (first, part(&mut storage, two))
}

/// Returns views of the elements of `storage` that each of three layouts names. The layouts must name no place in
/// common. The first view has the tie `tie`, the name by which the lending array's contract refers to it.
fn three_parts<'a, A, D: Dimension, E: Dimension, F: Dimension>(
    mut storage: ViewMutRepr<'a, A>,
    layouts: (
        Layout<D, D::Strides>,
        (Layout<E, E::Strides>, Layout<F, F::Strides>),
    ),
    tie: Snapshot<usize>,
) -> (
    ArrayViewMut<'a, A, D>,
    ArrayViewMut<'a, A, E>,
    ArrayViewMut<'a, A, F>,
)
    requires held { ThreeHeld (held_by storage)
        (placement_of layouts.0) (placement_of layouts.1.0) (placement_of layouts.1.1) }
    requires apart { ThreeApart (placement_of layouts.0) (placement_of layouts.1.0) (placement_of layouts.1.1) }
    ensures tied { tie_of result.0 ≡ tie.value }
    ensures first { TakenBy (held_by storage.entry) (placement_of layouts.0) result.0 }
    ensures second { TakenBy (held_by storage.entry) (placement_of layouts.1.0) result.1 }
    ensures third { TakenBy (held_by storage.entry) (placement_of layouts.1.1) result.2 }
    ensures apart { ThreeShareNoPlace (place_at result.0) (place_at result.1) (place_at result.2) }
{
    let (one, others) = layouts;
    let first = tied_part(&mut storage, one, tie);
    let (second, third) = two_parts(storage, others, Snapshot::of(&0));
    (first, second, third)
}

/// Returns views of the elements of `storage` that each of four layouts names. The layouts must name no place in
/// common. The first view has the tie `tie`, the name by which the lending array's contract refers to it.
fn four_parts<'a, A, D: Dimension, E: Dimension, F: Dimension, G: Dimension>(
    mut storage: ViewMutRepr<'a, A>,
    layouts: (
        Layout<D, D::Strides>,
        (
            Layout<E, E::Strides>,
            (Layout<F, F::Strides>, Layout<G, G::Strides>),
        ),
    ),
    tie: Snapshot<usize>,
) -> (
    ArrayViewMut<'a, A, D>,
    ArrayViewMut<'a, A, E>,
    ArrayViewMut<'a, A, F>,
    ArrayViewMut<'a, A, G>,
)
    requires held { FourHeld (held_by storage)
        (placement_of layouts.0) (placement_of layouts.1.0) (placement_of layouts.1.1.0) (placement_of layouts.1.1.1) }
    requires apart { FourApart
        (placement_of layouts.0) (placement_of layouts.1.0) (placement_of layouts.1.1.0) (placement_of layouts.1.1.1) }
    ensures tied { tie_of result.0 ≡ tie.value }
    ensures first { TakenBy (held_by storage.entry) (placement_of layouts.0) result.0 }
    ensures second { TakenBy (held_by storage.entry) (placement_of layouts.1.0) result.1 }
    ensures third { TakenBy (held_by storage.entry) (placement_of layouts.1.1.0) result.2 }
    ensures fourth { TakenBy (held_by storage.entry) (placement_of layouts.1.1.1) result.3 }
    ensures apart { FourShareNoPlace (place_at result.0) (place_at result.1) (place_at result.2) (place_at result.3) }
{
    let (one, others) = layouts;
    let first = tied_part(&mut storage, one, tie);
    let (second, third, fourth) = three_parts(storage, others, Snapshot::of(&0));
    (first, second, third, fourth)
}

/// Arrays of which several parts can be lent at once, to be written. `multi_slice_mut` is a method of this trait, where
/// in ndarray it is one of the array.
pub trait MultiSliceMut<'a, M> {
    /// The type of the views, one for each list.
    type Output;

    /// Says that the lists fit the array's shape (`SliceArg::fits`), and that no two of them name an element in common
    /// (`slices_intersect`).
    ghost fit: { Self → M → Type 0 };

    /// Returns views of the parts that the lists name, to be read and written. Once they have ended, a caller knows
    /// that the array's shape, strides and places are as before (`refilled`), and that each index that no list names
    /// has the element that it had (`kept`). It doesn't know which elements were written.
    fn multi_slice_mut(&'a mut self, lists: M) -> Self::Output
        requires { fit self.old lists };
}

impl<'a, S: DataMut, D: Dimension, I: SliceArg<D>, J: SliceArg<D>> MultiSliceMut<'a, (I, J)>
    for ArrayBase<S, D>
where
    S::Elem: 'a,
{
    ghost use Rattle.nd_array_core.specs.layout.ArrayAfterMutableView.{array_follows_part, tie_of, LeavesRefilled};
    ghost use Rattle.nd_array_core.specs.layout.SeveralMutableViews.{left_at, pass_either, places_of, LeavesButSlices};

    type Output = (
        ArrayViewMut<'a, S::Elem, I::OutDim>,
        ArrayViewMut<'a, S::Elem, J::OutDim>,
    );

    ghost fit = { λ a lists. TwoFit (shape_of a) (I.elements_of lists.0) (J.elements_of lists.1) };

    fn multi_slice_mut(
        &'a mut self,
        lists: (I, J),
    ) -> (
        ArrayViewMut<'a, S::Elem, I::OutDim>,
        ArrayViewMut<'a, S::Elem, J::OutDim>,
    )
        requires { TwoFit (shape_of self.old) (I.elements_of lists.0) (J.elements_of lists.1) }
        ensures* writes_back { sem 𝓛 (array_follows_part S.row S.Elem.row D.row D.Strides.row S.Data D.Dimension D.AxisCount D.Strides.StrideList self.entry (tie_of result.0) (pass_either (places_of result.0) (places_of result.1))) }
        ensures first { ShowsPart self.old (sliced_part self.old (I.elements_of lists.0)) result.0 }
        ensures second { ShowsPart self.old (sliced_part self.old (J.elements_of lists.1)) result.1 }
        ensures apart { ShareNoPlace (place_at result.0) (place_at result.1) }
        ensures refilled { LeavesRefilled S.frame self.old
            (left_at self.old (pass_either (places_of result.0) (places_of result.1))) }
        ensures kept { LeavesButSlices self.old (left_at self.old (pass_either (places_of result.0) (places_of result.1)))
            (I.elements_of lists.0) (J.elements_of lists.1) }
    {
        let one = sliced_by(&self.layout, lists.0);
        let two = sliced_by(&self.layout, lists.1);
        let pair = (one, two);
        let RegionRepr { region, tie } = self.lent_named(&pair);
        two_parts(ViewMutRepr::of_region(region), pair, tie)
    }
}

impl<'a, S: DataMut, D: Dimension, I: SliceArg<D>, J: SliceArg<D>, K: SliceArg<D>> MultiSliceMut<
    'a,
    (I, J, K),
> for ArrayBase<S, D>
where
    S::Elem: 'a,
{
    ghost use Rattle.nd_array_core.specs.layout.ArrayAfterMutableView.{array_follows_part, tie_of, LeavesRefilled};
    ghost use Rattle.nd_array_core.specs.layout.SeveralMutableViews.{left_at, pass_either, pass_any_of_three, places_of, LeavesButThreeSlices};

    type Output = (
        ArrayViewMut<'a, S::Elem, I::OutDim>,
        ArrayViewMut<'a, S::Elem, J::OutDim>,
        ArrayViewMut<'a, S::Elem, K::OutDim>,
    );

    ghost fit = { λ a lists. ThreeFit (shape_of a) (I.elements_of lists.0) (J.elements_of lists.1) (K.elements_of lists.2) };

    fn multi_slice_mut(
        &'a mut self,
        lists: (I, J, K),
    ) -> (
        ArrayViewMut<'a, S::Elem, I::OutDim>,
        ArrayViewMut<'a, S::Elem, J::OutDim>,
        ArrayViewMut<'a, S::Elem, K::OutDim>,
    )
        requires { ThreeFit (shape_of self.old) (I.elements_of lists.0) (J.elements_of lists.1) (K.elements_of lists.2) }
        ensures* writes_back { sem 𝓛 (array_follows_part S.row S.Elem.row D.row D.Strides.row S.Data D.Dimension D.AxisCount D.Strides.StrideList self.entry (tie_of result.0) (pass_any_of_three (places_of result.0) (places_of result.1) (places_of result.2))) }
        ensures first { ShowsPart self.old (sliced_part self.old (I.elements_of lists.0)) result.0 }
        ensures second { ShowsPart self.old (sliced_part self.old (J.elements_of lists.1)) result.1 }
        ensures third { ShowsPart self.old (sliced_part self.old (K.elements_of lists.2)) result.2 }
        ensures apart { ThreeShareNoPlace (place_at result.0) (place_at result.1) (place_at result.2) }
        ensures refilled { LeavesRefilled S.frame self.old
            (left_at self.old (pass_any_of_three (places_of result.0) (places_of result.1) (places_of result.2))) }
        ensures kept { LeavesButThreeSlices self.old
            (left_at self.old (pass_any_of_three (places_of result.0) (places_of result.1) (places_of result.2)))
            (I.elements_of lists.0) (J.elements_of lists.1) (K.elements_of lists.2) }
    {
        let one = sliced_by(&self.layout, lists.0);
        let two = sliced_by(&self.layout, lists.1);
        let three = sliced_by(&self.layout, lists.2);
        let triple = (one, (two, three));
        let RegionRepr { region, tie } = self.lent_named(&triple);
        three_parts(ViewMutRepr::of_region(region), triple, tie)
    }
}

impl<
    'a,
    S: DataMut,
    D: Dimension,
    I: SliceArg<D>,
    J: SliceArg<D>,
    K: SliceArg<D>,
    L: SliceArg<D>,
> MultiSliceMut<'a, (I, J, K, L)> for ArrayBase<S, D>
where
    S::Elem: 'a,
{
    ghost use Rattle.nd_array_core.specs.layout.ArrayAfterMutableView.{array_follows_part, tie_of, LeavesRefilled};
    ghost use Rattle.nd_array_core.specs.layout.SeveralMutableViews.{left_at, pass_either, pass_any_of_four, places_of, LeavesButFourSlices};

    type Output = (
        ArrayViewMut<'a, S::Elem, I::OutDim>,
        ArrayViewMut<'a, S::Elem, J::OutDim>,
        ArrayViewMut<'a, S::Elem, K::OutDim>,
        ArrayViewMut<'a, S::Elem, L::OutDim>,
    );

    ghost fit = { λ a lists. FourFit (shape_of a) (I.elements_of lists.0) (J.elements_of lists.1) (K.elements_of lists.2) (L.elements_of lists.3) };

    fn multi_slice_mut(
        &'a mut self,
        lists: (I, J, K, L),
    ) -> (
        ArrayViewMut<'a, S::Elem, I::OutDim>,
        ArrayViewMut<'a, S::Elem, J::OutDim>,
        ArrayViewMut<'a, S::Elem, K::OutDim>,
        ArrayViewMut<'a, S::Elem, L::OutDim>,
    )
        requires { FourFit (shape_of self.old) (I.elements_of lists.0) (J.elements_of lists.1) (K.elements_of lists.2) (L.elements_of lists.3) }
        ensures* writes_back { sem 𝓛 (array_follows_part S.row S.Elem.row D.row D.Strides.row S.Data D.Dimension D.AxisCount D.Strides.StrideList self.entry (tie_of result.0) (pass_any_of_four (places_of result.0) (places_of result.1) (places_of result.2) (places_of result.3))) }
        ensures first { ShowsPart self.old (sliced_part self.old (I.elements_of lists.0)) result.0 }
        ensures second { ShowsPart self.old (sliced_part self.old (J.elements_of lists.1)) result.1 }
        ensures third { ShowsPart self.old (sliced_part self.old (K.elements_of lists.2)) result.2 }
        ensures fourth { ShowsPart self.old (sliced_part self.old (L.elements_of lists.3)) result.3 }
        ensures apart { FourShareNoPlace (place_at result.0) (place_at result.1) (place_at result.2) (place_at result.3) }
        ensures refilled { LeavesRefilled S.frame self.old
            (left_at self.old (pass_any_of_four (places_of result.0) (places_of result.1) (places_of result.2) (places_of result.3))) }
        ensures kept { LeavesButFourSlices self.old
            (left_at self.old (pass_any_of_four (places_of result.0) (places_of result.1) (places_of result.2) (places_of result.3)))
            (I.elements_of lists.0) (J.elements_of lists.1) (K.elements_of lists.2) (L.elements_of lists.3) }
    {
        let one = sliced_by(&self.layout, lists.0);
        let two = sliced_by(&self.layout, lists.1);
        let three = sliced_by(&self.layout, lists.2);
        let four = sliced_by(&self.layout, lists.3);
        let quadruple = (one, (two, (three, four)));
        let RegionRepr { region, tie } = self.lent_named(&quadruple);
        four_parts(ViewMutRepr::of_region(region), quadruple, tie)
    }
}

impl<'a, A, D: Dimension> ArrayViewMut<'a, A, D> {
    /// Returns the views of the parts that the lists name, in place of this view. Each list must fit the shape
    /// (`SliceArg::fits`), and no two may name an element in common (`slices_intersect`). This is ndarray's
    /// `multi_slice_move`.
    pub fn multi_slice_move<M: MultiSliceArg<ArrayViewMut<'a, A, D>>>(self, lists: M) -> M::Output
        requires { M.fits lists self }
        ensures { M.takes lists self.entry result }
    {
        lists.parts_of(self)
    }
}

/// A pair, a triple or a quadruple of lists of slices, for views of the type V. This is ndarray's `MultiSliceArg`.
pub trait MultiSliceArg<V> {
    /// The type of the views, one for each list.
    type Output;

    /// Says that the lists fit the view's shape (`SliceArg::fits`), and that no two of them name an element in common
    /// (`slices_intersect`).
    ghost fits: { Self → V → Type 0 };

    /// Says how the parts relate to the view.
    ghost takes: { Self → V → Self.Output → Type 0 };

    /// Returns views of the parts of a view that the lists name.
    fn parts_of(self, view: V) -> Self::Output
        requires { fits self view }
        ensures { takes self view result };
}

impl<'a, A: 'a, D: Dimension, I: SliceArg<D>, J: SliceArg<D>> MultiSliceArg<ArrayViewMut<'a, A, D>>
    for (I, J) {
    type Output = (
        ArrayViewMut<'a, A, I::OutDim>,
        ArrayViewMut<'a, A, J::OutDim>,
    );

    ghost fits = { λ lists view. TwoFit (shape_of view) (I.elements_of lists.0) (J.elements_of lists.1) };

    ghost takes = { λ lists view out. ShowsPart view (sliced_part view (I.elements_of lists.0)) out.0 × ShowsPart view (sliced_part view (J.elements_of lists.1)) out.1 × ShareNoPlace (place_at out.0) (place_at out.1) };

    fn parts_of(self, view: ArrayViewMut<'a, A, D>) -> Self::Output {
        let one = sliced_by(&view.layout, self.0);
        let two = sliced_by(&view.layout, self.1);
        two_parts(view.storage, (one, two), Snapshot::of(&0))
    }
}

impl<'a, A: 'a, D: Dimension, I: SliceArg<D>, J: SliceArg<D>, K: SliceArg<D>> MultiSliceArg<
    ArrayViewMut<'a, A, D>,
> for (I, J, K) {
    type Output = (
        ArrayViewMut<'a, A, I::OutDim>,
        ArrayViewMut<'a, A, J::OutDim>,
        ArrayViewMut<'a, A, K::OutDim>,
    );

    ghost fits = { λ lists view. ThreeFit (shape_of view) (I.elements_of lists.0) (J.elements_of lists.1) (K.elements_of lists.2) };

    ghost takes = { λ lists view out. ShowsPart view (sliced_part view (I.elements_of lists.0)) out.0 × ShowsPart view (sliced_part view (J.elements_of lists.1)) out.1 × ShowsPart view (sliced_part view (K.elements_of lists.2)) out.2 × ThreeShareNoPlace (place_at out.0) (place_at out.1) (place_at out.2) };

    fn parts_of(self, view: ArrayViewMut<'a, A, D>) -> Self::Output {
        let one = sliced_by(&view.layout, self.0);
        let two = sliced_by(&view.layout, self.1);
        let three = sliced_by(&view.layout, self.2);
        three_parts(view.storage, (one, (two, three)), Snapshot::of(&0))
    }
}

impl<
    'a,
    A: 'a,
    D: Dimension,
    I: SliceArg<D>,
    J: SliceArg<D>,
    K: SliceArg<D>,
    L: SliceArg<D>,
> MultiSliceArg<ArrayViewMut<'a, A, D>> for (I, J, K, L) {
    type Output = (
        ArrayViewMut<'a, A, I::OutDim>,
        ArrayViewMut<'a, A, J::OutDim>,
        ArrayViewMut<'a, A, K::OutDim>,
        ArrayViewMut<'a, A, L::OutDim>,
    );

    ghost fits = { λ lists view. FourFit (shape_of view) (I.elements_of lists.0) (J.elements_of lists.1) (K.elements_of lists.2) (L.elements_of lists.3) };

    ghost takes = { λ lists view out. ShowsPart view (sliced_part view (I.elements_of lists.0)) out.0 × ShowsPart view (sliced_part view (J.elements_of lists.1)) out.1 × ShowsPart view (sliced_part view (K.elements_of lists.2)) out.2 × ShowsPart view (sliced_part view (L.elements_of lists.3)) out.3 × FourShareNoPlace (place_at out.0) (place_at out.1) (place_at out.2) (place_at out.3) };

    fn parts_of(self, view: ArrayViewMut<'a, A, D>) -> Self::Output {
        let one = sliced_by(&view.layout, self.0);
        let two = sliced_by(&view.layout, self.1);
        let three = sliced_by(&view.layout, self.2);
        let four = sliced_by(&view.layout, self.3);
        four_parts(view.storage, (one, (two, (three, four))), Snapshot::of(&0))
    }
}
