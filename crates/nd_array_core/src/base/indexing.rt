//! Access to the element at an index for reading, and references that live as long as what a view borrows.
#![tactic(auto, unfolding(crate::specs::ArrayMeaning::meaning_of, crate::specs::ArrayMeaning::memory_layout_of))]

ghost use Rattle.std.specs.Prelude.{◌↔◌, ◌≡◌, Bool, false, is_some, IsNone, IsSome, MatchOption, Some, IsTrue};
ghost use Rattle.std.specs.Borrow.{sem};
ghost use Rattle.std.specs.Option.{option_copied};
ghost use Rattle.nd_shape_and_slice.specs.ShapesAndIndexOrders.{in_box, size_of};
ghost use Rattle.nd_shape_and_slice.specs.FirstIndex.{first_index};
ghost use Rattle.nd_layout.specs.LayoutStepsOfCalls.{placement_of};
ghost use Rattle.nd_region.specs.Region.{region_stored, stored_if};
ghost use Rattle.nd_array_core.specs.LastIndex.{last_index, IsLastPlace};
ghost use Rattle.nd_array_core.specs.ArrayMeaning.{shape_of, element_at, place_at};
ghost use Rattle.nd_array_core.specs.base.BorrowBehindMutableView.{region_of, follows_index, may_follow_index, IsElementOrOutside};

use super::array::{ArrayBase, ArrayView, ArrayViewMut};
use nd_elements::storage::{Data, RegionRepr};
use nd_layout::Layout;
use nd_region::Region;
use nd_shape_and_slice::{Dimension, MAX_AXES, NdIndex, StrideList, index_of_rank, is_empty_shape};
use std::ops::Index;

/// Returns the place of the last index of `layout`, or None exactly where the layout has no index.
#[tactic(auto, using(crate::proofs::base_lemmas::LastIndexes::last_inside, crate::proofs::base_lemmas::LastIndexes::last_outside, crate::proofs::base_lemmas::LastIndexes::last_by_rank))]
pub(crate) fn last_place<D: Dimension, T: StrideList>(layout: &Layout<D, T>) -> Option<usize>
    ensures place { IsLastPlace (placement_of layout.now) result }
    ensures none { IsNone result ↔ (size_of (D.lengths layout.now.dim) ≡ 0) }
{
    let lengths = layout.dim.slice();
    if is_empty_shape(lengths) {
        None
    } else {
        let mut coordinates = [0; MAX_AXES];
        let index = &mut coordinates[..lengths.len()];
        index_of_rank(lengths, layout.dim.size() - 1, index);
        Some(layout.place_in_box(index))
    }
}

impl<S: Data, D: Dimension> ArrayBase<S, D> {
    /// Returns the element at an index. The result is None exactly where the index lies outside the shape, as one with
    /// a wrong number of coordinates does. This is ndarray's `get`.
    pub fn get<I: NdIndex<D>>(&self, index: I) -> Option<&S::Elem>
        ensures element { option_copied result ≡ element_at self.now (I.coordinates_of index) }
        ensures within { is_some result ≡ in_box (shape_of self.now) (I.coordinates_of index) }
    {
        let place = self.layout.place_of(index.coordinates().slice())?;
        Some(self.storage.element(place))
    }

    /// Returns the element at the index of zeros, or None exactly where the array has no elements. This is ndarray's
    /// `first`.
    pub fn first(&self) -> Option<&S::Elem>
        ensures element { option_copied result ≡ element_at self.now (first_index (shape_of self.now)) }
        ensures none { IsNone result ↔ (size_of (shape_of self.now) ≡ 0) }
    {
        let first = self.layout.first_place()?;
        Some(self.storage.element(first))
    }

    /// Returns the element at the last index, which is that of the greatest row-major rank. The result is None exactly
    /// where the array has no elements. This is ndarray's `last`.
    pub fn last(&self) -> Option<&S::Elem>
        ensures element { option_copied result ≡ element_at self.now (last_index (shape_of self.now)) }
        ensures none { IsNone result ↔ (size_of (shape_of self.now) ≡ 0) }
    {
        let last = last_place(&self.layout)?;
        Some(self.storage.element(last))
    }

    /// Returns the element at an index, which must lie inside the shape (`get` tells whether it does). This is
    /// ndarray's `uget`.
    pub fn uget<I: NdIndex<D>>(&self, index: I) -> &S::Elem
        requires { IsTrue (in_box (shape_of self.now) (I.coordinates_of index)) }
        ensures { element_at self.now (I.coordinates_of index) ≡ Some result.now }
    {
        let place = self.layout.place_in_box(index.coordinates().slice());
        self.storage.element(place)
    }
}

impl<S: Data, D: Dimension, I: NdIndex<D>> Index<I> for ArrayBase<S, D> {
    type Output = S::Elem;

    ghost can_index = { λ a i. IsTrue (in_box (shape_of a) (I.coordinates_of i)) };

    ghost index_gives = { λ a i x. element_at a (I.coordinates_of i) ≡ Some x };

    fn index(&self, index: I) -> &S::Elem {
        self.uget(index)
    }
}

/// Indexing whose references live as long as what the view borrows, and not only as long as the view. This is ndarray's
/// `IndexLonger`.
pub trait IndexLonger<I> {
    /// The type of the reference to an element.
    type Output;

    /// Says whether an index lies inside the shape.
    ghost has_index: { Self → I → Bool };

    /// Says that a reference shows the element at an index.
    ghost longer_gives: { Self → I → Self.Output → Type 0 };

    /// Returns a reference to the element at an index, which must lie inside the shape. This is ndarray's
    /// `IndexLonger::index`.
    fn index(self, index: I) -> Self::Output
        requires { IsTrue (has_index self index) }
        ensures { longer_gives self index result };

    /// Returns a reference to the element at an index. The result is None exactly where the index lies outside the
    /// shape, as one with a wrong number of coordinates does. This is ndarray's `IndexLonger::get`.
    fn get(self, index: I) -> Option<Self::Output>
        ensures { MatchOption result (has_index self index ≡ false) (λ element. longer_gives self index element) };

    /// Returns a reference to the element at an index, which must lie inside the shape (`get` tells whether it does).
    /// This is ndarray's `IndexLonger::uget`.
    fn uget(self, index: I) -> Self::Output
        requires { IsTrue (has_index self index) }
        ensures { longer_gives self index result };
}

impl<'a, 'b, A, D: Dimension, I: NdIndex<D>> IndexLonger<I> for &'b ArrayView<'a, A, D> {
    type Output = &'a A;

    ghost has_index = { λ view index. in_box (shape_of view.now) (I.coordinates_of index) };

    ghost longer_gives = { λ view index element. element_at view.now (I.coordinates_of index) ≡ Some element.now };

    fn index(self, index: I) -> &'a A {
        IndexLonger::uget(self, index)
    }

    fn get(self, index: I) -> Option<&'a A> {
        let place = self.layout.place_of(index.coordinates().slice())?;
        let region = self.storage.region;
        Some(region.get(place))
    }

    fn uget(self, index: I) -> &'a A {
        let place = self.layout.place_in_box(index.coordinates().slice());
        let region = self.storage.region;
        region.get(place)
    }
}

/// Returns the region of a mutable view, the place in it of the element at `index`, and whether `index` lies inside the
/// shape. If it lies outside, the place has no meaning.
fn sought<'a, A, D: Dimension, I: NdIndex<D>>(
    view: ArrayViewMut<'a, A, D>,
    index: I,
) -> (Region<'a, A>, usize, bool)
    ensures region { result.0 ≡ region_of view.entry }
    ensures within { result.2 ≡ in_box (shape_of view.entry) (I.coordinates_of index) }
    ensures place { IsTrue result.2 → place_at view.entry (I.coordinates_of index) ≡ Some result.1 }
    ensures shown { element_at view.entry (I.coordinates_of index) ≡ stored_if result.2 (region_stored result.0 result.1) }
    ensures there { IsTrue result.2 → IsSome (region_stored result.0 result.1) }
{
    let ArrayBase { storage, layout } = view;
    let RegionRepr { region, tie: _ } = storage;
    match layout.place_of(index.coordinates().slice()) {
        Some(place) => (region, place, true),
        None => (region, 0, false),
    }
}

/// Returns the region of a mutable view, and the place in it of the element at `index`, which must lie inside the
/// shape.
fn sought_in_box<'a, A, D: Dimension, I: NdIndex<D>>(
    view: ArrayViewMut<'a, A, D>,
    index: I,
) -> (Region<'a, A>, usize)
    requires { IsTrue (in_box (shape_of view) (I.coordinates_of index)) }
    ensures region { result.0 ≡ region_of view.entry }
    ensures place { place_at view.entry (I.coordinates_of index) ≡ Some result.1 }
    ensures element { element_at view.entry (I.coordinates_of index) ≡ region_stored result.0 result.1 }
    ensures there { IsSome (region_stored result.0 result.1) }
{
    let ArrayBase { storage, layout } = view;
    let RegionRepr { region, tie: _ } = storage;
    let place = layout.place_in_box(index.coordinates().slice());
    (region, place)
}

/// The references live as long as what the view borrows. When that borrow ends, the place of the index holds what was
/// last written through the reference, and every other place holds what it held. If there is no reference, each place
/// holds what it held.
impl<'a, A, D: Dimension, I: NdIndex<D>> IndexLonger<I> for ArrayViewMut<'a, A, D> {
    type Output = &'a mut A;

    ghost has_index = { λ view index. in_box (shape_of view) (I.coordinates_of index) };

    ghost longer_gives = { λ view index element. element_at view (I.coordinates_of index) ≡ Some element.now };

    fn index(self, index: I) -> &'a mut A
        requires { IsTrue (in_box (shape_of self) (I.coordinates_of index)) }
        ensures* writes_back { sem 𝓛 (follows_index A.row self.entry (I.coordinates_of index) result) }
        ensures element { element_at self.entry (I.coordinates_of index) ≡ Some result.now }
    {
        let (region, place) = sought_in_box(self, index);
        region.into_mut(place)
    }

    fn get(self, index: I) -> Option<&'a mut A>
        ensures* writes_back { sem 𝓛 (may_follow_index A.row self.entry (I.coordinates_of index) result) }
        ensures element { IsElementOrOutside self.entry (I.coordinates_of index) result }
    {
        let (region, place, within) = sought(self, index);
        region.into_mut_if(place, within)
    }

    fn uget(self, index: I) -> &'a mut A
        requires { IsTrue (in_box (shape_of self) (I.coordinates_of index)) }
        ensures* writes_back { sem 𝓛 (follows_index A.row self.entry (I.coordinates_of index) result) }
        ensures element { element_at self.entry (I.coordinates_of index) ≡ Some result.now }
    {
        let (region, place) = sought_in_box(self, index);
        region.into_mut(place)
    }
}
