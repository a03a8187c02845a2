//! Closures that are handed each index with the element there, to be written.
#![tactic(auto, unfolding(crate::specs::ArrayMeaning::meaning_of, crate::specs::ArrayMeaning::memory_layout_of))]

ghost use Rattle.std.specs.Prelude.{◌≡◌, ℕ, IsSome, length, IsTrue};
ghost use Rattle.nd_layout.specs.LayoutStepsOfCalls.{placement_of};
ghost use Rattle.nd_elements.specs.StorageByLayout.{HoldsShown, shown};
ghost use Rattle.nd_elements.specs.ElementsAtNumberedPlaces.{PlacesDiffer, ranked_by};
ghost use Rattle.nd_array_core.specs.base.ArrayWrites.{KeepsFrame};
ghost use Rattle.nd_array_core.specs.elements.IndexedChanges.{ChangeableInOrder, ChangesEachAlike, ChangesEachIndex, ChangesRanked, ChangesWithIndex, MayChangeByIndex, TakesWithIndex};

use crate::base::array::ArrayBase;
use nd_elements::storage::DataMut;
use nd_layout::{Layout, Walk};
use nd_shape_and_slice::{Dimension, IntoPattern, StrideList};

/// Hands an index and the element at a place to the function, to be written. It returns the function, as the call left
/// it.
fn change_with_index<X, S: DataMut, F: FnMut(X, &mut S::Elem)>(
    storage: &mut S,
    place: usize,
    index: X,
    mut f: F,
) -> F
    requires holds { IsSome (S.stored storage.old place) }
    requires callable { TakesWithIndex F.FnMut index (S.stored storage.old place) f }
    ensures called { ChangesWithIndex F.FnMut index (S.stored storage.old place) (S.stored storage.new place) f result }
    ensures left { (p : ℕ) → ¬ (p ≡ place) → S.stored storage.new p ≡ S.stored storage.old p }
    ensures frame { S.frame storage.new ≡ S.frame storage.old }
{
    f(index, storage.element_mut(place));
    f
}

/// Returns the index of these coordinates, as many as a dimension has axes.
fn index_with<D: IntoPattern>(coordinates: &[usize]) -> D::Pattern
    requires { IsTrue (D.has_axes (length coordinates.now)) }
    ensures { D.pattern_lengths result ≡ coordinates.now }
{
    match D::from_lengths(coordinates) {
        Some(index) => index.into_pattern(),
        None => unreachable!(),
    }
}

/// Hands each index of a layout with the element there to the function, in row-major order.
fn change_by_index<S, D, T, F>(storage: &mut S, layout: &Layout<D, T>, f: F) -> F
where
    S: DataMut,
    D: IntoPattern,
    T: StrideList,
    F: FnMut(D::Pattern, &mut S::Elem),
    requires apart { PlacesDiffer (ranked_by layout.now) }
    requires holds { HoldsShown S.stored storage.old layout.now }
    requires callable { ChangeableInOrder F.FnMut D.pattern_lengths (D.lengths layout.now.dim) (shown S.stored storage.old layout.now) f }
    ensures changed { ChangesRanked F.FnMut D.pattern_lengths (placement_of layout.now) (S.stored storage.old) (S.stored storage.new) f result }
    ensures frame { S.frame storage.new ≡ S.frame storage.old }
{
    let mut walk = Walk::new(layout.offset, layout.dim.slice(), layout.strides.slice());
    let mut now = f;
    while let Some(place) = walk.place() {
        let index = index_with::<D>(walk.index());
        now = change_with_index(storage, place, index, now);
        walk.advance();
    }
    now
}

impl<S: DataMut, D: IntoPattern> ArrayBase<S, D> {
    /// Calls the function with each index and the element there, which it may write, once each, in row-major order. The
    /// index is a number, a tuple or a list of coordinates, by the number of axes. The function's own condition must
    /// hold at each of these calls. Takes no memory. ndarray has `for (index, x) in a.indexed_iter_mut()`.
    pub fn indexed_map_inplace<F: FnMut(D::Pattern, &mut S::Elem)>(&mut self, f: F)
        requires callable { MayChangeByIndex F.FnMut D.pattern_lengths self.old f }
        ensures visits { ChangesEachIndex F.FnMut D.pattern_lengths self.old self.new f }
        ensures alike { ChangesEachAlike F.FnMut D.pattern_lengths self.old self.new f }
        ensures frame { KeepsFrame S.frame self.old self.new }
    {
        change_by_index(&mut self.storage, &self.layout, f);
    }
}
