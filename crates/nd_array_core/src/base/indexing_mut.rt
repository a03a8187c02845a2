//! Calls that write elements: they replace one, exchange two, or return a reference through which it is written.
#![tactic(auto, unfolding(crate::specs::ArrayMeaning::meaning_of, crate::specs::ArrayMeaning::memory_layout_of))]

ghost use Rattle.std.specs.Prelude.{◌↔◌, ◌≡◌, ℕ, List, Bool, Some, Option, is_some, IsNone, OnSome, IsTrue};
ghost use Rattle.std.specs.Option.{option_copied_mut};
ghost use Rattle.std.specs.Borrow.{sem};
ghost use Rattle.nd_shape_and_slice.specs.ShapesAndIndexOrders.{in_box, size_of};
ghost use Rattle.nd_shape_and_slice.specs.FirstIndex.{first_index};
ghost use Rattle.nd_array_core.specs.LastIndex.{last_index};
ghost use Rattle.nd_array_core.specs.ArrayMeaning.{shape_of, element_at};
ghost use Rattle.nd_array_core.specs.base.ArrayWrites.{IsWrittenAt, IsSwappedAt, IsAnyWrittenAt};
ghost use Rattle.nd_array_core.specs.base.ArrayAfterElementBorrow.{IsAnyWritten, may_lend};

use super::array::ArrayBase;
use super::indexing::last_place;
use nd_elements::storage::{Data, DataMut};
use nd_shape_and_slice::{Dimension, NdIndex};
use std::ops::IndexMut;

impl<S: DataMut, D: Dimension> ArrayBase<S, D> {
    /// Writes an element at an index, which must lie inside the shape (`get` tells whether it does), and returns the
    /// element that was there. ndarray has no such call; the nearest is its `IndexMut`.
    pub fn replace<I: NdIndex<D>>(&mut self, index: I, value: S::Elem) -> S::Elem
        requires { IsTrue (in_box (shape_of self.old) (I.coordinates_of index)) }
        ensures old { element_at self.old (I.coordinates_of index) ≡ Some result }
        ensures new { IsWrittenAt S.frame self.old (I.coordinates_of index) value self.new }
    {
        self.replace_at(index.coordinates().slice(), value)
    }

    /// Writes `value` at `index`, a list of coordinates that must lie inside the shape, and returns the element that
    /// was there.
    pub(crate) fn replace_at(&mut self, index: &[usize], value: S::Elem) -> S::Elem
        requires { IsTrue (in_box (shape_of self.old) index.now) }
        ensures old { element_at self.old index.now ≡ Some result }
        ensures new { IsWrittenAt S.frame self.old index.now value self.new }
    {
        let place = self.layout.place_in_box(index);
        self.storage.replace(place, value)
    }

    /// Exchanges the elements at two indexes, which must lie inside the shape. This is ndarray's `swap`.
    pub fn swap<I: NdIndex<D>>(&mut self, a: I, b: I)
        requires a { IsTrue (in_box (shape_of self.old) (I.coordinates_of a)) }
        requires b { IsTrue (in_box (shape_of self.old) (I.coordinates_of b)) }
        ensures new { IsSwappedAt S.frame self.old (I.coordinates_of a) (I.coordinates_of b) self.new }
    {
        let p = self.layout.place_in_box(a.coordinates().slice());
        let q = self.layout.place_in_box(b.coordinates().slice());
        self.storage.swap(p, q);
    }

    /// Exchanges the elements at two indexes, which must lie inside the shape. This is ndarray's `uswap`.
    pub fn uswap<I: NdIndex<D>>(&mut self, a: I, b: I)
        requires a { IsTrue (in_box (shape_of self.old) (I.coordinates_of a)) }
        requires b { IsTrue (in_box (shape_of self.old) (I.coordinates_of b)) }
        ensures new { IsSwappedAt S.frame self.old (I.coordinates_of a) (I.coordinates_of b) self.new }
    {
        self.swap(a, b);
    }
}

impl<S: DataMut, D: Dimension> ArrayBase<S, D> {
    ghost use Rattle.nd_array_core.specs.base.ArrayAfterElementBorrow.{lends_element, array_with_element};

    /// Returns a reference to the element at an index, through which it can be written. The index must lie inside the
    /// shape (`get` tells whether it does). This is ndarray's `uget_mut`.
    pub fn uget_mut<I: NdIndex<D>>(&mut self, index: I) -> &mut S::Elem
        requires { IsTrue (in_box (shape_of self.old) (I.coordinates_of index)) }
        ensures* writes_back { sem 𝓛 (lends_element S.row S.Elem.row D.row D.Strides.row S.Data D.Dimension D.AxisCount D.Strides.StrideList self.entry (I.coordinates_of index) result) }
        ensures value { element_at self.old (I.coordinates_of index) ≡ Some result.now }
        ensures written { IsAnyWrittenAt S.frame self.old (I.coordinates_of index) (array_with_element S.with_element self.old (I.coordinates_of index)) }
    {
        let place = self.layout.place_in_box(index.coordinates().slice());
        self.storage.element_mut(place)
    }
}

/// `get_mut` and `first_mut` of arrays and mutable views. They are methods of a trait because the checker accepts a
/// clause about what is written back through an `Option` of a reference only where the lender is `Self`.
pub trait GetMut {
    /// The type of the elements.
    type Elem;

    /// The dimension type of the array.
    type Dim;

    /// Says whether an index lies inside the shape.
    ghost has_index: { Self → List ℕ → Bool };

    /// Returns the index of zeros.
    ghost first_got: { Self → List ℕ };

    /// Returns the last index.
    ghost last_got: { Self → List ℕ };

    /// Returns the number of elements.
    ghost size_got: { Self → ℕ };

    /// Returns the element at an index, or None exactly where the index lies outside the shape.
    ghost element_got: { Self → List ℕ → Option Self.Elem };

    /// Returns the array with another element at an index.
    ghost with_element_got: { Self → List ℕ → Self.Elem → Self };

    /// Says that the second array is the first one with that element at the index, and is otherwise unchanged.
    ghost is_written_got: { Self → List ℕ → Self.Elem → Self → Type 0 };

    /// Returns a reference to the element at an index, through which it can be written. The result is None exactly
    /// where the index lies outside the shape, as one with a wrong number of coordinates does. This is ndarray's
    /// `get_mut`.
    fn get_mut<I: NdIndex<Self::Dim>>(&mut self, index: I) -> Option<&mut Self::Elem>
        ensures* writes_back { sem 𝓛 (may_lend Self.row Self.Elem.row self.entry with_element_got (I.coordinates_of index) result) }
        ensures element { option_copied_mut result ≡ element_got self.old (I.coordinates_of index) }
        ensures within { is_some result ≡ has_index self.old (I.coordinates_of index) }
        ensures written { OnSome result (IsAnyWritten is_written_got with_element_got self.old (I.coordinates_of index)) };

    /// Returns a reference to the element at the index of zeros, through which it can be written. The result is None
    /// exactly where the array has no elements. This is ndarray's `first_mut`.
    fn first_mut(&mut self) -> Option<&mut Self::Elem>
        ensures* writes_back { sem 𝓛 (may_lend Self.row Self.Elem.row self.entry with_element_got (first_got self.old) result) }
        ensures element { option_copied_mut result ≡ element_got self.old (first_got self.old) }
        ensures none { IsNone result ↔ (size_got self.old ≡ 0) }
        ensures written { OnSome result (IsAnyWritten is_written_got with_element_got self.old (first_got self.old)) };

    /// Returns a reference to the element at the last index, which is that of the greatest row-major rank, through
    /// which it can be written. The result is None exactly where the array has no elements. This is ndarray's
    /// `last_mut`.
    fn last_mut(&mut self) -> Option<&mut Self::Elem>
        ensures* writes_back { sem 𝓛 (may_lend Self.row Self.Elem.row self.entry with_element_got (last_got self.old) result) }
        ensures element { option_copied_mut result ≡ element_got self.old (last_got self.old) }
        ensures none { IsNone result ↔ (size_got self.old ≡ 0) }
        ensures written { OnSome result (IsAnyWritten is_written_got with_element_got self.old (last_got self.old)) };
}

impl<S: DataMut, D: Dimension> GetMut for ArrayBase<S, D> {
    ghost use Rattle.nd_array_core.specs.base.ArrayAfterElementBorrow.{array_with_element};

    type Elem = S::Elem;

    type Dim = D;

    ghost has_index = { λ a i. in_box (shape_of a) i };

    ghost first_got = { λ a. first_index (shape_of a) };

    ghost last_got = { λ a. last_index (shape_of a) };

    ghost size_got = { λ a. size_of (shape_of a) };

    ghost element_got = { λ a i. element_at a i };

    ghost with_element_got = { λ a i x. array_with_element S.with_element a i x };

    ghost is_written_got = { λ a i x new. IsWrittenAt S.frame a i x new };

    fn get_mut<I: NdIndex<D>>(&mut self, index: I) -> Option<&mut S::Elem> {
        match self.layout.place_of(index.coordinates().slice()) {
            Some(place) => Some(self.storage.element_mut(place)),
            None => None,
        }
    }

    fn first_mut(&mut self) -> Option<&mut S::Elem> {
        match self.layout.first_place() {
            Some(first) => Some(self.storage.element_mut(first)),
            None => None,
        }
    }

    fn last_mut(&mut self) -> Option<&mut S::Elem> {
        match last_place(&self.layout) {
            Some(last) => Some(self.storage.element_mut(last)),
            None => None,
        }
    }
}

impl<S: DataMut, D: Dimension, I: NdIndex<D>> IndexMut<I> for ArrayBase<S, D> {
    ghost use Rattle.nd_array_core.specs.base.ArrayAfterElementBorrow.{lends_element, array_with_element};

    fn index_mut(&mut self, index: I) -> &mut S::Elem
        requires { IsTrue (in_box (shape_of self.old) (I.coordinates_of index)) }
        ensures* writes_back { sem 𝓛 (lends_element S.row S.Elem.row D.row D.Strides.row S.Data D.Dimension D.AxisCount D.Strides.StrideList self.entry (I.coordinates_of index) result) }
        ensures value { element_at self.old (I.coordinates_of index) ≡ Some result.now }
        ensures written { IsAnyWrittenAt S.frame self.old (I.coordinates_of index) (array_with_element S.with_element self.old (I.coordinates_of index)) }
    {
        self.uget_mut(index)
    }
}
