//! The elements of an array as one slice, if they are contiguous in memory.
#![tactic(auto, unfolding(crate::specs::ArrayMeaning::meaning_of, crate::specs::ArrayMeaning::memory_layout_of))]

ghost use Rattle.std.specs.Prelude.{◌↔◌, ◌≡◌, ◌<◌, IsSome, IfSome, Some};
ghost use Rattle.nd_array_core.specs.ArrayMeaning.{meaning_of};
ghost use Rattle.nd_elements.specs.ShapeAndElements.{row_major_elements};
ghost use Rattle.nd_array_core.specs.reshape.ElementsAsSlice.{IsStandardArray, IsRunArray, IsInMemoryOrder, IsReordering};

use crate::base::array::{ArrayBase, ArrayView};
use nd_elements::storage::Data;
use nd_layout::is_run;
use nd_shape_and_slice::{Dimension, StrideList};

impl<'a, A, D: Dimension> ArrayView<'a, A, D> {
    /// Returns the elements in row-major order as one slice, which lives as long as what the view borrows. The result
    /// is None exactly where the view isn't in the standard layout (`is_standard_layout`). This is ndarray's
    /// `to_slice`.
    pub fn to_slice(&self) -> Option<&'a [A]>
        ensures some { IsSome result ↔ IsStandardArray self.now }
        ensures elements { IfSome result (λ xs. xs.now ≡ row_major_elements (meaning_of self.now)) }
    {
        if self.is_standard_layout() {
            let storage = self.storage;
            Some(storage.run(self.layout.offset, self.layout.dim.size()))
        } else {
            None
        }
    }

    /// Returns the elements in the order in which they lie as one slice, which lives as long as what the view borrows.
    /// The result is None exactly where their places aren't consecutive numbers, each once. This is ndarray's
    /// `to_slice_memory_order`.
    pub fn to_slice_memory_order(&self) -> Option<&'a [A]>
        ensures some { IsSome result ↔ IsRunArray self.now }
        ensures elements { IfSome result (λ xs. IsInMemoryOrder self.now xs.now) }
        ensures reordered { IfSome result (λ xs. IsReordering self.now xs.now) }
    {
        if is_run(self.layout.dim.slice(), self.layout.strides.slice()) {
            let storage = self.storage;
            let first = self.layout.lowest_place();
            Some(storage.run(first, self.layout.dim.size()))
        } else {
            None
        }
    }
}

impl<S: Data, D: Dimension> ArrayBase<S, D> {
    /// Returns the elements in row-major order as one slice. The result is None exactly where the array isn't in the
    /// standard layout (`is_standard_layout`). This is ndarray's `as_slice`.
    pub fn as_slice(&self) -> Option<&[S::Elem]>
        ensures some { IsSome result ↔ IsStandardArray self.now }
        ensures elements { IfSome result (λ xs. xs.now ≡ row_major_elements (meaning_of self.now)) }
    {
        self.view().to_slice()
    }

    /// Returns the elements in the order in which they lie as one slice. The result is None exactly where their places
    /// aren't consecutive numbers, each once; an array without elements gives an empty slice. This is ndarray's
    /// `as_slice_memory_order`.
    pub fn as_slice_memory_order(&self) -> Option<&[S::Elem]>
        ensures some { IsSome result ↔ IsRunArray self.now }
        ensures elements { IfSome result (λ xs. IsInMemoryOrder self.now xs.now) }
        ensures reordered { IfSome result (λ xs. IsReordering self.now xs.now) }
    {
        self.view().to_slice_memory_order()
    }
}
