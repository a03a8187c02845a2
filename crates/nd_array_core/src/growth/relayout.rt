//! A call that moves the elements of an owned array to new storage, so that it can grow along an axis.
#![tactic(auto, unfolding(crate::specs::ArrayMeaning::meaning_of, crate::specs::ArrayMeaning::memory_layout_of))]

ghost use Rattle.std.specs.Prelude.{◌≡◌, ◌+◌, ◌<◌, ◌^◌, ℕ, List, OnOk, OnErr, length};
ghost use Rattle.nd_shape_and_slice.specs.ShapesAndIndexOrders.{size_of};
ghost use Rattle.nd_array_core.specs.ArrayMeaning.{shape_of, element_at};
ghost use Rattle.nd_array_core.specs.PartsOfArrays.{BecomesWhole};
ghost use Rattle.nd_array_core.specs.growth.StorageOfAppend.{IsRelaidOut};

use crate::base::array::Array;
use nd_elements::growth::relayout_elements::relayout_elements;
use nd_shape_and_slice::{Axis, Dimension, NoMemory, StrideList};

impl<A: Drop, D: Dimension> Array<A, D> {
    /// Moves the elements to new storage with room for `more` elements, laid out so that the array can grow along
    /// `axis`. The array must have elements. Stored elements that no index names are dropped. If memory is refused, the
    /// array stays as it is.
    pub(crate) fn relayout(&mut self, axis: Axis, more: usize) -> Result<(), NoMemory>
        requires axis { axis.0 < length (shape_of self.old) }
        requires some { 0 < size_of (shape_of self.old) }
        requires fits { size_of (shape_of self.old) + more < 2 ^ 64 }
        ensures shape { shape_of self.new ≡ shape_of self.old }
        ensures elements { (i : List ℕ) → element_at self.new i ≡ element_at self.old i }
        ensures laid { OnOk result (IsRelaidOut axis.0 more self.old self.new) }
        ensures kept { OnErr result (BecomesWhole self.old self.new) }
    {
        relayout_elements(&mut self.storage, &mut self.layout, axis.0, more)
    }
}
