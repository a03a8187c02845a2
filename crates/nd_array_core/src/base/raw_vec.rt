//! Calls that take the vector of stored elements out of an array.
#![tactic(auto, unfolding(crate::specs::ArrayMeaning::meaning_of, crate::specs::ArrayMeaning::memory_layout_of))]

ghost use Rattle.std.specs.Prelude.{◌≡◌, vec_capacity};
ghost use Rattle.nd_array_core.specs.LastIndex.{offset_if_any};
ghost use Rattle.nd_array_core.specs.ArrayMeaning.{shape_of, storage_of, layout_offset};
ghost use Rattle.nd_elements.specs.BorrowedAndOwnedStorages.{stored_list, room_of};

use crate::base::array::{Array, ArrayBase};
use nd_shape_and_slice::{Dimension, is_empty_shape};

impl<A, D: Dimension> Array<A, D> {
    /// Returns the vector of all stored elements, also of those that no index names, and the place in it of the first
    /// element (that at the index of zeros). The place is None where the array has no elements. This is ndarray's
    /// `into_raw_vec_and_offset`.
    pub fn into_raw_vec_and_offset(self) -> (Vec<A>, Option<usize>)
        ensures items { result.0.items ≡ stored_list (storage_of self) }
        ensures room { vec_capacity result.0 ≡ room_of (storage_of self) }
        ensures offset { result.1 ≡ offset_if_any (shape_of self) (layout_offset self) }
    {
        let ArrayBase { storage, layout } = self;
        let offset = if is_empty_shape(layout.dim.slice()) {
            None
        } else {
            Some(layout.offset)
        };
        (storage.items, offset)
    }

    /// Returns the vector of all stored elements, also of those that no index names. This is ndarray's `into_raw_vec`.
    pub fn into_raw_vec(self) -> Vec<A>
        ensures items { result.items ≡ stored_list (storage_of self) }
        ensures room { vec_capacity result ≡ room_of (storage_of self) }
    {
        let (items, _) = self.into_raw_vec_and_offset();
        items
    }
}
