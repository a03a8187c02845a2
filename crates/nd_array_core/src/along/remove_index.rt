//! Removal of one coordinate of an axis.
#![tactic(auto, unfolding(crate::specs::ArrayMeaning::meaning_of, crate::specs::ArrayMeaning::memory_layout_of))]

ghost use Rattle.std.specs.Prelude.{◌≡◌, ◌-◌, ◌<◌, ℕ, List, length, slice_index};
ghost use Rattle.nd_shape_and_slice.specs.ShapesAndIndexOrders.{size_of};
ghost use Rattle.nd_elements.specs.along.RemovedIndex.{removed_shape, removed_at, removed_strides, LieAtEnds, KeepPlaces};

use crate::base::array::ArrayBase;
use crate::laws::elements_have_places;
use nd_elements::along::lanes_from_layout::{first_of_each, lanes_through};
use nd_elements::along::remove_index::rotate_lanes;
use nd_elements::storage::DataMut;
use nd_shape_and_slice::{Axis, Dimension, Slice, StrideList};

impl<S: DataMut, D: Dimension> ArrayBase<S, D> {
    ghost use Rattle.nd_array_core.specs.ArrayMeaning.{meaning_of, shape_of, element_at, storage_of, place_at, layout_strides, layout_offset};
    ghost use Rattle.nd_array_core.specs.along.RotatedLanes.{rotated_at};
    ghost use Rattle.nd_array_core.specs.base.ArrayWrites.{KeepsFrame};
    ghost use Rattle.nd_elements.specs.WritesByIndex.{OthersStay};

    /// Moves, in each lane of `axis`, the element at coordinate `index` to the end, and each element after it one place
    /// towards the front.
    fn rotate_axis(&mut self, axis: Axis, index: usize)
        requires axis { axis.0 < length (shape_of self.old) }
        requires within { index < slice_index (shape_of self.old) axis.0 }
        ensures elements { (i : List ℕ) → element_at self.new i ≡ rotated_at (meaning_of self.old) axis.0 index i }
        ensures frame { KeepsFrame S.frame self.old self.new }
    {
        let firsts = first_of_each(&self.layout, axis);
        let lanes = lanes_through(&self.layout, axis, &firsts);
        rotate_lanes(&mut self.storage, lanes, index);
    }

    /// Takes one coordinate out of an axis, which then is shorter by one. In each lane the elements after that
    /// coordinate move one place towards the front, and the removed element moves to the end of the lane, where it
    /// stays stored though no index names it. The axis must be below `ndim`, and the coordinate below its length. It
    /// takes no memory. This is ndarray's `remove_index`.
    pub fn remove_index(&mut self, axis: Axis, index: usize)
        requires axis { axis.0 < length (shape_of self.old) }
        requires within { index < slice_index (shape_of self.old) axis.0 }
        ensures shape { shape_of self.new ≡ removed_shape (shape_of self.old) axis.0 }
        ensures strides { layout_strides self.new ≡ removed_strides (shape_of self.old) (layout_strides self.old) axis.0 }
        ensures elements { (i : List ℕ) → element_at self.new i ≡ removed_at (meaning_of self.old) axis.0 index i }
        ensures places { KeepPlaces (shape_of self.old) axis.0 (place_at self.old) (place_at self.new) }
        ensures removed { LieAtEnds (meaning_of self.old) (place_at self.old) axis.0 index (S.stored (storage_of self.new)) }
        ensures others { OthersStay (place_at self.old) (S.stored (storage_of self.old)) (S.stored (storage_of self.new)) }
        ensures frame { S.frame (storage_of self.new) ≡ S.frame (storage_of self.old) }
        ensures offset { size_of (shape_of self.old) ≡ 0 → layout_offset self.new ≡ layout_offset self.old }
    {
        let last = self.len_of(axis) - 1;
        self.rotate_axis(axis, index);
        elements_have_places(self);
        self.slice_axis_inplace(axis, Slice::between(0, last));
    }
}
