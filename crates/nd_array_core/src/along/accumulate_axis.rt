//! `accumulate_axis_inplace`: a closure is called along an axis, with each element and the element before it.
#![tactic(auto, unfolding(crate::specs::ArrayMeaning::meaning_of, crate::specs::ArrayMeaning::memory_layout_of))]

ghost use Rattle.std.specs.Prelude.{◌≡◌, ◌<◌, ℕ, List, length, slice_index};
ghost use Rattle.nd_elements.specs.along.AccumulateAlongAxis.{AccumulatesAll, AccumulableAlong, AccumulatesAlike};

use crate::base::array::ArrayBase;
use nd_elements::along::accumulate_axis::accumulate_lanes;
use nd_elements::along::lanes_from_layout::{first_of_each, lanes_through};
use nd_elements::storage::DataMut;
use nd_shape_and_slice::{Axis, Dimension, StrideList};

impl<S: DataMut, D: Dimension> ArrayBase<S, D> {
    ghost use Rattle.nd_array_core.specs.ArrayMeaning.{shape_of, element_at};
    ghost use Rattle.nd_array_core.specs.base.ArrayWrites.{KeepsFrame};

    /// Does what `accumulate_axis_inplace` does. The axis must have at least length 1.
    fn accumulate_some<F: FnMut(&S::Elem, &mut S::Elem)>(&mut self, axis: Axis, f: F)
        requires axis { axis.0 < length (shape_of self.old) }
        requires some { 0 < slice_index (shape_of self.old) axis.0 }
        requires callable { AccumulableAlong F.FnMut (shape_of self.old) axis.0 (element_at self.old) f }
        ensures visits { AccumulatesAll F.FnMut (shape_of self.old) axis.0 (element_at self.old) (element_at self.new) f }
        ensures first { (i : List ℕ) → slice_index i axis.0 ≡ 0 → element_at self.new i ≡ element_at self.old i }
        ensures frame { KeepsFrame S.frame self.old self.new }
    {
        let firsts = first_of_each(&self.layout, axis);
        let lanes = lanes_through(&self.layout, axis, &firsts);
        accumulate_lanes(&mut self.storage, lanes, f);
    }

    /// Goes along each lane of an axis, from its second element on. For each element it calls the function with the
    /// element before it in the lane, as the previous call left it, and with the element itself, which the function may
    /// write. An axis of length 0 or 1 stays as it is. The order between lanes is unspecified. The axis must be below
    /// `ndim`, and the function's own condition must hold at each of these calls. It takes no memory. This is ndarray's
    /// `accumulate_axis_inplace`.
    pub fn accumulate_axis_inplace<F: FnMut(&S::Elem, &mut S::Elem)>(&mut self, axis: Axis, f: F)
        requires axis { axis.0 < length (shape_of self.old) }
        requires callable { AccumulableAlong F.FnMut (shape_of self.old) axis.0 (element_at self.old) f }
        ensures visits { AccumulatesAll F.FnMut (shape_of self.old) axis.0 (element_at self.old) (element_at self.new) f }
        ensures first { (i : List ℕ) → slice_index i axis.0 ≡ 0 → element_at self.new i ≡ element_at self.old i }
        ensures alike { AccumulatesAlike F.FnMut f axis.0 (element_at self.old) (element_at self.new) }
        ensures frame { KeepsFrame S.frame self.old self.new }
    {
        if self.len_of(axis) > 0 {
            self.accumulate_some(axis, f);
        }
    }
}
