//! A call that hands each element to a closure, which may write it.
#![tactic(auto, unfolding(crate::specs::ArrayMeaning::meaning_of, crate::specs::ArrayMeaning::memory_layout_of))]

ghost use Rattle.std.specs.Prelude.{◌<◌};
ghost use Rattle.nd_array_core.specs.base.ArrayWrites.{KeepsFrame};
ghost use Rattle.nd_elements.specs.elements.ElementChanges.{ChangesAll, ChangeableInAnyOrder, ChangesAlike};

use crate::base::array::ArrayBase;
use nd_elements::elements::map_inplace::change_places;
use nd_elements::storage::DataMut;
use nd_shape_and_slice::Dimension;

impl<S: DataMut, D: Dimension> ArrayBase<S, D> {
    ghost use Rattle.nd_array_core.specs.ArrayMeaning.{shape_of, element_at};

    /// Calls the function with each element, which it may write, once each, in an unspecified order. The function's own
    /// condition must hold at each of these calls. This is ndarray's `map_inplace`.
    pub fn map_inplace<F: FnMut(&mut S::Elem)>(&mut self, f: F)
        requires callable { ChangeableInAnyOrder F.FnMut (shape_of self.old) (element_at self.old) f }
        ensures visits { ChangesAll F.FnMut (shape_of self.old) (element_at self.old) (element_at self.new) f }
        ensures alike { ChangesAlike F.FnMut f (element_at self.old) (element_at self.new) }
        ensures frame { KeepsFrame S.frame self.old self.new }
    {
        let order = self.layout.loop_order();
        change_places(&mut self.storage, order.places(), f);
    }
}
