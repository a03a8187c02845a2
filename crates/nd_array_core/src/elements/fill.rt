//! A call that writes one value at every index.
#![tactic(auto, unfolding(crate::specs::ArrayMeaning::meaning_of, crate::specs::ArrayMeaning::memory_layout_of))]

ghost use Rattle.std.specs.Prelude.{◌≡◌, ◌<◌, OnOk, OnErr};
ghost use Rattle.nd_shape_and_slice.specs.ShapesAndIndexOrders.{size_of};
ghost use Rattle.nd_array_core.specs.base.ArrayWrites.{KeepsFrame};
ghost use Rattle.nd_elements.specs.LackOfMemory.{MayLackForClones};
ghost use Rattle.nd_array_core.specs.elements.ArrayMaps.{ShowsOldOrValue, ShowsValue};
ghost use Rattle.nd_elements.specs.EqualClones.{ClonesAreEqual};

use crate::base::array::ArrayBase;
use nd_elements::elements::fill::fill_places;
use nd_elements::storage::DataMut;
use nd_shape_and_slice::{Dimension, NoMemory};

impl<S: DataMut, D: Dimension> ArrayBase<S, D>
where
    S::Elem: Clone + Drop,
{
    ghost use Rattle.nd_array_core.specs.ArrayMeaning.{shape_of};

    /// Writes a clone of the value at each index; a clone must equal its original. Fails with `NoMemory` if a clone is
    /// refused, and for no other cause; each index then has its old element or the new one. This is ndarray's `fill`.
    pub fn fill(&mut self, value: S::Elem) -> Result<(), NoMemory>
        requires { ClonesAreEqual S.Elem.is_clone value }
        ensures filled { OnOk result (ShowsValue value self.old self.new) }
        ensures stopped { OnErr result (ShowsOldOrValue value self.old self.new) }
        ensures refused { OnErr result (MayLackForClones S.Elem.is_infallible value (size_of (shape_of self.old))) }
        ensures frame { KeepsFrame S.frame self.old self.new }
    {
        let order = self.layout.loop_order();
        fill_places(&mut self.storage, order.places(), &value)
    }
}
