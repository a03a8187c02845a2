//! New arrays of what a closure returns for each element, which it may write.
#![tactic(auto, unfolding(crate::specs::ArrayMeaning::meaning_of, crate::specs::ArrayMeaning::memory_layout_of))]

ghost use Rattle.std.specs.Prelude.{◌≡◌, ◌<◌, ℕ, IfOk, IfErr, List, OnOk, OnErr};
ghost use Rattle.nd_array_core.specs.base.ArrayWrites.{KeepsFrame};
ghost use Rattle.nd_shape_and_slice.specs.ShapesAndIndexOrders.{size_of};
ghost use Rattle.nd_elements.specs.elements.ElementMapsMut.{HandableElements, LeavesAlike, AnswersHandedAlike};
ghost use Rattle.nd_array_core.specs.elements.ArrayMaps.{ShowsHanded};

use crate::base::array::{Array, ArrayBase};
use crate::base::constructors::of_items;
use nd_elements::elements::map_mut::hand_places;
use nd_elements::elements::to_vec::room_of;
use nd_elements::storage::DataMut;
use nd_shape_and_slice::{Dimension, NoMemory, Order};
use std::alloc::Global;

impl<S: DataMut, D: Dimension> ArrayBase<S, D> {
    ghost use Rattle.nd_array_core.specs.ArrayMeaning.{meaning_of, shape_of, element_at};

    /// Calls the function with each element, which it may write, and returns a new array of the same shape that has at
    /// each index what the function returned for the element there. It is called once for each element, in an
    /// unspecified order, and its own condition must hold at each of these calls. How the result lies in memory is
    /// unspecified. Fails with `NoMemory` if the storage is refused; the function then wasn't called. This is ndarray's
    /// `map_mut`.
    pub fn map_mut<B, F: FnMut(&mut S::Elem) -> B>(
        &mut self,
        alloc: Global,
        f: F,
    ) -> Result<Array<B, D>, NoMemory>
        requires callable { HandableElements F.FnMut (meaning_of self.old) f }
        ensures shape { IfOk result (λ a. shape_of a ≡ shape_of self.old) }
        ensures visits { IfOk result (ShowsHanded F.FnMut f self.old self.new) }
        ensures alike { OnOk result (LeavesAlike F.FnMut f (element_at self.old) (element_at self.new)) }
        ensures answered { IfOk result (λ a. AnswersHandedAlike F.FnMut f (element_at self.old) (element_at a)) }
        ensures refused { OnErr result (0 < size_of (shape_of self.old)) }
        ensures kept { IfErr result (λ _. (i : List ℕ) → element_at self.new i ≡ element_at self.old i) }
        ensures frame { KeepsFrame S.frame self.old self.new }
    {
        let room = room_of(alloc, self.len())?;
        let dim = self.raw_dim();
        let mut joined = self.layout.copied();
        joined.join_axes();
        let (_f, items) = hand_places(room, &mut self.storage, joined.places(), f);
        Ok(of_items(items, dim, Order::RowMajor))
    }
}
