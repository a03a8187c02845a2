//! A call that lends a task mutable views of two parts of an array while it runs. Each part is named by a list of
//! slices.
#![tactic(auto, unfolding(crate::specs::ArrayMeaning::meaning_of, crate::specs::ArrayMeaning::memory_layout_of))]

ghost use Rattle.nd_array_core.specs.layout.MultiSlice.{TwoFit};
ghost use Rattle.nd_array_core.specs.scoped.TasksOnParts.{AsksOfSlices, IsDoneOnSlices, KeepsButSlices};
ghost use Rattle.nd_array_core.specs.base.ArrayWrites.{KeepsFrame};

use super::with_split_at::{PairTask, with_placement_pair};
use crate::base::array::ArrayBase;
use crate::layout::slices::sliced_by;
use nd_elements::storage::DataMut;
use nd_shape_and_slice::{Dimension, SliceArg};

impl<S: DataMut, D: Dimension> ArrayBase<S, D> {
    ghost use Rattle.nd_array_core.specs.ArrayMeaning.{shape_of};

    /// Lends the task mutable views of what two lists of slices name, for the length of the call. Afterwards the array
    /// has at each part the elements that its view was left with, and elsewhere those that it had. Each list must fit
    /// the shape (`SliceArg::fits`), and the two must name no element in common (`slices_intersect`). ndarray has no
    /// such call; the nearest is its `multi_slice_mut`.
    pub fn with_multi_slice_mut<
        I: SliceArg<D>,
        J: SliceArg<D>,
        K: PairTask<S::Elem, I::OutDim, J::OutDim>,
    >(&mut self, lists: (I, J), task: K) -> K::Answer
        requires fits { TwoFit (shape_of self.old) (I.elements_of lists.0) (J.elements_of lists.1) }
        requires callable { AsksOfSlices (K.pre task) self.old (I.elements_of lists.0) (J.elements_of lists.1) }
        ensures frame { KeepsFrame S.frame self.old self.new }
        ensures kept { KeepsButSlices self.old self.new (I.elements_of lists.0) (J.elements_of lists.1) }
        ensures done { IsDoneOnSlices (K.post task) result self.old self.new (I.elements_of lists.0) (J.elements_of lists.1) }
    {
        let first = sliced_by(&self.layout, lists.0);
        let second = sliced_by(&self.layout, lists.1);
        with_placement_pair(&mut self.storage, &self.layout, first, second, task)
    }
}
