//! A call that hands a closure the elements of two arrays, of which it may write the first.
#![tactic(auto, unfolding(crate::specs::ArrayMeaning::meaning_of, crate::specs::ArrayMeaning::memory_layout_of))]

ghost use Rattle.std.specs.Prelude.{◌<◌, Some, IsTrue};
ghost use Rattle.nd_shape_and_slice.specs.Broadcast.{broadcasts};
ghost use Rattle.nd_array_core.specs.base.ArrayWrites.{KeepsFrame};
ghost use Rattle.nd_elements.specs.elements.PairsWithOneWritten.{ZipsBy};
ghost use Rattle.nd_array_core.specs.elements.BroadcastPairs.{ShowsBoth, ZipsWith, ZippableWith};

use crate::base::array::ArrayBase;
use nd_elements::elements::zip_mut_with::zip_layouts;
use nd_elements::storage::{Data, DataMut};
use nd_shape_and_slice::Dimension;

impl<S: DataMut, D: Dimension> ArrayBase<S, D> {
    ghost use Rattle.nd_array_core.specs.ArrayMeaning.{shape_of};

    /// Calls the function with each element, which it may write, and with the element of `rhs` at the same index, once
    /// each, in an unspecified order. `rhs` is broadcast to this array's shape, which must be possible. The function's
    /// own condition must hold at each of these calls. It takes no memory. This is ndarray's `zip_mut_with`.
    pub fn zip_mut_with<B, Z: Data<Elem = B>, E: Dimension, F: FnMut(&mut S::Elem, &B)>(
        &mut self,
        rhs: &ArrayBase<Z, E>,
        f: F,
    )
        requires broadcasts { IsTrue (broadcasts (shape_of rhs.now) (shape_of self.old)) }
        requires callable { ZippableWith F.FnMut self.old rhs.now f }
        ensures visits { ZipsWith F.FnMut self.old rhs.now self.new f }
        ensures alike { (h : _) → ZipsBy F.FnMut h f → ShowsBoth h self.old rhs.now self.new }
        ensures frame { KeepsFrame S.frame self.old self.new }
    {
        match rhs.layout.broadcast(self.layout.dim) {
            Some(seen) => zip_layouts(&mut self.storage, &self.layout, &rhs.storage, &seen, f),
            None => unreachable!(),
        }
    }
}
