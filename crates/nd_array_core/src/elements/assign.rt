//! Calls that write clones of one array's elements to another array.
#![tactic(auto, unfolding(crate::specs::ArrayMeaning::meaning_of, crate::specs::ArrayMeaning::memory_layout_of))]

ghost use Rattle.std.specs.Prelude.{◌≡◌, ◌<◌, ℕ, List, Some, OnOk, OnErr, IsTrue};
ghost use Rattle.nd_shape_and_slice.specs.Broadcast.{broadcasts};
ghost use Rattle.nd_elements.specs.LackOfMemory.{MayLackForClone};
ghost use Rattle.nd_elements.specs.EqualClones.{ClonesOfAllAreEqual};
ghost use Rattle.nd_array_core.specs.base.ArrayWrites.{KeepsFrame};
ghost use Rattle.nd_array_core.specs.elements.BroadcastPairs.{other_at};
ghost use Rattle.nd_elements.specs.elements.PairsWithOneWritten.{IsOldOrOf};

use crate::base::array::ArrayBase;
use crate::laws::broadcast_to_itself;
use nd_elements::elements::assign::assign_layouts;
use nd_elements::storage::{Data, DataMut};
use nd_shape_and_slice::{Dimension, NoMemory};

impl<A: Clone + Drop, S: DataMut<Elem = A>, D: Dimension> ArrayBase<S, D> {
    ghost use Rattle.nd_array_core.specs.ArrayMeaning.{meaning_of, shape_of, element_at};

    /// Writes at each index a clone of the element of `rhs` there. `rhs` is broadcast to this array's shape, which must
    /// be possible, and a clone must equal its original. Fails with `NoMemory` if a clone is refused, and for no other
    /// cause; each index then has its old element or the new one. This is ndarray's `assign`.
    pub fn assign<Z: Data<Elem = A>, E: Dimension>(
        &mut self,
        rhs: &ArrayBase<Z, E>,
    ) -> Result<(), NoMemory>
        requires broadcasts { IsTrue (broadcasts (shape_of rhs.now) (shape_of self.old)) }
        requires clones { ClonesOfAllAreEqual A.is_clone (element_at rhs.now) }
        ensures assigned { OnOk result ((i : List ℕ) → element_at self.new i ≡ other_at self.old rhs.now i) }
        ensures stopped { OnErr result (IsOldOrOf (element_at self.old) (other_at self.old rhs.now) (element_at self.new)) }
        ensures refused { OnErr result (MayLackForClone A.is_infallible (other_at self.old rhs.now)) }
        ensures frame { KeepsFrame S.frame self.old self.new }
    {
        match rhs.layout.broadcast(self.layout.dim) {
            Some(seen) => assign_layouts(&mut self.storage, &self.layout, &rhs.storage, &seen),
            None => unreachable!(),
        }
    }
}

impl<A: Clone + Drop, S: Data<Elem = A>, D: Dimension> ArrayBase<S, D> {
    ghost use Rattle.nd_array_core.specs.ArrayMeaning.{shape_of, element_at};

    /// Writes a clone of each element to another array, which must have the same shape; a clone must equal its
    /// original. Fails with `NoMemory` if a clone is refused, and for no other cause; each index of the other array
    /// then has its old element or the new one. This is ndarray's `assign_to`.
    pub fn assign_to<Z: DataMut<Elem = A>>(&self, to: &mut ArrayBase<Z, D>) -> Result<(), NoMemory>
        requires same { shape_of to.old ≡ shape_of self.now }
        requires clones { ClonesOfAllAreEqual A.is_clone (element_at self.now) }
        ensures assigned { OnOk result ((i : List ℕ) → element_at to.new i ≡ element_at self.now i) }
        ensures stopped { OnErr result (IsOldOrOf (element_at to.old) (element_at self.now) (element_at to.new)) }
        ensures refused { OnErr result (MayLackForClone A.is_infallible (element_at self.now)) }
        ensures frame { KeepsFrame Z.frame to.old to.new }
    {
        broadcast_to_itself(self);
        to.assign(self)
    }
}
