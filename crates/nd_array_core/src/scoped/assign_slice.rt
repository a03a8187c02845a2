//! A call that assigns another array to a part of an array, through a view that is lent for the call.
#![tactic(auto)]

ghost use Rattle.std.specs.Prelude.{◌≡◌, ℕ, List, OnOk, OnErr, IsTrue};
ghost use Rattle.nd_shape_and_slice.specs.SliceInfo.{fits_shape};
ghost use Rattle.nd_elements.specs.LackOfMemory.{MayLackForClone};
ghost use Rattle.nd_elements.specs.EqualClones.{ClonesOfAllAreEqual};
ghost use Rattle.nd_elements.specs.elements.PairsWithOneWritten.{IsOldOrOf};
ghost use Rattle.nd_array_core.specs.ArrayInStorage.{element_placed};
ghost use Rattle.nd_array_core.specs.base.ArrayWrites.{KeepsFrame};
ghost use Rattle.nd_array_core.specs.scoped.ViewTasks.{view_frame, lent_frame, lent_view, CanBeSeen};
ghost use Rattle.nd_array_core.specs.scoped.TasksOnParts.{KeepsBut};
ghost use Rattle.nd_array_core.specs.scoped.FilledParts.{KeepsOtherIndexes};
ghost use Rattle.nd_array_core.specs.PartsOfArrays.{sliced_part};
ghost use Rattle.nd_array_core.specs.scoped.AssignedOrChangedParts.{FitsPart, AssignsPart, AssignsPartly, AssignsNamed, IsShown, IsOldOr};

use super::with_view_mut::{LentView, ViewTask};
use crate::base::array::ArrayBase;
use crate::laws::broadcast_to_itself;
use nd_elements::storage::{Data, DataMut, ViewMutRepr};
use nd_shape_and_slice::{Dimension, NoMemory, SliceArg};

/// The task that assigns an array to a view. If a clone is refused, each index has its old element or the new one.
#[derive(Drop)]
pub struct Assign<Z: Data + Drop, E: Dimension> {
    /// The array whose elements are cloned.
    pub patch: ArrayBase<Z, E>,
}

impl<A: Clone + Drop, Z: Data<Elem = A> + Drop, D: Dimension, E: Dimension> ViewTask<A, D>
    for Assign<Z, E> {
    ghost use Rattle.nd_array_core.specs.ArrayMeaning.{shape_of, element_at};

    type Answer = Result<(), NoMemory>;

    ghost pre = { λ task v. (shape_of task.patch ≡ v.placed_shape) × ClonesOfAllAreEqual A.is_clone (element_at task.patch) };

    ghost post = { λ task v w answer. OnOk answer ((i : List ℕ) → element_placed w i ≡ element_at task.patch i) × OnErr answer (IsOldOrOf (element_placed v) (element_at task.patch) (element_placed w)) × OnErr answer (MayLackForClone A.is_infallible (element_at task.patch)) };

    fn run(self, lent: LentView<'_, A, D, D::Strides>) -> (ViewMutRepr<'_, A>, Result<(), NoMemory>)
        requires sound { CanBeSeen D.lengths D.Strides.strides_of lent }
        requires same { shape_of self.patch ≡ (lent_view D.lengths D.Strides.strides_of lent).placed_shape }
        requires clones { ClonesOfAllAreEqual A.is_clone (element_at self.patch) }
        ensures frame { view_frame result.0 ≡ lent_frame lent.entry }
        ensures assigned { OnOk result.1 (IsShown D.lengths D.Strides.strides_of (element_at self.patch) lent.entry result.0) }
        ensures stopped { OnErr result.1 (IsOldOr D.lengths D.Strides.strides_of (element_at self.patch) lent.entry result.0) }
        ensures refused { OnErr result.1 (MayLackForClone A.is_infallible (element_at self.patch)) }
    {
        let mut view = lent.into_view();
        broadcast_to_itself(&self.patch);
        let done = view.assign(&self.patch);
        (view.into_storage(), done)
    }
}

impl<A: Clone + Drop, S: DataMut<Elem = A>, D: Dimension> ArrayBase<S, D> {
    ghost use Rattle.nd_array_core.specs.ArrayMeaning.{shape_of, element_at};

    /// Writes clones of a patch's elements to the part that the list of slices names; every other index keeps its
    /// element. The list must fit the shape (`SliceArg::fits`), the patch must have the shape of that part (`broadcast`
    /// gives it that shape), and a clone must equal its original. Fails with `NoMemory` if a clone is refused, and for
    /// no other cause; each index of the part then has its old element or the new one. ndarray has no such call; the
    /// nearest is its `slice_mut(info).assign(patch)`.
    pub fn assign_slice<I: SliceArg<D>, Z: Data<Elem = A>, E: Dimension>(
        &mut self,
        info: I,
        patch: &ArrayBase<Z, E>,
    ) -> Result<(), NoMemory>
        requires fits { IsTrue (fits_shape (shape_of self.old) (I.elements_of info)) }
        requires same { FitsPart self.old (I.elements_of info) patch.now }
        requires clones { ClonesOfAllAreEqual A.is_clone (element_at patch.now) }
        ensures assigned { OnOk result (AssignsPart self.old self.new (I.elements_of info) patch.now) }
        ensures stopped { OnErr result (AssignsPartly self.old self.new (I.elements_of info) patch.now) }
        ensures kept { KeepsBut self.old self.new (sliced_part self.old (I.elements_of info)) }
        ensures named { OnOk result (AssignsNamed self.old self.new (I.elements_of info) patch.now) }
        ensures unnamed { KeepsOtherIndexes self.old self.new (I.elements_of info) }
        ensures refused { OnErr result (MayLackForClone A.is_infallible (element_at patch.now)) }
        ensures frame { KeepsFrame S.frame self.old self.new }
    {
        self.with_slice_mut(
            info,
            Assign {
                patch: patch.view(),
            },
        )
    }
}
