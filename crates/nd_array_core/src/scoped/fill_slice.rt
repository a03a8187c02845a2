//! A call that fills a part of an array, through a view that is lent for the call.
#![tactic(auto)]

ghost use Rattle.std.specs.Prelude.{◌≡◌, ℕ, List, Some, OnOk, OnErr, IsTrue};
ghost use Rattle.nd_shape_and_slice.specs.ShapesAndIndexOrders.{size_of};
ghost use Rattle.nd_shape_and_slice.specs.SliceInfo.{fits_shape};
ghost use Rattle.nd_array_core.specs.ArrayInStorage.{element_placed};
ghost use Rattle.nd_elements.specs.LackOfMemory.{MayLackForClones};
ghost use Rattle.nd_elements.specs.WritesByIndex.{IsOldOrNew};
ghost use Rattle.nd_array_core.specs.base.ArrayWrites.{KeepsFrame};
ghost use Rattle.nd_array_core.specs.scoped.ViewTasks.{view_frame, lent_frame, CanBeSeen};
ghost use Rattle.nd_array_core.specs.scoped.TasksOnParts.{IsFilledWith, KeepsBut};
ghost use Rattle.nd_array_core.specs.PartsOfArrays.{sliced_part};
ghost use Rattle.nd_array_core.specs.scoped.FilledParts.{IsOldOrFilled, IsFilledWhere, FillsNamed, KeepsOtherIndexes, IsViewFilled, IsViewFilledInPart, MayLackForFill};
ghost use Rattle.nd_elements.specs.EqualClones.{ClonesAreEqual};

use super::with_view_mut::{LentView, ViewTask};
use crate::base::array::ArrayBase;
use nd_elements::storage::{DataMut, ViewMutRepr};
use nd_shape_and_slice::{Dimension, NoMemory, SliceArg};

/// The task that fills a view with one value. If a clone is refused, each index has its old element or the value.
#[derive(Drop)]
pub struct Fill<A: Drop> {
    /// The value that is cloned to each index.
    pub value: A,
}

impl<A: Clone + Drop, D: Dimension> ViewTask<A, D> for Fill<A> {
    ghost use Rattle.nd_elements.specs.ShapeAndElements.{inside};

    type Answer = Result<(), NoMemory>;

    ghost pre = { λ task v. ClonesAreEqual A.is_clone task.value };

    ghost post = { λ task v w answer. OnOk answer ((i : List ℕ) → element_placed w i ≡ inside v.placed_shape i (Some task.value)) × OnErr answer (IsOldOrNew v.placed_shape (element_placed v) task.value (element_placed w)) × OnErr answer (MayLackForClones A.is_infallible task.value (size_of v.placed_shape)) };

    fn run(self, lent: LentView<'_, A, D, D::Strides>) -> (ViewMutRepr<'_, A>, Result<(), NoMemory>)
        requires sound { CanBeSeen D.lengths D.Strides.strides_of lent }
        requires clones { ClonesAreEqual A.is_clone self.value }
        ensures frame { view_frame result.0 ≡ lent_frame lent.entry }
        ensures filled { OnOk result.1 (IsViewFilled D.lengths D.Strides.strides_of lent.entry result.0 self.value) }
        ensures stopped { OnErr result.1 (IsViewFilledInPart D.lengths D.Strides.strides_of lent.entry result.0 self.value) }
        ensures refused { OnErr result.1 (MayLackForClones A.is_infallible self.value (size_of (D.lengths lent.entry.dim))) }
    {
        let mut view = lent.into_view();
        let done = view.fill(self.value);
        (view.into_storage(), done)
    }
}

impl<S: DataMut, D: Dimension> ArrayBase<S, D>
where
    S::Elem: Clone + Drop,
{
    ghost use Rattle.nd_array_core.specs.ArrayMeaning.{shape_of};

    /// Writes a clone of the value at each index of the part that the list of slices names; every other index keeps its
    /// element. The list must fit the shape (`SliceArg::fits`), and a clone must equal its original. Fails with
    /// `NoMemory` if a clone is refused, and for no other cause; each index of the part then has its old element or the
    /// value. ndarray has no such call; the nearest is its `slice_mut(info).fill(value)`.
    pub fn fill_slice<I: SliceArg<D>>(&mut self, info: I, value: S::Elem) -> Result<(), NoMemory>
        requires fits { IsTrue (fits_shape (shape_of self.old) (I.elements_of info)) }
        requires clones { ClonesAreEqual S.Elem.is_clone value }
        ensures filled { OnOk result (IsFilledWith self.new (sliced_part self.old (I.elements_of info)) value) }
        ensures stopped { OnErr result (IsOldOrFilled self.old self.new (sliced_part self.old (I.elements_of info)) value) }
        ensures kept { KeepsBut self.old self.new (sliced_part self.old (I.elements_of info)) }
        ensures named { OnOk result (FillsNamed self.old self.new (I.elements_of info) value) }
        ensures unnamed { KeepsOtherIndexes self.old self.new (I.elements_of info) }
        ensures exact { OnOk result (IsFilledWhere self.old self.new (I.elements_of info) value) }
        ensures refused { OnErr result (MayLackForFill S.Elem.is_infallible value (sliced_part self.old (I.elements_of info))) }
        ensures frame { KeepsFrame S.frame self.old self.new }
    {
        self.with_slice_mut(info, Fill { value })
    }
}
