//! A call that changes each element of a part of an array by a closure, through a view that is lent for the call.
#![tactic(auto)]

ghost use Rattle.std.specs.Prelude.{◌≡◌, IsTrue};
ghost use Rattle.nd_shape_and_slice.specs.SliceInfo.{fits_shape};
ghost use Rattle.nd_elements.specs.elements.ElementChanges.{ChangeableInAnyOrder, ChangesAll, ChangesAlike};
ghost use Rattle.nd_array_core.specs.ArrayInStorage.{element_placed};
ghost use Rattle.nd_array_core.specs.base.ArrayWrites.{KeepsFrame};
ghost use Rattle.nd_array_core.specs.scoped.ViewTasks.{view_frame, lent_frame, CanBeSeen};
ghost use Rattle.nd_array_core.specs.scoped.TasksOnParts.{KeepsBut};
ghost use Rattle.nd_array_core.specs.scoped.FilledParts.{KeepsOtherIndexes};
ghost use Rattle.nd_array_core.specs.PartsOfArrays.{sliced_part};
ghost use Rattle.nd_array_core.specs.scoped.AssignedOrChangedParts.{ChangeableInPart, ChangesPart, ChangesNamed, MayChangeView, ChangesView, ChangesViewAlike};

use super::with_view_mut::{LentView, ViewTask};
use crate::base::array::ArrayBase;
use nd_elements::storage::{DataMut, ViewMutRepr};
use nd_shape_and_slice::{Dimension, SliceArg};

/// The task that calls a closure with each element of a view, which the closure may write.
#[derive(Drop)]
pub struct Change<F: Drop> {
    /// The closure that is called with each element.
    pub f: F,
}

impl<A, D: Dimension, F: FnMut(&mut A) + Drop> ViewTask<A, D> for Change<F> {
    type Answer = ();

    ghost pre = { λ task v. ChangeableInAnyOrder F.FnMut v.placed_shape (element_placed v) task.f };

    ghost post = { λ task v w _. ChangesAll F.FnMut v.placed_shape (element_placed v) (element_placed w) task.f × ChangesAlike F.FnMut task.f (element_placed v) (element_placed w) };

    fn run(self, lent: LentView<'_, A, D, D::Strides>) -> (ViewMutRepr<'_, A>, ())
        requires sound { CanBeSeen D.lengths D.Strides.strides_of lent }
        requires callable { MayChangeView F.FnMut D.lengths D.Strides.strides_of lent self.f }
        ensures frame { view_frame result.0 ≡ lent_frame lent.entry }
        ensures visits { ChangesView F.FnMut D.lengths D.Strides.strides_of lent.entry result.0 self.f }
        ensures alike { ChangesViewAlike F.FnMut D.lengths D.Strides.strides_of lent.entry result.0 self.f }
    {
        let mut view = lent.into_view();
        view.map_inplace(self.f);
        (view.into_storage(), ())
    }
}

impl<S: DataMut, D: Dimension> ArrayBase<S, D> {
    ghost use Rattle.nd_array_core.specs.ArrayMeaning.{shape_of};

    /// Calls the function with each element of the part that the list of slices names, which it may write, once each,
    /// in an unspecified order; every other index keeps its element. The list must fit the shape (`SliceArg::fits`),
    /// and the function's own condition must hold at each of these calls. ndarray has no such call; the nearest is its
    /// `slice_mut(info).map_inplace(f)`.
    pub fn map_slice<I: SliceArg<D>, F: FnMut(&mut S::Elem) + Drop>(&mut self, info: I, f: F)
        requires fits { IsTrue (fits_shape (shape_of self.old) (I.elements_of info)) }
        requires callable { ChangeableInPart F.FnMut self.old (I.elements_of info) f }
        ensures visits { ChangesPart F.FnMut self.old self.new (I.elements_of info) f }
        ensures named { ChangesNamed F.FnMut self.old self.new (I.elements_of info) f }
        ensures kept { KeepsBut self.old self.new (sliced_part self.old (I.elements_of info)) }
        ensures unnamed { KeepsOtherIndexes self.old self.new (I.elements_of info) }
        ensures frame { KeepsFrame S.frame self.old self.new }
    {
        self.with_slice_mut(info, Change { f })
    }
}
