//! Calls that replace each element by what a closure returns for a clone of it.
#![tactic(auto, unfolding(crate::specs::ArrayMeaning::meaning_of, crate::specs::ArrayMeaning::memory_layout_of))]

ghost use Rattle.std.specs.Prelude.{◌<◌, IfOk, OnOk, OnErr};
ghost use Rattle.nd_elements.specs.LackOfMemory.{MayLackForClone};
ghost use Rattle.nd_elements.specs.EqualClones.{ClonesOfAllAreEqual};
ghost use Rattle.nd_array_core.specs.base.ArrayWrites.{KeepsFrame};
ghost use Rattle.nd_elements.specs.elements.ElementMaps.{AnswersValue, MayBeGiven, AnswersValuesBy, AskableOfAll};
ghost use Rattle.nd_array_core.specs.elements.ArrayMaps.{ShowsAnswers, ShowsMapped, ShowsOldOrMapped, ShowsSomeAnswers};

use crate::base::array::ArrayBase;
use nd_elements::elements::mapv_inplace::replace_places;
use nd_elements::storage::DataMut;
use nd_shape_and_slice::{Dimension, NoMemory};

impl<S: DataMut, D: Dimension> ArrayBase<S, D>
where
    S::Elem: Clone + Drop,
{
    ghost use Rattle.nd_array_core.specs.ArrayMeaning.{meaning_of, element_at};

    /// Writes at each index what the function returns for a clone of the element there. A clone must equal its
    /// original. The function is called once for each element, in an unspecified order, and its own condition must hold
    /// at each of these calls. Fails with `NoMemory` if a clone is refused, and for no other cause; each index then has
    /// its old element or the result for it. This is ndarray's `mapv_inplace`.
    pub fn mapv_inplace<F: FnMut(S::Elem) -> S::Elem>(&mut self, f: F) -> Result<(), NoMemory>
        requires clones { ClonesOfAllAreEqual S.Elem.is_clone (element_at self.old) }
        requires callable { AskableOfAll (AnswersValue F.FnMut) (MayBeGiven F.FnMut) (meaning_of self.old) f }
        ensures visits { OnOk result (ShowsAnswers (AnswersValue F.FnMut) f self.old self.new) }
        ensures alike { (h : _) → AnswersValuesBy F.FnMut h f → OnOk result (ShowsMapped h self.old self.new) }
        ensures stopped { OnErr result (ShowsSomeAnswers (AnswersValue F.FnMut) f self.old self.new) }
        ensures either { (h : _) → AnswersValuesBy F.FnMut h f → OnErr result (ShowsOldOrMapped h self.old self.new) }
        ensures refused { OnErr result (MayLackForClone S.Elem.is_infallible (element_at self.old)) }
        ensures frame { KeepsFrame S.frame self.old self.new }
    {
        let order = self.layout.loop_order();
        let _f = replace_places(&mut self.storage, order.places(), f)?;
        Ok(())
    }
}

impl<S: DataMut + Drop, D: Dimension> ArrayBase<S, D>
where
    S::Elem: Clone + Drop,
{
    ghost use Rattle.nd_array_core.specs.ArrayMeaning.{meaning_of, element_at};

    /// Does what `mapv_inplace` does, and returns the array itself. Fails with `NoMemory` if a clone is refused, and
    /// for no other cause; the array is then dropped. This is ndarray's `mapv_into`.
    pub fn mapv_into<F: FnMut(S::Elem) -> S::Elem>(self, f: F) -> Result<Self, NoMemory>
        requires clones { ClonesOfAllAreEqual S.Elem.is_clone (element_at self) }
        requires callable { AskableOfAll (AnswersValue F.FnMut) (MayBeGiven F.FnMut) (meaning_of self) f }
        ensures visits { IfOk result (ShowsAnswers (AnswersValue F.FnMut) f self) }
        ensures alike { (h : _) → AnswersValuesBy F.FnMut h f → IfOk result (ShowsMapped h self) }
        ensures refused { OnErr result (MayLackForClone S.Elem.is_infallible (element_at self)) }
        ensures frame { IfOk result (KeepsFrame S.frame self) }
    {
        let mut array = self;
        array.mapv_inplace(f)?;
        Ok(array)
    }
}
