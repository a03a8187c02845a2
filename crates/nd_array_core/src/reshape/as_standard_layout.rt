//! A call that returns the elements in the standard layout.
#![tactic(auto, unfolding(crate::specs::ArrayMeaning::meaning_of, crate::specs::ArrayMeaning::memory_layout_of))]

ghost use Rattle.std.specs.Prelude.{IfOk, IfErr};
ghost use Rattle.nd_array_core.specs.ArrayMeaning.{element_at};
ghost use Rattle.nd_elements.specs.EqualClones.{ClonesOfAllAreEqual};
ghost use Rattle.nd_array_core.specs.reshape.EitherArray.{IsOkView, ViewsOrLaysOut};
ghost use Rattle.nd_array_core.specs.reshape.ElementsAsSlice.{IsStandardArray};

use crate::base::array::ArrayBase;
use crate::elements::to_owned::ordered_to_owned;
use crate::reshape::either_array::{EitherArray, ViewOrOwned};
use nd_elements::storage::Data;
use nd_shape_and_slice::{Dimension, NoMemory};
use std::alloc::Global;

impl<S: Data, D: Dimension> ArrayBase<S, D>
where
    S::Elem: Clone + Drop,
{
    /// Returns the elements in the standard layout. If the array is in that layout (`is_standard_layout`), the result
    /// is a view, which takes no memory and clones nothing; otherwise it is an array of clones in row-major order. A
    /// clone must equal its original. Fails with `NoMemory` if the storage or a clone is refused. This is ndarray's
    /// `as_standard_layout`.
    pub fn as_standard_layout(&self, alloc: Global) -> Result<ViewOrOwned<'_, S::Elem, D>, NoMemory>
        requires clones { ¬ (IsStandardArray self.now) → ClonesOfAllAreEqual S.Elem.is_clone (element_at self.now) }
        ensures refused { IfErr result (λ _. ¬ (IsStandardArray self.now)) }
        ensures kind { IfOk result (ViewsOrLaysOut self.now) }
        ensures standard { IsStandardArray self.now → IsOkView result }
    {
        if self.is_standard_layout() {
            return Ok(EitherArray::View(self.view()));
        }
        let copy = ordered_to_owned(alloc, self)?;
        Ok(EitherArray::Owned(copy))
    }
}
