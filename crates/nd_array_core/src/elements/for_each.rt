//! A closure that is shown each element.
#![tactic(auto, unfolding(crate::specs::ArrayMeaning::meaning_of, crate::specs::ArrayMeaning::memory_layout_of))]

ghost use Rattle.std.specs.Prelude.{◌<◌};
ghost use Rattle.nd_elements.specs.elements.ElementMaps.{AnswersElement, MayBeShown, AskableOfAll, VisitsAll};

use crate::base::array::ArrayBase;
use nd_elements::elements::for_each::show_places;
use nd_elements::storage::Data;
use nd_shape_and_slice::Dimension;

impl<S: Data, D: Dimension> ArrayBase<S, D> {
    ghost use Rattle.nd_array_core.specs.ArrayMeaning.{meaning_of};

    /// Calls the function with each element once, in an unspecified order. The function's own condition must hold at
    /// each of these calls. This is ndarray's `for_each`.
    pub fn for_each<F: FnMut(&S::Elem)>(&self, f: F)
        requires callable { AskableOfAll (AnswersElement F.FnMut) (MayBeShown F.FnMut) (meaning_of self.now) f }
        ensures visits { VisitsAll (AnswersElement F.FnMut) (meaning_of self.now) f }
    {
        let order = self.layout.loop_order();
        show_places(&self.storage, order.places(), f);
    }
}
