//! A fold of all elements into one value.
#![tactic(auto, unfolding(crate::specs::ArrayMeaning::meaning_of, crate::specs::ArrayMeaning::memory_layout_of))]

ghost use Rattle.std.specs.Prelude.{◌<◌};
ghost use Rattle.std.specs.List.{fold};
ghost use Rattle.nd_elements.specs.ShapeAndElements.{row_major_elements};
ghost use Rattle.nd_elements.specs.elements.ElementFolds.{FoldsAll, FoldableInAnyOrder, FoldsAlike};

use crate::base::array::ArrayBase;
use nd_elements::elements::fold::fold_places;
use nd_elements::storage::Data;
use nd_shape_and_slice::Dimension;

impl<S: Data, D: Dimension> ArrayBase<S, D> {
    ghost use Rattle.nd_array_core.specs.ArrayMeaning.{meaning_of, shape_of, element_at};

    /// Folds all elements into a total: the function is called with the total so far and with each element, once each,
    /// in an unspecified order. The function's own condition must hold at each of these calls. This is ndarray's
    /// `fold`.
    pub fn fold<F: FnMut(B, &S::Elem) -> B, B>(&self, init: B, f: F) -> B
        requires callable { FoldableInAnyOrder F.FnMut (shape_of self.now) (element_at self.now) f init }
        ensures visits { FoldsAll F.FnMut (shape_of self.now) (element_at self.now) f init result }
        ensures settled { FoldsAlike F.FnMut f init (row_major_elements (meaning_of self.now)) result }
    {
        let order = self.layout.loop_order();
        let (_f, total) = fold_places(&self.storage, order.places(), init, f);
        total
    }
}
