//! Calls that return the diagonal of all axes: of arrays and views by value, and as a view to be read or written.
#![tactic(auto, unfolding(crate::specs::ArrayMeaning::meaning_of, crate::specs::ArrayMeaning::memory_layout_of))]

ghost use Rattle.std.specs.Prelude.{◌<◌};
ghost use Rattle.std.specs.Borrow.{sem};
ghost use Rattle.nd_array_core.specs.ArrayMeaning.{place_at};
ghost use Rattle.nd_array_core.specs.PartsOfArrays.{diagonal_part, ShowsPart, BecomesPart};

use crate::base::array::{ArrayBase, ArrayView, ArrayViewMut};
use nd_elements::storage::{Data, DataMut};
use nd_shape_and_slice::{AxisCount, Dimension, Ix1, StrideList};

impl<S: Data, D: Dimension> ArrayBase<S, D> {
    /// Returns the array of the elements whose coordinates are all the same. For an array without axes it has that
    /// array's one element. This is ndarray's `into_diag`.
    pub fn into_diag(self) -> ArrayBase<S, Ix1>
        ensures part { BecomesPart self (diagonal_part self) result }
    {
        let layout = self.layout.diagonal();
        ArrayBase {
            storage: self.storage,
            layout,
        }
    }

    /// Returns the view of the elements whose coordinates are all the same. For an array without axes it shows that
    /// array's one element. This is ndarray's `diag`.
    pub fn diag(&self) -> ArrayView<'_, S::Elem, Ix1>
        ensures part { ShowsPart self.now (diagonal_part self.now) result }
    {
        self.view().into_diag()
    }
}

impl<S: DataMut, D: Dimension> ArrayBase<S, D> {
    ghost use Rattle.nd_array_core.specs.layout.ArrayAfterMutableView.{array_follows_part, left_by, lent_places, tie_of, LeavesBut, LeavesPlacesBut, LeavesRefilled};

    /// Returns the view of the elements whose coordinates are all the same, to be read and written. For an array
    /// without axes it shows that array's one element. Once the view has ended, a caller knows of the array what it
    /// knows after `view_mut`, and that each index which the view doesn't name shows what it showed before (`kept`).
    /// This is ndarray's `diag_mut`.
    pub fn diag_mut(&mut self) -> ArrayViewMut<'_, S::Elem, Ix1>
        ensures* writes_back { sem 𝓛 (array_follows_part S.row S.Elem.row D.row D.Strides.row S.Data D.Dimension D.AxisCount D.Strides.StrideList self.entry (tie_of result) (lent_places result)) }
        ensures part { ShowsPart self.old (diagonal_part self.old) result }
        ensures refilled { LeavesRefilled S.frame self.old (left_by self.old result) }
        ensures others { LeavesPlacesBut (place_at result) self.old (left_by self.old result) }
        ensures kept { LeavesBut self.old (left_by self.old result) (diagonal_part self.old) }
    {
        let diagonal = self.layout.diagonal();
        self.lent_as(diagonal)
    }
}
