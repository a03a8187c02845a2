//! Rows and columns of arrays with two axes.
#![tactic(auto, unfolding(crate::specs::ArrayMeaning::meaning_of, crate::specs::ArrayMeaning::memory_layout_of))]

ghost use Rattle.std.specs.Prelude.{◌≡◌, ◌<◌, ℕ, slice_index, List};
ghost use Rattle.std.specs.Borrow.{sem};
ghost use Rattle.nd_array_core.specs.ArrayMeaning.{shape_of, place_at};
ghost use Rattle.nd_array_core.specs.PartsOfArrays.{coordinate_part, ShowsPart};
ghost use Rattle.nd_array_core.specs.ElementsByCoordinates.{element_of_1, element_of_2};

use crate::base::array::{ArrayBase, ArrayView, ArrayViewMut};
use nd_elements::storage::{Data, DataMut};
use nd_shape_and_slice::{Axis, AxisCount, Dimension, Ix1, Ix2, RemoveAxis, StrideList};

impl<S: Data> ArrayBase<S, Ix2> {
    /// Returns the view of a row, whose number must be below the length of axis 0 (`len_of`). This is ndarray's `row`.
    pub fn row(&self, index: usize) -> ArrayView<'_, S::Elem, Ix1>
        requires { index < slice_index (shape_of self.now) 0 }
        ensures part { ShowsPart self.now (coordinate_part self.now 0 index) result }
        ensures elements { (i : ℕ) → element_of_1 result i ≡ element_of_2 self.now index i }
    {
        self.index_axis(Axis(0), index)
    }

    /// Returns the view of a column, whose number must be below the length of axis 1. This is ndarray's `column`.
    pub fn column(&self, index: usize) -> ArrayView<'_, S::Elem, Ix1>
        requires { index < slice_index (shape_of self.now) 1 }
        ensures part { ShowsPart self.now (coordinate_part self.now 1 index) result }
        ensures elements { (i : ℕ) → element_of_1 result i ≡ element_of_2 self.now i index }
    {
        self.index_axis(Axis(1), index)
    }
}

impl<S: DataMut> ArrayBase<S, Ix2> {
    ghost use Rattle.nd_array_core.specs.layout.ArrayAfterMutableView.{array_follows_part, left_by, lent_places, tie_of, LeavesBut, LeavesPlacesBut, LeavesRefilled};
    ghost use Rattle.nd_array_core.specs.scoped.TasksOnParts.{KeepsBut};
    ghost use Rattle.nd_shape_and_slice.specs.contracts.fixed_dimensions.Dim.{the_row as dim_row};
    ghost use Rattle.std.specs.Borrow.{Array as Counted};
    ghost use denote.Param.{number};
    ghost use denote.Builtin.{isize};

    /// Returns the view of a row, to be read and written. Its number must be below the length of axis 0 (`len_of`).
    /// Once the view has ended, a caller knows of the array what it knows after `view_mut`, and that the other rows
    /// show what they showed before (`kept`). This is ndarray's `row_mut`.
    pub fn row_mut(&mut self, index: usize) -> ArrayViewMut<'_, S::Elem, Ix1>
        requires { index < slice_index (shape_of self.old) 0 }
        ensures* writes_back { sem 𝓛 (array_follows_part S.row S.Elem.row (dim_row (number 2)) (Counted isize 2) S.Data ⟦<Ix2 as Dimension>⟧ ⟦<Ix2 as AxisCount>⟧ ⟦<[isize; 2] as StrideList>⟧ self.entry (tie_of result) (lent_places result)) }
        ensures part { ShowsPart self.old (coordinate_part self.old 0 index) result }
        ensures refilled { LeavesRefilled S.frame self.old (left_by self.old result) }
        ensures others { LeavesPlacesBut (place_at result) self.old (left_by self.old result) }
        ensures kept { LeavesBut self.old (left_by self.old result) (coordinate_part self.old 0 index) }
    {
        self.index_axis_mut(Axis(0), index)
    }

    /// Returns the view of a column, to be read and written. Its number must be below the length of axis 1. Once the
    /// view has ended, a caller knows of the array what it knows after `view_mut`, and that the other columns show what
    /// they showed before (`kept`). This is ndarray's `column_mut`.
    pub fn column_mut(&mut self, index: usize) -> ArrayViewMut<'_, S::Elem, Ix1>
        requires { index < slice_index (shape_of self.old) 1 }
        ensures* writes_back { sem 𝓛 (array_follows_part S.row S.Elem.row (dim_row (number 2)) (Counted isize 2) S.Data ⟦<Ix2 as Dimension>⟧ ⟦<Ix2 as AxisCount>⟧ ⟦<[isize; 2] as StrideList>⟧ self.entry (tie_of result) (lent_places result)) }
        ensures part { ShowsPart self.old (coordinate_part self.old 1 index) result }
        ensures refilled { LeavesRefilled S.frame self.old (left_by self.old result) }
        ensures others { LeavesPlacesBut (place_at result) self.old (left_by self.old result) }
        ensures kept { LeavesBut self.old (left_by self.old result) (coordinate_part self.old 1 index) }
    {
        self.index_axis_mut(Axis(1), index)
    }
}
