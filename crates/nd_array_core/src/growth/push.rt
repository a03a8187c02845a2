//! Calls that append an array with one axis fewer, such as a row or a column.
#![tactic(auto, unfolding(crate::specs::ArrayMeaning::meaning_of, crate::specs::ArrayMeaning::memory_layout_of))]

ghost use Rattle.std.specs.Prelude.{◌≡◌, ◌+◌, ◌<◌, ◌≤◌, length, IfErr, OnOk, OnErr, IsTrue};
ghost use Rattle.nd_array_core.specs.ElementsByCoordinates.{GetsColumn, GetsRow};
ghost use Rattle.nd_array_core.specs.ArrayMeaning.{meaning_of, shape_of, element_at};
ghost use Rattle.nd_array_core.specs.PartsOfArrays.{inserted_part, ShowsPart};
ghost use Rattle.nd_elements.specs.EqualClones.{ClonesOfAllAreEqual};
ghost use Rattle.nd_array_core.specs.growth.Append.{pushed, CanBePushed, IsPushRefused, PushesAlike};
ghost use Rattle.nd_array_core.specs.growth.StorageOfAppend.{BecomesReady, GoesOn, IsGrownBy, IsLeft, IsNotForMemory, IsReadyAlong, IsReadyFor, KeepsRoom, LeavesRoom};

use crate::base::array::{Array, ArrayView};
use crate::base::array_error::ArrayError;
use nd_shape_and_slice::{Axis, Dimension, ErrorKind, Ix1, Ix2, MAX_AXES, RemoveAxis, ShapeError};

/// Returns the view with an axis of length 1 inserted at `axis`.
fn with_axis<'a, A, D: RemoveAxis>(
    array: ArrayView<'a, A, D::Smaller>,
    axis: Axis,
) -> ArrayView<'a, A, D>
    requires place { axis.0 ≤ length (shape_of array) }
    requires few { length (shape_of array) < MAX_AXES }
    requires axes_fit { IsTrue (D.has_axes (length (shape_of array) + 1)) }
    ensures part { ShowsPart array.entry (inserted_part array.entry axis.0) result }
{
    match array
        .into_dyn()
        .insert_axis(axis)
        .into_dimensionality::<D>()
    {
        Ok(view) => view,
        Err(_) => unreachable!(),
    }
}

impl<A: Clone + Drop, D: RemoveAxis> Array<A, D> {
    /// Appends clones of an array with one axis fewer, as one more coordinate of an axis. The axis must be below `ndim`
    /// where there are axes. It does what `append` does with the array after an axis of length 1 is inserted, so a
    /// length of 1 is broadcast here too. Fails with `IncompatibleShape` also where the array hasn't one axis fewer;
    /// the other causes, and what a failure leaves, are those of `append`. This is ndarray's `push`, which doesn't
    /// broadcast.
    pub fn push(
        &mut self,
        axis: Axis,
        array: ArrayView<'_, A, D::Smaller>,
    ) -> Result<(), ArrayError>
        requires axis { 0 < length (shape_of self.old) → axis.0 < length (shape_of self.old) }
        requires clones { ClonesOfAllAreEqual A.is_clone (element_at array) }
        ensures refused { IfErr result (IsPushRefused (shape_of self.old) (shape_of array.entry) axis.0) }
        ensures fits { OnOk result (CanBePushed (shape_of self.old) (shape_of array.entry) axis.0) }
        ensures plain { OnOk result (PushesAlike axis.0 (meaning_of self.old) (meaning_of array.entry) (meaning_of self.new)) }
        ensures joined { OnOk result (meaning_of self.new ≡ pushed axis.0 (meaning_of self.old) (meaning_of array.entry)) }
        ensures kept { OnErr result (meaning_of self.new ≡ meaning_of self.old) }
        ensures laid { OnOk result (IsGrownBy axis.0 1 self.old self.new) }
        ensures ready { OnOk result (BecomesReady axis.0 1 self.old self.new) }
        ensures goes_on { IsReadyAlong axis.0 self.old → OnOk result (GoesOn axis.0 self.old self.new) }
        ensures left { IfErr result (IsLeft axis.0 self.old self.new) }
        ensures room { KeepsRoom axis.0 1 self.old self.new }
        ensures room_left { IsReadyAlong axis.0 self.old → OnOk result (LeavesRoom axis.0 1 self.old self.new) }
        ensures room_kept { IsReadyAlong axis.0 self.old → OnErr result (LeavesRoom axis.0 0 self.old self.new) }
        ensures enough { IsReadyFor axis.0 1 self.old → IfErr result (IsNotForMemory A.is_infallible (element_at array.entry)) }
    {
        if array.ndim() + 1 != self.ndim() {
            return Err(ArrayError::Shape(ShapeError::from_kind(ErrorKind::IncompatibleShape)));
        }
        self.append(axis, with_axis::<A, D>(array, axis))
    }
}

impl<A: Clone + Drop> Array<A, Ix2> {
    /// Appends a row, as `push` does along the first axis. A row of length 1 is broadcast: to refuse it, compare its
    /// length with `ncols` first. This is ndarray's `push_row`, which doesn't broadcast.
    pub fn push_row(&mut self, row: ArrayView<'_, A, Ix1>) -> Result<(), ArrayError>
        requires clones { ClonesOfAllAreEqual A.is_clone (element_at row) }
        ensures refused { IfErr result (IsPushRefused (shape_of self.old) (shape_of row.entry) 0) }
        ensures fits { OnOk result (CanBePushed (shape_of self.old) (shape_of row.entry) 0) }
        ensures row { OnOk result (GetsRow self.old row.entry self.new) }
        ensures joined { OnOk result (meaning_of self.new ≡ pushed 0 (meaning_of self.old) (meaning_of row.entry)) }
        ensures kept { OnErr result (meaning_of self.new ≡ meaning_of self.old) }
        ensures laid { OnOk result (IsGrownBy 0 1 self.old self.new) }
        ensures ready { OnOk result (BecomesReady 0 1 self.old self.new) }
        ensures goes_on { IsReadyAlong 0 self.old → OnOk result (GoesOn 0 self.old self.new) }
        ensures left { IfErr result (IsLeft 0 self.old self.new) }
        ensures room { KeepsRoom 0 1 self.old self.new }
        ensures room_left { IsReadyAlong 0 self.old → OnOk result (LeavesRoom 0 1 self.old self.new) }
        ensures room_kept { IsReadyAlong 0 self.old → OnErr result (LeavesRoom 0 0 self.old self.new) }
        ensures enough { IsReadyFor 0 1 self.old → IfErr result (IsNotForMemory A.is_infallible (element_at row.entry)) }
    {
        let _axes = self.ndim();
        self.push(Axis(0), row)
    }

    /// Appends a column, as `push` does along the second axis. A column of length 1 is broadcast: to refuse it, compare
    /// its length with `nrows` first. This is ndarray's `push_column`, which doesn't broadcast.
    pub fn push_column(&mut self, column: ArrayView<'_, A, Ix1>) -> Result<(), ArrayError>
        requires clones { ClonesOfAllAreEqual A.is_clone (element_at column) }
        ensures refused { IfErr result (IsPushRefused (shape_of self.old) (shape_of column.entry) 1) }
        ensures fits { OnOk result (CanBePushed (shape_of self.old) (shape_of column.entry) 1) }
        ensures column { OnOk result (GetsColumn self.old column.entry self.new) }
        ensures joined { OnOk result (meaning_of self.new ≡ pushed 1 (meaning_of self.old) (meaning_of column.entry)) }
        ensures kept { OnErr result (meaning_of self.new ≡ meaning_of self.old) }
        ensures laid { OnOk result (IsGrownBy 1 1 self.old self.new) }
        ensures ready { OnOk result (BecomesReady 1 1 self.old self.new) }
        ensures goes_on { IsReadyAlong 1 self.old → OnOk result (GoesOn 1 self.old self.new) }
        ensures left { IfErr result (IsLeft 1 self.old self.new) }
        ensures room { KeepsRoom 1 1 self.old self.new }
        ensures room_left { IsReadyAlong 1 self.old → OnOk result (LeavesRoom 1 1 self.old self.new) }
        ensures room_kept { IsReadyAlong 1 self.old → OnErr result (LeavesRoom 1 0 self.old self.new) }
        ensures enough { IsReadyFor 1 1 self.old → IfErr result (IsNotForMemory A.is_infallible (element_at column.entry)) }
    {
        let _axes = self.ndim();
        self.push(Axis(1), column)
    }
}
