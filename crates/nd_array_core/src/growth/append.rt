//! A call that appends an array to another one along an axis.
#![tactic(auto, unfolding(crate::specs::ArrayMeaning::meaning_of, crate::specs::ArrayMeaning::memory_layout_of))]

ghost use Rattle.std.specs.Prelude.{◌↔◌, ◌≡◌, ◌<◌, ◌≤◌, IsTrue, OnOk, OnErr, IfErr, [], length, slice_index};
ghost use Rattle.nd_shape_and_slice.specs.ShapesAndIndexOrders.{size_of, HasCheckedSize};
ghost use Rattle.nd_layout.specs.LayoutStepsOfCalls.{placement_of};
ghost use Rattle.nd_array_core.specs.ConcatenationAndSplit.{concatenated, concatenated_shape};
ghost use Rattle.nd_array_core.specs.ArrayMeaning.{meaning_of, shape_of, element_at};
ghost use Rattle.nd_elements.specs.EqualClones.{ClonesOfAllAreEqual};
ghost use Rattle.nd_elements.specs.BorrowedAndOwnedStorages.{stored_list, room_of};
ghost use Rattle.nd_array_core.specs.growth.Append.{CanComeAfter, IsAppendRefused, JoinsAlike, GrowsBy, ComesAfter, HasRoomAfter, LiesFresh, ComesFresh, FitsInto, MayLackForCloneOf};
ghost use Rattle.nd_array_core.specs.growth.StorageOfAppend.{BecomesReady, CanGrowOn, GoesOn, IsGrownBy, IsLeft, IsReadyAlong, KeepsRoom, LeavesRoom, LeavesRoomAfter, NeedsOnlyClones};
ghost use Rattle.nd_array_core.specs.growth.AppendOutcomes.{Appended, AppendLacksMemory, ComesAsItIs, GrowsInPlace};

use crate::base::array::{Array, ArrayView};
use crate::base::array_error::ArrayError;
use crate::growth::append_to_vec::put_after;
use crate::growth::joined_shape::{broadcast_after, joined_dim};
use nd_elements::storage::OwnedRepr;
use nd_layout::Layout;
use nd_shape_and_slice::{Axis, Dimension, NoMemory};

/// Appends clones of the elements of `array` to `storage`, all of whose elements `layout` names, and makes `layout`
/// longer along `axis`. If memory is refused, the elements and the layout stay as they are.
fn append_after<A: Clone + Drop, D: Dimension>(
    storage: &mut OwnedRepr<A>,
    layout: &mut Layout<D, D::Strides>,
    axis: usize,
    array: &ArrayView<'_, A, D>,
) -> Result<(), NoMemory>
    requires comes { ComesAsItIs (D.lengths layout.old.dim) (shape_of array.now) axis }
    requires grows { GrowsInPlace axis (placement_of layout.old) (stored_list storage.old) }
    requires more { 0 < size_of (shape_of array.now) }
    requires clones { ClonesOfAllAreEqual A.is_clone (element_at array.now) }
    ensures grown { OnOk result (GrowsBy axis array.now layout.old layout.new) }
    ensures put { OnOk result (ComesAfter axis array.now layout.old layout.new storage.old storage.new) }
    ensures kept { OnErr result ((stored_list storage.new ≡ stored_list storage.old) × (layout.new ≡ layout.old)) }
    ensures room { room_of storage.old ≤ room_of storage.new }
    ensures enough { HasRoomAfter array.now storage.old → OnErr result (MayLackForCloneOf A.is_infallible array.now) }
{
    let from = layout.dim.length(axis);
    let grown = layout.grown(axis, array.layout.dim.length(axis));
    put_after(&mut storage.items, &grown, axis, from, array)?;
    *layout = grown;
    Ok(())
}

/// Drops what `storage` holds, puts clones of the elements of `array` there, and sets `layout` to one that can grow
/// along `axis`. If memory is refused, `storage` holds nothing and the layout stays as it is.
fn append_fresh<A: Clone + Drop, D: Dimension>(
    storage: &mut OwnedRepr<A>,
    layout: &mut Layout<D, D::Strides>,
    axis: usize,
    array: &ArrayView<'_, A, D>,
) -> Result<(), NoMemory>
    requires on { axis < length (shape_of array.now) }
    requires more { 0 < size_of (shape_of array.now) }
    requires checked { HasCheckedSize (shape_of array.now) }
    requires clones { ClonesOfAllAreEqual A.is_clone (element_at array.now) }
    ensures laid { OnOk result (LiesFresh axis array.now layout.new) }
    ensures put { OnOk result (ComesFresh axis array.now layout.new storage.new) }
    ensures kept { OnErr result (layout.new ≡ layout.old) }
    ensures left { OnErr result (stored_list storage.new ≡ []) }
    ensures room { room_of storage.old ≤ room_of storage.new }
    ensures enough { FitsInto array.now storage.old → OnErr result (MayLackForCloneOf A.is_infallible array.now) }
{
    storage.items.clear();
    let fresh = Layout::growing(array.layout.dim, axis);
    put_after(&mut storage.items, &fresh, axis, 0, array)?;
    *layout = fresh;
    Ok(())
}

impl<A: Clone + Drop, D: Dimension> Array<A, D> {
    /// Returns whether the array names all stored elements, and can grow along `axis` at the end of the storage without
    /// a move.
    fn is_ready_along(&self, axis: Axis) -> bool
        requires { axis.0 < length (shape_of self.now) }
        ensures { IsTrue result ↔ CanGrowOn axis.0 self.now }
    {
        if self.storage.items.len() != self.len() {
            return false;
        }
        !self.layout.must_move(axis.0)
    }

    /// Appends `array` at the end of the storage. Neither array may be empty, and `self` must name all stored elements
    /// and be able to grow along `axis` in place.
    fn append_in_place(&mut self, axis: Axis, array: &ArrayView<'_, A, D>) -> Result<(), NoMemory>
        requires comes { ComesAsItIs (shape_of self.old) (shape_of array.now) axis.0 }
        requires some { 0 < size_of (shape_of self.old) }
        requires more { 0 < size_of (shape_of array.now) }
        requires can { CanGrowOn axis.0 self.old }
        requires clones { ClonesOfAllAreEqual A.is_clone (element_at array.now) }
        ensures appended { OnOk result (Appended axis.0 (meaning_of array.now) self.old self.new) }
        ensures refused { OnErr result (AppendLacksMemory A.is_infallible axis.0 (meaning_of array.now) self.old self.new) }
    {
        append_after(&mut self.storage, &mut self.layout, axis.0, array)
    }

    /// Gives `self` a layout that can grow along `axis`, and then appends `array`. Neither array may be empty.
    fn append_with_relayout(
        &mut self,
        axis: Axis,
        array: &ArrayView<'_, A, D>,
    ) -> Result<(), NoMemory>
        requires comes { ComesAsItIs (shape_of self.old) (shape_of array.now) axis.0 }
        requires some { 0 < size_of (shape_of self.old) }
        requires more { 0 < size_of (shape_of array.now) }
        requires moves { ¬ (CanGrowOn axis.0 self.old) }
        requires clones { ClonesOfAllAreEqual A.is_clone (element_at array.now) }
        ensures appended { OnOk result (Appended axis.0 (meaning_of array.now) self.old self.new) }
        ensures refused { OnErr result (AppendLacksMemory A.is_infallible axis.0 (meaning_of array.now) self.old self.new) }
    {
        let _count = self.len();
        let more = array.len();
        match self.relayout(axis, more) {
            Ok(()) => self.append_in_place(axis, array),
            Err(refused) => Err(refused),
        }
    }

    /// Appends `array`, which must have no elements. `dim` is the shape of the result.
    fn append_nothing(&mut self, axis: Axis, array: &ArrayView<'_, A, D>, dim: D)
        requires comes { ComesAsItIs (shape_of self.old) (shape_of array.now) axis.0 }
        requires none { size_of (shape_of array.now) ≡ 0 }
        requires dim { D.lengths dim ≡ concatenated_shape (shape_of self.old) (shape_of array.now) axis.0 }
        ensures { Appended axis.0 (meaning_of array.now) self.old self.new }
    {
        if !self.is_empty() {
            return;
        }
        self.layout = Layout::without_elements(self.layout.offset, dim);
    }

    /// Appends `array`, which must have elements, to `self`, which must have none.
    fn append_to_none(&mut self, axis: Axis, array: &ArrayView<'_, A, D>) -> Result<(), NoMemory>
        requires comes { ComesAsItIs (shape_of self.old) (shape_of array.now) axis.0 }
        requires none { size_of (shape_of self.old) ≡ 0 }
        requires more { 0 < size_of (shape_of array.now) }
        requires clones { ClonesOfAllAreEqual A.is_clone (element_at array.now) }
        ensures appended { OnOk result (Appended axis.0 (meaning_of array.now) self.old self.new) }
        ensures refused { OnErr result (AppendLacksMemory A.is_infallible axis.0 (meaning_of array.now) self.old self.new) }
    {
        append_fresh(&mut self.storage, &mut self.layout, axis.0, array)
    }

    /// Appends `array`, which must need no broadcast. `dim` is the shape of the result.
    fn append_as_it_is(
        &mut self,
        axis: Axis,
        array: &ArrayView<'_, A, D>,
        dim: D,
    ) -> Result<(), NoMemory>
        requires comes { ComesAsItIs (shape_of self.old) (shape_of array.now) axis.0 }
        requires dim { D.lengths dim ≡ concatenated_shape (shape_of self.old) (shape_of array.now) axis.0 }
        requires clones { ClonesOfAllAreEqual A.is_clone (element_at array.now) }
        ensures appended { OnOk result (Appended axis.0 (meaning_of array.now) self.old self.new) }
        ensures refused { OnErr result (AppendLacksMemory A.is_infallible axis.0 (meaning_of array.now) self.old self.new) }
    {
        if array.is_empty() {
            self.append_nothing(axis, array, dim);
            return Ok(());
        }
        if self.is_empty() {
            return self.append_to_none(axis, array);
        }
        if self.is_ready_along(axis) {
            return self.append_in_place(axis, array);
        }
        self.append_with_relayout(axis, array)
    }

    /// Appends clones of another array's elements along an axis. The axis must be below `ndim` where there are axes,
    /// and a clone must equal its original. The other array needs as many axes, and outside the axis each of its
    /// lengths must be this array's length, or 1, which is broadcast: a row of length 1 that is appended to longer rows
    /// is repeated. Fails with `IncompatibleShape` without axes, or where the shape doesn't fit; with `Overflow` where
    /// the result has no checked size; with `NoMemory` where storage or a clone is refused, which can't be where no
    /// element is appended. After a failure shape and elements are as before. If the array fills its storage, and the
    /// axis has length 1, or a positive stride that no stride of another axis longer than 1 exceeds in magnitude, then
    /// the new elements are put after the old ones, which stay where they are; otherwise the elements are first moved
    /// to an order that allows this. Further appends along the same axis then move nothing. With capacity reserved
    /// (`reserve`) only a clone can lack memory. This is ndarray's `append`, which doesn't broadcast.
    pub fn append(&mut self, axis: Axis, array: ArrayView<'_, A, D>) -> Result<(), ArrayError>
        requires axis { 0 < length (shape_of self.old) → axis.0 < length (shape_of self.old) }
        requires clones { ClonesOfAllAreEqual A.is_clone (element_at array) }
        ensures refused { IfErr result (IsAppendRefused (shape_of self.old) (shape_of array.entry) axis.0) }
        ensures fits { OnOk result (CanComeAfter (shape_of self.old) (shape_of array.entry) axis.0) }
        ensures plain { OnOk result (JoinsAlike axis.0 (meaning_of self.old) (meaning_of array.entry) (meaning_of self.new)) }
        ensures joined { OnOk result (meaning_of self.new ≡ concatenated axis.0 (meaning_of self.old) (meaning_of array.entry)) }
        ensures kept { OnErr result (meaning_of self.new ≡ meaning_of self.old) }
        ensures laid { OnOk result (IsGrownBy axis.0 (slice_index (shape_of array.entry) axis.0) self.old self.new) }
        ensures ready { OnOk result (BecomesReady axis.0 (slice_index (shape_of array.entry) axis.0) self.old self.new) }
        ensures goes_on { IsReadyAlong axis.0 self.old → OnOk result (GoesOn axis.0 self.old self.new) }
        ensures left { IfErr result (IsLeft axis.0 self.old self.new) }
        ensures room { KeepsRoom axis.0 (slice_index (shape_of array.entry) axis.0) self.old self.new }
        ensures room_left { OnOk result (LeavesRoomAfter axis.0 (shape_of array.entry) self.old self.new) }
        ensures room_kept { IsReadyAlong axis.0 self.old → OnErr result (LeavesRoom axis.0 0 self.old self.new) }
        ensures enough { IfErr result (NeedsOnlyClones A.is_infallible axis.0 self.old (meaning_of array.entry)) }
    {
        match joined_dim(&self.layout.dim, &array.layout.dim, axis.0) {
            Ok(dim) => {
                let stretched = broadcast_after(array, &self.layout.dim, axis.0);
                match self.append_as_it_is(axis, &stretched, dim) {
                    Ok(()) => Ok(()),
                    Err(_) => Err(ArrayError::NoMemory),
                }
            }
            Err(refused) => Err(ArrayError::Shape(refused)),
        }
    }
}
