//! New arrays of the elements at chosen coordinates of one axis.
#![tactic(auto)]

ghost use Rattle.std.specs.Prelude.{◌≡◌, ◌+◌, ◌<◌, ◌≤◌, ℕ, [], List, IfOk, OnErr, length, vec_len, vec_capacity};
ghost use Rattle.nd_shape_and_slice.specs.ShapesAndIndexOrders.{size_of, HasCheckedSize};
ghost use Rattle.nd_array_core.specs.along.SelectedCoordinates.{selected_shape, AreCoordinates, ListsRows, ShowsSelected};
ghost use Rattle.nd_array_core.specs.ArrayMeaning.{meaning_of, shape_of, element_at};
ghost use Rattle.nd_elements.specs.EqualClones.{ClonesOfAllAreEqual};

use crate::base::array::{Array, ArrayBase};
use crate::base::constructors::of_items;
use crate::elements::to_vec::listed_after;
use nd_elements::elements::to_vec::room_of;
use nd_elements::storage::Data;
use nd_shape_and_slice::{Axis, Dimension, NoMemory, Order};
use std::alloc::Global;

/// Appends clones of the elements at coordinate `indices[nth]` of the first axis to `before`, in row-major order.
fn selected_row<S: Data, D: Dimension>(
    before: Vec<S::Elem>,
    array: &ArrayBase<S, D>,
    indices: &[usize],
    nth: usize,
) -> Result<Vec<S::Elem>, NoMemory>
where
    S::Elem: Clone + Drop,
    requires axes { 0 < length (shape_of array.now) }
    requires coordinates { AreCoordinates (shape_of array.now) 0 indices.now }
    requires within { nth < length indices.now }
    requires clones { ClonesOfAllAreEqual S.Elem.is_clone (element_at array.now) }
    requires so_far { ListsRows (meaning_of array.now) indices.now nth before.items }
    requires room { size_of (selected_shape (shape_of array.now) 0 indices.now) ≤ vec_capacity before }
    ensures items { IfOk result (λ v. ListsRows (meaning_of array.now) indices.now (nth + 1) v.items) }
    ensures room { IfOk result (λ v. vec_capacity before ≤ vec_capacity v) }
    ensures refused { OnErr result (0 < size_of (selected_shape (shape_of array.now) 0 indices.now)) }
{
    let mut row = array.view();
    row.collapse_axis(Axis(0), indices[nth]);
    listed_after(before, &row)
}

/// Returns clones of the elements at the coordinates `indices` of the first axis: coordinate by coordinate, and in
/// row-major order at each coordinate. `room` must be empty and have capacity for all of them.
fn selected_items<S: Data, D: Dimension>(
    room: Vec<S::Elem>,
    array: &ArrayBase<S, D>,
    indices: &[usize],
) -> Result<Vec<S::Elem>, NoMemory>
where
    S::Elem: Clone + Drop,
    requires axes { 0 < length (shape_of array.now) }
    requires coordinates { AreCoordinates (shape_of array.now) 0 indices.now }
    requires clones { ClonesOfAllAreEqual S.Elem.is_clone (element_at array.now) }
    requires empty { room.items ≡ [] }
    requires room { size_of (selected_shape (shape_of array.now) 0 indices.now) ≤ vec_capacity room }
    ensures items { IfOk result (λ v. ListsRows (meaning_of array.now) indices.now (length indices.now) v.items) }
    ensures count { IfOk result (λ v. vec_len v ≡ size_of (selected_shape (shape_of array.now) 0 indices.now)) }
    ensures refused { OnErr result (0 < size_of (selected_shape (shape_of array.now) 0 indices.now)) }
{
    let mut items = room;
    for nth in 0..indices.len() {
        items = selected_row(items, array, indices, nth)?;
    }
    Ok(items)
}

/// Returns a new array, in row-major order, of clones of the elements at the coordinates `indices` of the first axis.
fn select_first<S: Data, D: Dimension>(
    alloc: Global,
    array: &ArrayBase<S, D>,
    indices: &[usize],
) -> Result<Array<S::Elem, D>, NoMemory>
where
    S::Elem: Clone + Drop,
    requires axes { 0 < length (shape_of array.now) }
    requires coordinates { AreCoordinates (shape_of array.now) 0 indices.now }
    requires checked { HasCheckedSize (selected_shape (shape_of array.now) 0 indices.now) }
    requires clones { ClonesOfAllAreEqual S.Elem.is_clone (element_at array.now) }
    ensures shape { IfOk result (λ a. shape_of a ≡ selected_shape (shape_of array.now) 0 indices.now) }
    ensures elements { IfOk result (λ a. ShowsSelected (meaning_of array.now) 0 indices.now (element_at a)) }
    ensures refused { OnErr result (0 < size_of (selected_shape (shape_of array.now) 0 indices.now)) }
{
    let mut dim = array.raw_dim();
    dim.set_length(0, indices.len());
    let room = room_of(alloc, dim.size())?;
    let items = selected_items(room, array, indices)?;
    Ok(of_items(items, dim, Order::RowMajor))
}

impl<S: Data, D: Dimension> ArrayBase<S, D>
where
    S::Elem: Clone + Drop,
{
    /// Returns an array of clones of the elements at the chosen coordinates of an axis, in the order in which the
    /// coordinates are given. A coordinate may be given more than once; with none, the axis has length 0. The axis must
    /// be below `ndim` and each coordinate below its length, the result's shape must have a checked size, and a clone
    /// must equal its original. How the result lies in memory is unspecified. Fails with `NoMemory` if the storage or a
    /// clone is refused. This is ndarray's `select`.
    pub fn select(
        &self,
        alloc: Global,
        axis: Axis,
        indices: &[usize],
    ) -> Result<Array<S::Elem, D>, NoMemory>
        requires axis { axis.0 < length (shape_of self.now) }
        requires coordinates { AreCoordinates (shape_of self.now) axis.0 indices.now }
        requires checked { HasCheckedSize (selected_shape (shape_of self.now) axis.0 indices.now) }
        requires clones { ClonesOfAllAreEqual S.Elem.is_clone (element_at self.now) }
        ensures shape { IfOk result (λ a. shape_of a ≡ selected_shape (shape_of self.now) axis.0 indices.now) }
        ensures elements { IfOk result (λ a. ShowsSelected (meaning_of self.now) axis.0 indices.now (element_at a)) }
        ensures refused { OnErr result (0 < size_of (selected_shape (shape_of self.now) axis.0 indices.now)) }
    {
        let mut turned = self.view();
        turned.swap_axes(0, axis.0);
        let mut selected = select_first(alloc, &turned, indices)?;
        selected.swap_axes(0, axis.0);
        Ok(selected)
    }
}
