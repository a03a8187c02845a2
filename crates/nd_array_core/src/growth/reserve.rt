//! Calls that reserve capacity for more coordinates of an axis.
#![tactic(auto, unfolding(crate::specs::ArrayMeaning::meaning_of, crate::specs::ArrayMeaning::memory_layout_of))]

ghost use Rattle.std.specs.Prelude.{◌≡◌, ◌+◌, ◌<◌, ◌≤◌, Ok, Err, OnOk, OnErr, IfOk, IfErr, length, vec_len, vec_capacity};
ghost use Rattle.nd_shape_and_slice.specs.ShapesAndIndexOrders.{HasCheckedSize};
ghost use Rattle.nd_layout.specs.GrowthAlongAxis.{grown_shape};
ghost use Rattle.nd_array_core.specs.ArrayMeaning.{shape_of, storage_of};
ghost use Rattle.nd_array_core.specs.PartsOfArrays.{ShowsWhole};
ghost use Rattle.nd_elements.specs.BorrowedAndOwnedStorages.{stored_list, room_of};
ghost use Rattle.nd_array_core.specs.growth.ReservedAlongAxis.{added_elements, AddsElements, CanGrowBy, HasRoomAlong};

use crate::base::array::Array;
use crate::base::array_error::ArrayError;
use nd_shape_and_slice::{Axis, Dimension, ErrorKind, Ix2, ShapeError, size_of_shape_checked};

/// Returns how many elements `additional` more coordinates of `axis` have. Fails with `Overflow` where the shape with
/// them has no checked size.
fn elements_of_lengths<D: Dimension>(
    dim: D,
    axis: usize,
    additional: usize,
) -> Result<usize, ShapeError>
    requires { axis < length (D.lengths dim) }
    ensures checked { OnOk result (HasCheckedSize (grown_shape (D.lengths dim) axis additional)) }
    ensures count { IfOk result (λ count. count ≡ added_elements (D.lengths dim) axis additional) }
    ensures overflow { OnErr result (¬ (HasCheckedSize (grown_shape (D.lengths dim) axis additional))) }
    ensures cause { IfErr result (λ e. e ≡ ErrorKind.Overflow) }
{
    let Some(len) = dim.length(axis).checked_add(additional) else {
        return Err(ShapeError::from_kind(ErrorKind::Overflow));
    };
    let mut grown = dim;
    grown.set_length(axis, len);
    size_of_shape_checked(grown.slice())?;
    grown.set_length(axis, additional);
    Ok(grown.size())
}

/// Reserves capacity for `count` more elements.
fn reserve_elements<A>(items: &mut Vec<A>, count: usize) -> Result<(), ArrayError>
    ensures items { items.new.items ≡ items.old.items }
    ensures len { vec_len items.new ≡ vec_len items.old }
    ensures room { OnOk result (vec_len items.new + count ≤ vec_capacity items.new) }
    ensures enough { vec_len items.old + count ≤ vec_capacity items.old → result ≡ Ok tt }
    ensures no_less { vec_capacity items.old ≤ vec_capacity items.new }
    ensures cause { IfErr result (λ e. e ≡ ArrayError.NoMemory) }
    ensures kept { OnErr result (vec_capacity items.new ≡ vec_capacity items.old) }
    ensures refused { OnErr result (0 < count) }
{
    items.reserve(count)?;
    Ok(())
}

impl<A, D: Dimension> Array<A, D> {
    /// Reserves capacity for `additional` more coordinates of an axis, which must be below `ndim`. That many can then
    /// be appended without memory for storage. The array's shape, elements and their places stay. Fails with `Overflow`
    /// where the larger shape has no checked size, and with `NoMemory` where memory is refused, which is asked for only
    /// where the capacity isn't there yet; the array then has the capacity that it had. This is ndarray's `reserve`.
    pub fn reserve(&mut self, axis: Axis, additional: usize) -> Result<(), ArrayError>
        requires axis { axis.0 < length (shape_of self.old) }
        ensures fits { OnOk result (CanGrowBy axis.0 additional self.old) }
        ensures overflow { ¬ (CanGrowBy axis.0 additional self.old) → result ≡ Err (ArrayError.Shape ErrorKind.Overflow) }
        ensures no_memory { CanGrowBy axis.0 additional self.old → IfErr result (λ e. e ≡ ArrayError.NoMemory) }
        ensures enough { CanGrowBy axis.0 additional self.old → HasRoomAlong axis.0 additional self.old → result ≡ Ok tt }
        ensures refused { CanGrowBy axis.0 additional self.old → OnErr result (AddsElements axis.0 additional self.old) }
        ensures room { OnOk result (HasRoomAlong axis.0 additional self.new) }
        ensures kept { OnErr result (room_of (storage_of self.new) ≡ room_of (storage_of self.old)) }
        ensures no_less { room_of (storage_of self.old) ≤ room_of (storage_of self.new) }
        ensures whole { ShowsWhole self.old self.new }
        ensures stored { stored_list (storage_of self.new) ≡ stored_list (storage_of self.old) }
    {
        match elements_of_lengths(self.layout.dim, axis.0, additional) {
            Ok(count) => reserve_elements(&mut self.storage.items, count),
            Err(refused) => Err(ArrayError::Shape(refused)),
        }
    }
}

impl<A> Array<A, Ix2> {
    /// Reserves capacity for `additional` more rows, as `reserve` does along the first axis. This is ndarray's
    /// `reserve_rows`.
    pub fn reserve_rows(&mut self, additional: usize) -> Result<(), ArrayError>
        ensures fits { OnOk result (CanGrowBy 0 additional self.old) }
        ensures overflow { ¬ (CanGrowBy 0 additional self.old) → result ≡ Err (ArrayError.Shape ErrorKind.Overflow) }
        ensures no_memory { CanGrowBy 0 additional self.old → IfErr result (λ e. e ≡ ArrayError.NoMemory) }
        ensures enough { CanGrowBy 0 additional self.old → HasRoomAlong 0 additional self.old → result ≡ Ok tt }
        ensures refused { CanGrowBy 0 additional self.old → OnErr result (AddsElements 0 additional self.old) }
        ensures room { OnOk result (HasRoomAlong 0 additional self.new) }
        ensures kept { OnErr result (room_of (storage_of self.new) ≡ room_of (storage_of self.old)) }
        ensures no_less { room_of (storage_of self.old) ≤ room_of (storage_of self.new) }
        ensures whole { ShowsWhole self.old self.new }
        ensures stored { stored_list (storage_of self.new) ≡ stored_list (storage_of self.old) }
    {
        let _axes = self.ndim();
        self.reserve(Axis(0), additional)
    }

    /// Reserves capacity for `additional` more columns, as `reserve` does along the second axis. This is ndarray's
    /// `reserve_columns`.
    pub fn reserve_columns(&mut self, additional: usize) -> Result<(), ArrayError>
        ensures fits { OnOk result (CanGrowBy 1 additional self.old) }
        ensures overflow { ¬ (CanGrowBy 1 additional self.old) → result ≡ Err (ArrayError.Shape ErrorKind.Overflow) }
        ensures no_memory { CanGrowBy 1 additional self.old → IfErr result (λ e. e ≡ ArrayError.NoMemory) }
        ensures enough { CanGrowBy 1 additional self.old → HasRoomAlong 1 additional self.old → result ≡ Ok tt }
        ensures refused { CanGrowBy 1 additional self.old → OnErr result (AddsElements 1 additional self.old) }
        ensures room { OnOk result (HasRoomAlong 1 additional self.new) }
        ensures kept { OnErr result (room_of (storage_of self.new) ≡ room_of (storage_of self.old)) }
        ensures no_less { room_of (storage_of self.old) ≤ room_of (storage_of self.new) }
        ensures whole { ShowsWhole self.old self.new }
        ensures stored { stored_list (storage_of self.new) ≡ stored_list (storage_of self.old) }
    {
        let _axes = self.ndim();
        self.reserve(Axis(1), additional)
    }
}
