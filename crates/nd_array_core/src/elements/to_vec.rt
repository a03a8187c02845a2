//! The elements in a vector.
#![tactic(auto, unfolding(crate::specs::ArrayMeaning::meaning_of, crate::specs::ArrayMeaning::memory_layout_of))]

ghost use Rattle.std.specs.Prelude.{◌≡◌, ◌+◌, ◌<◌, ◌≤◌, ◌++◌, Some, IfOk, OnOk, OnErr, vec_len, vec_capacity};
ghost use Rattle.nd_shape_and_slice.specs.ShapesAndIndexOrders.{size_of};
ghost use Rattle.nd_elements.specs.CollectedElements.{IsFront};
ghost use Rattle.nd_elements.specs.ShapeAndElements.{row_major_elements};
ghost use Rattle.nd_array_core.specs.ArrayMeaning.{meaning_of, shape_of, element_at};
ghost use Rattle.nd_elements.specs.LackOfMemory.{MayLackForClone};
ghost use Rattle.nd_elements.specs.EqualClones.{ClonesOfAllAreEqual};

use crate::base::array::ArrayBase;
use nd_elements::elements::to_vec::{clones_of_slice, room_of};
use nd_elements::elements::to_vec_in_halves::list_layout;
use nd_elements::storage::Data;
use nd_shape_and_slice::{Dimension, NoMemory};
use std::alloc::Global;

/// Appends clones of the elements to `items`, in row-major order. `items` must have capacity for them. If a clone is
/// refused, some clones may stay in `items`. Axes whose elements continue one another are joined first, so that longer
/// lanes are cloned at once.
pub(crate) fn list_after<S: Data, D: Dimension>(
    items: &mut Vec<S::Elem>,
    array: &ArrayBase<S, D>,
) -> Result<(), NoMemory>
where
    S::Elem: Clone + Drop,
    requires clones { ClonesOfAllAreEqual S.Elem.is_clone (element_at array.now) }
    requires room { vec_len items.old + size_of (shape_of array.now) ≤ vec_capacity items.old }
    ensures items { OnOk result (items.new.items ≡ items.old.items ++ row_major_elements (meaning_of array.now)) }
    ensures count { OnOk result (vec_len items.new ≡ vec_len items.old + size_of (shape_of array.now)) }
    ensures room { vec_capacity items.old ≤ vec_capacity items.new }
    ensures kept { OnErr result (IsFront items.old.items items.new.items) }
    ensures refused { OnErr result (MayLackForClone S.Elem.is_infallible (element_at array.now)) }
{
    let mut joined = array.layout.copied();
    joined.join_axes();
    list_layout(items, &array.storage, &joined)
}

/// Returns the vector `before` with clones of the elements appended in row-major order. It must have capacity for them.
/// If a clone is refused, the vector is dropped.
pub(crate) fn listed_after<S: Data, D: Dimension>(
    before: Vec<S::Elem>,
    array: &ArrayBase<S, D>,
) -> Result<Vec<S::Elem>, NoMemory>
where
    S::Elem: Clone + Drop,
    requires clones { ClonesOfAllAreEqual S.Elem.is_clone (element_at array.now) }
    requires room { vec_len before + size_of (shape_of array.now) ≤ vec_capacity before }
    ensures items { IfOk result (λ v. v.items ≡ before.items ++ row_major_elements (meaning_of array.now)) }
    ensures count { IfOk result (λ v. vec_len v ≡ vec_len before + size_of (shape_of array.now)) }
    ensures room { IfOk result (λ v. vec_capacity before ≤ vec_capacity v) }
    ensures refused { OnErr result (0 < size_of (shape_of array.now)) }
{
    let mut items = before;
    match list_after(&mut items, array) {
        Ok(()) => Ok(items),
        Err(refused) => Err(refused),
    }
}

/// Returns a new vector of clones of the elements in row-major order.
fn listed_by_lanes<S: Data, D: Dimension>(
    alloc: Global,
    array: &ArrayBase<S, D>,
) -> Result<Vec<S::Elem>, NoMemory>
where
    S::Elem: Clone + Drop,
    requires clones { ClonesOfAllAreEqual S.Elem.is_clone (element_at array.now) }
    ensures items { IfOk result (λ v. v.items ≡ row_major_elements (meaning_of array.now)) }
    ensures count { IfOk result (λ v. vec_len v ≡ size_of (shape_of array.now)) }
{
    let room = room_of(alloc, array.len())?;
    listed_after(room, array)
}

impl<S: Data, D: Dimension> ArrayBase<S, D>
where
    S::Elem: Clone + Drop,
{
    /// Returns the elements in row-major order, as a new vector; a clone must equal its original. Fails with `NoMemory`
    /// if the storage or a clone is refused. This is ndarray's `to_vec`, which is there for one axis alone.
    pub fn to_vec(&self, alloc: Global) -> Result<Vec<S::Elem>, NoMemory>
        requires clones { ClonesOfAllAreEqual S.Elem.is_clone (element_at self.now) }
        ensures items { IfOk result (λ v. v.items ≡ row_major_elements (meaning_of self.now)) }
        ensures count { IfOk result (λ v. vec_len v ≡ size_of (shape_of self.now)) }
        ensures refused { OnErr result (0 < size_of (shape_of self.now)) }
    {
        match self.as_slice() {
            Some(xs) => clones_of_slice(alloc, xs),
            None => listed_by_lanes(alloc, self),
        }
    }
}
