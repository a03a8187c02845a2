//! Cloning the elements of a layout into a vector, part by part if row-major order jumps far about in memory.

ghost use Rattle.std.specs.Prelude.{◌≡◌, ◌+◌, ◌≤◌, OnOk, OnErr, vec_len, vec_capacity};
ghost use Rattle.nd_shape_and_slice.specs.ShapesAndIndexOrders.{size_of};
ghost use Rattle.nd_elements.specs.CollectedElements.{IsFront};
ghost use Rattle.nd_elements.specs.ElementsAtNumberedPlaces.{ranked_by, Holds, ListsShown, ClonesAreEqualAt, MayLackBy};

use crate::elements::to_vec::list;
use crate::elements::to_vec_by_parts_of_rows::list_turned;
use crate::storage::Data;
use nd_layout::Layout;
use nd_shape_and_slice::{Dimension, NoMemory};

/// Pushes a clone of each element of `layout` to `items`, in row-major order, lane by lane.
fn list_in_order<S: Data, D: Dimension>(
    items: &mut Vec<S::Elem>,
    storage: &S,
    layout: &Layout<D, D::Strides>,
) -> Result<(), NoMemory>
where
    S::Elem: Clone + Drop,
    requires clones { ClonesAreEqualAt S.Elem.is_clone S.stored (ranked_by layout.now) storage.now }
    requires holds { Holds S.stored (ranked_by layout.now) storage.now }
    requires room { vec_len items.old + size_of (D.lengths layout.now.dim) ≤ vec_capacity items.old }
    ensures items { OnOk result (ListsShown S.stored layout.now storage.now items.old items.new) }
    ensures count { OnOk result (vec_len items.new ≡ vec_len items.old + size_of (D.lengths layout.now.dim)) }
    ensures room { vec_capacity items.old ≤ vec_capacity items.new }
    ensures kept { OnErr result (IsFront items.old.items items.new.items) }
    ensures refused { OnErr result (MayLackBy S.Elem.is_infallible S.stored layout.now storage.now) }
{
    list(items, storage, layout.places())
}

/// Pushes a clone of each element of `layout` to `items`, in row-major order. If its elements lie far apart, cuts the
/// layout in halves, and lists the first half before the second one.
fn list_in_halves<S: Data, D: Dimension>(
    items: &mut Vec<S::Elem>,
    storage: &S,
    layout: &Layout<D, D::Strides>,
) -> Result<(), NoMemory>
where
    S::Elem: Clone + Drop,
    requires clones { ClonesAreEqualAt S.Elem.is_clone S.stored (ranked_by layout.now) storage.now }
    requires holds { Holds S.stored (ranked_by layout.now) storage.now }
    requires room { vec_len items.old + size_of (D.lengths layout.now.dim) ≤ vec_capacity items.old }
    ensures items { OnOk result (ListsShown S.stored layout.now storage.now items.old items.new) }
    ensures count { OnOk result (vec_len items.new ≡ vec_len items.old + size_of (D.lengths layout.now.dim)) }
    ensures room { vec_capacity items.old ≤ vec_capacity items.new }
    ensures kept { OnErr result (IsFront items.old.items items.new.items) }
    ensures refused { OnErr result (MayLackBy S.Elem.is_infallible S.stored layout.now storage.now) }
{
    if layout.is_near() {
        if layout.leaves_lines() {
            return list_turned(items, storage, layout);
        }
        return list_in_order(items, storage, layout);
    }
    let Some((lower, upper)) = layout.first_halves() else {
        return list_in_order(items, storage, layout);
    };
    match list_in_halves(items, storage, &lower) {
        Ok(()) => list_in_halves(items, storage, &upper),
        Err(refused) => Err(refused),
    }
}

/// Pushes a clone of each element of `layout` to `items`, in row-major order. If that order jumps far about in memory,
/// goes part by part.
pub fn list_layout<S: Data, D: Dimension>(
    items: &mut Vec<S::Elem>,
    storage: &S,
    layout: &Layout<D, D::Strides>,
) -> Result<(), NoMemory>
where
    S::Elem: Clone + Drop,
    requires clones { ClonesAreEqualAt S.Elem.is_clone S.stored (ranked_by layout.now) storage.now }
    requires holds { Holds S.stored (ranked_by layout.now) storage.now }
    requires room { vec_len items.old + size_of (D.lengths layout.now.dim) ≤ vec_capacity items.old }
    ensures items { OnOk result (ListsShown S.stored layout.now storage.now items.old items.new) }
    ensures count { OnOk result (vec_len items.new ≡ vec_len items.old + size_of (D.lengths layout.now.dim)) }
    ensures room { vec_capacity items.old ≤ vec_capacity items.new }
    ensures kept { OnErr result (IsFront items.old.items items.new.items) }
    ensures refused { OnErr result (MayLackBy S.Elem.is_infallible S.stored layout.now storage.now) }
{
    if layout.leaves_lines() {
        list_in_halves(items, storage, layout)
    } else {
        list_in_order(items, storage, layout)
    }
}
