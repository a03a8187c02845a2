//! Functions that append the elements of an array to a vector.
#![tactic(auto, unfolding(crate::specs::ArrayMeaning::meaning_of, crate::specs::ArrayMeaning::memory_layout_of))]

ghost use Rattle.std.specs.Prelude.{◌≡◌, ◌+◌, ◌<◌, ◌≤◌, ◌++◌, OnOk, OnErr, length, slice_index, vec_capacity};
ghost use Rattle.nd_shape_and_slice.specs.ShapesAndIndexOrders.{size_of};
ghost use Rattle.nd_shape_and_slice.specs.LayoutIndexMaps.{lower_shape, upper_shape};
ghost use Rattle.nd_layout.specs.LayoutStepsOfCalls.{placement_of};
ghost use Rattle.nd_layout.specs.OrderOfAppendedPlaces.{IsFilledAfter};
ghost use Rattle.nd_elements.specs.ShapeAndElements.{row_major_elements};
ghost use Rattle.nd_array_core.specs.ArrayMeaning.{meaning_of, shape_of, element_at};
ghost use Rattle.nd_elements.specs.EqualClones.{ClonesOfAllAreEqual};
ghost use Rattle.nd_array_core.specs.growth.Append.{PutsAfter, HasCapacityFor, MayLackForCloneOf};

use crate::base::array::{ArrayBase, ArrayView};
use crate::elements::to_vec::list_after;
use nd_elements::storage::Data;
use nd_layout::{Layout, in_tail_order};
use nd_shape_and_slice::{Dimension, NoMemory};

/// Reserves capacity, and appends clones of the elements to `items` in row-major order. If memory is refused, the
/// clones are dropped, and `items` has the elements that it had.
fn list_or_leave<S: Data, D: Dimension>(
    items: &mut Vec<S::Elem>,
    array: &ArrayBase<S, D>,
) -> Result<(), NoMemory>
where
    S::Elem: Clone + Drop,
    requires clones { ClonesOfAllAreEqual S.Elem.is_clone (element_at array.now) }
    ensures items { OnOk result (items.new.items ≡ items.old.items ++ row_major_elements (meaning_of array.now)) }
    ensures kept { OnErr result (items.new.items ≡ items.old.items) }
    ensures room { vec_capacity items.old ≤ vec_capacity items.new }
    ensures enough { HasCapacityFor array.now items.old → OnErr result (MayLackForCloneOf S.Elem.is_infallible array.now) }
{
    if items.reserve(array.len()).is_err() {
        return Err(NoMemory);
    }
    let count = items.len();
    match list_after(items, array) {
        Ok(()) => Ok(()),
        Err(refused) => {
            items.truncate(count);
            Err(refused)
        }
    }
}

/// Appends clones of the elements of `array` to `items`, in the order in which the layout `grown` has them. `array` has
/// the shape of the part of `grown` from coordinate `from` of `axis` on, and the places of that part must follow those
/// of the elements before it. If memory is refused, `items` has the elements that it had.
pub(crate) fn put_after<A: Clone + Drop, D: Dimension>(
    items: &mut Vec<A>,
    grown: &Layout<D, D::Strides>,
    axis: usize,
    from: usize,
    array: &ArrayView<'_, A, D>,
) -> Result<(), NoMemory>
    requires on { axis < length (D.lengths grown.now.dim) }
    requires within { from ≤ slice_index (D.lengths grown.now.dim) axis }
    requires alike { shape_of array.now ≡ upper_shape (D.lengths grown.now.dim) axis from }
    requires some { 0 < size_of (shape_of array.now) }
    requires filled { IsFilledAfter (placement_of grown.now) axis from }
    requires count { length items.old.items ≡ size_of (lower_shape (D.lengths grown.now.dim) axis from) }
    requires clones { ClonesOfAllAreEqual A.is_clone (element_at array.now) }
    ensures put { OnOk result (PutsAfter (placement_of grown.now) axis from array.now items.old items.new) }
    ensures kept { OnErr result (items.new.items ≡ items.old.items) }
    ensures room { vec_capacity items.old ≤ vec_capacity items.new }
    ensures enough { HasCapacityFor array.now items.old → OnErr result (MayLackForCloneOf A.is_infallible array.now) }
{
    let turned = ArrayBase {
        storage: array.storage,
        layout: in_tail_order(grown, axis, from, &array.layout),
    };
    list_or_leave(items, &turned)
}
