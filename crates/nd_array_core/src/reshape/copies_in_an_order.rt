//! Copies of the elements in an order, under another shape.
#![tactic(auto, unfolding(crate::specs::ArrayMeaning::meaning_of, crate::specs::ArrayMeaning::memory_layout_of))]

ghost use Rattle.std.specs.Prelude.{◌≡◌, ◌<◌, IfOk, vec_len};
ghost use Rattle.nd_shape_and_slice.specs.ShapesAndIndexOrders.{size_of};
ghost use Rattle.nd_array_core.specs.ArrayMeaning.{shape_of, element_at};
ghost use Rattle.nd_elements.specs.EqualClones.{ClonesOfAllAreEqual};
ghost use Rattle.nd_array_core.specs.base.NewArrays.{OwnsInOrder};
ghost use Rattle.nd_array_core.specs.reshape.ReshapeByRank.{IsShapeOf};
ghost use Rattle.nd_array_core.specs.reshape.ServingStrides.{KeepsRanks, ListsInOrder};

use crate::base::array::{Array, ArrayBase};
use crate::base::constructors::of_items;
use nd_elements::storage::Data;
use nd_shape_and_slice::{Dimension, NoMemory, Order};
use std::alloc::Global;

/// Returns a new vector of clones of the elements in the order `order`.
fn listed_in<S: Data, D: Dimension>(
    alloc: Global,
    array: &ArrayBase<S, D>,
    order: Order,
) -> Result<Vec<S::Elem>, NoMemory>
where
    S::Elem: Clone + Drop,
    requires clones { ClonesOfAllAreEqual S.Elem.is_clone (element_at array.now) }
    ensures count { IfOk result (λ v. vec_len v ≡ size_of (shape_of array.now)) }
    ensures listed { IfOk result (λ v. ListsInOrder order array.now v.items) }
{
    match order {
        Order::RowMajor => {
            let rows = array.to_vec(alloc)?;
            Ok(rows)
        }
        Order::ColumnMajor => {
            let turned = array.t();
            let columns = turned.to_vec(alloc)?;
            Ok(columns)
        }
    }
}

/// Returns a new array of clones of the elements with the lengths `dim`, in the order `order`. Each element keeps its
/// rank in that order.
pub(crate) fn copied_in<S: Data, D: Dimension, E: Dimension>(
    alloc: Global,
    array: &ArrayBase<S, D>,
    dim: E,
    order: Order,
) -> Result<Array<S::Elem, E>, NoMemory>
where
    S::Elem: Clone + Drop,
    requires shape { IsShapeOf (shape_of array.now) (E.lengths dim) }
    requires clones { ClonesOfAllAreEqual S.Elem.is_clone (element_at array.now) }
    ensures owns { IfOk result (OwnsInOrder (E.lengths dim, order)) }
    ensures ranks { IfOk result (λ a. KeepsRanks array.now order (E.lengths dim) a) }
{
    let items = listed_in(alloc, array, order)?;
    Ok(of_items(items, dim, order))
}
