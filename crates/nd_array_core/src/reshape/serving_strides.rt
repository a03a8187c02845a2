//! Strides under which another shape gives the same elements the same places.
#![tactic(auto, unfolding(crate::specs::ArrayMeaning::meaning_of, crate::specs::ArrayMeaning::memory_layout_of))]

ghost use Rattle.std.specs.Prelude.{◌↔◌, ◌≡◌, ◌<◌, IsSome, IfSome};
ghost use Rattle.nd_array_core.specs.reshape.ReshapeByRank.{IsShapeOf};
ghost use Rattle.nd_array_core.specs.reshape.ServingStrides.{StridesServe, ShowsServed, SomeServeFor, IsRegroupedStep, StaysApartFor, IsServedOver};
ghost use Rattle.nd_array_core.specs.ArrayMeaning.{shape_of};
ghost use Rattle.nd_layout.specs.LayoutStepsOfCalls.{placement_of};

use crate::base::array::{ArrayBase, ArrayView};
use nd_elements::storage::Data;
use nd_layout::{Layout, reshape_strides};
use nd_shape_and_slice::{Dimension, MAX_AXES, Order, StrideList, strides_from};

/// Returns strides with which the lengths `dim` give each element, by its rank in the order `order`, the place that it
/// has. The result is None exactly where no integers do.
fn serving_strides<D: Dimension, E: Dimension>(
    layout: &Layout<D, D::Strides>,
    dim: &E,
    order: Order,
) -> Option<E::Strides>
    requires shape { IsShapeOf (D.lengths layout.now.dim) (E.lengths dim.now) }
    ensures some { IsSome result ↔ SomeServeFor order (placement_of layout.now) (E.lengths dim.now) }
    ensures served { IfSome result (λ ts. IsServedOver order layout.now (E.lengths dim.now) (E.Strides.strides_of ts)) }
{
    let lengths = dim.slice();
    let mut list = [0; MAX_AXES];
    let strides = &mut list[..lengths.len()];
    if reshape_strides(
        layout.dim.slice(),
        layout.strides.slice(),
        lengths,
        order,
        strides,
    ) {
        Some(strides_from(dim, strides))
    } else {
        None
    }
}

/// Returns the layout with the lengths `dim` in which each element keeps its rank in the order `order` and its place.
/// The result is None exactly where no strides do that.
pub(crate) fn served_layout<D: Dimension, E: Dimension>(
    layout: &Layout<D, D::Strides>,
    dim: E,
    order: Order,
) -> Option<Layout<E, E::Strides>>
    requires shape { IsShapeOf (D.lengths layout.now.dim) (E.lengths dim) }
    ensures some { IsSome result ↔ SomeServeFor order (placement_of layout.now) (E.lengths dim) }
    ensures offset { IfSome result (λ l. l.offset ≡ layout.now.offset) }
    ensures lengths { IfSome result (λ l. E.lengths l.dim ≡ E.lengths dim) }
    ensures served { IfSome result (λ l. IsServedOver order layout.now (E.lengths dim) (E.Strides.strides_of l.strides)) }
    ensures seen { IfSome result (λ l. IsRegroupedStep order (placement_of layout.now) (E.lengths dim) (placement_of l)) }
    ensures separated { IfSome result (λ l. StaysApartFor (E.lengths dim) (placement_of layout.now) (placement_of l)) }
{
    match serving_strides(layout, &dim, order) {
        Some(strides) => Some(Layout::strided(layout.offset, dim, strides)),
        None => None,
    }
}

/// Returns the view of an array with the lengths `dim` in which each element keeps its rank in the order `order` and
/// its place. The result is None exactly where no strides do that.
pub(crate) fn served_view<S: Data, D: Dimension, E: Dimension>(
    array: &ArrayBase<S, D>,
    dim: E,
    order: Order,
) -> Option<ArrayView<'_, S::Elem, E>>
    requires shape { IsShapeOf (shape_of array.now) (E.lengths dim) }
    ensures some { IsSome result ↔ StridesServe array.now order (E.lengths dim) }
    ensures shows { IfSome result (λ v. ShowsServed array.now order (E.lengths dim) v) }
{
    match served_layout(&array.layout, dim, order) {
        Some(layout) => Some(ArrayBase {
            storage: array.storage.borrowed(),
            layout,
        }),
        None => None,
    }
}
