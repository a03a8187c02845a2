//! The places where the lanes of an axis begin.

ghost use Rattle.std.specs.Prelude.{◌≡◌, ◌<◌, ◌^◌, ◌+ℤ◌, ◌*ℤ◌, ℕ, pos, length, IsTrue};
ghost use Rattle.nd_shape_and_slice.specs.LayoutIndexMaps.{indexed_shape};
ghost use Rattle.nd_layout.specs.ValidMemoryPlaces.{is_place};
ghost use Rattle.nd_layout.specs.LayoutStepsOfCalls.{placement_of};
ghost use Rattle.nd_elements.specs.along.AxisLanes.{IsFirstOfLanes};

use nd_layout::{Lane, Layout};
use nd_shape_and_slice::{Axis, Dimension, Order, RemoveAxis, StrideList};

/// Returns the lane of `count` places that begins at `place`, with the stride `stride`.
#[inline]
#[tactic(auto, using(crate::proofs::along_lemmas::AxisLanes::lane_starts))]
pub fn lane_from(place: usize, count: usize, stride: isize) -> Lane
    requires few { count < 2 ^ 63 }
    requires reach { (k : ℕ) → k < count → IsTrue (is_place (pos place +ℤ (pos k *ℤ stride))) }
    ensures lane { (result.place ≡ place) × (result.count ≡ count) × (result.stride ≡ stride) }
{
    Lane {
        place,
        count,
        stride,
    }
}

/// Returns a layout of the places where the lanes along `axis` begin, with the indexes of the other axes.
/// If the axis has length 0, its lanes have no place, and the layout is the row-major one of that shape.
pub fn first_places<D: RemoveAxis, T: StrideList>(
    layout: &Layout<D, T>,
    axis: Axis,
) -> Layout<D::Smaller, <D::Smaller as Dimension>::Strides>
    requires axis { axis.0 < length (D.lengths layout.now.dim) }
    ensures lengths { D.Smaller.lengths result.dim ≡ indexed_shape (D.lengths layout.now.dim) axis.0 }
    ensures step { IsFirstOfLanes axis.0 (placement_of layout.now) (placement_of result) }
{
    if layout.dim.length(axis.0) > 0 {
        return layout.index_axis(axis.0, 0);
    }
    Layout::in_order(layout.dim.remove_axis(axis), Order::RowMajor)
}
