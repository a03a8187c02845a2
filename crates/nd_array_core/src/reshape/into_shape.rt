//! Calls that give the same elements, in the same storage, another shape.
#![tactic(auto, unfolding(crate::specs::ArrayMeaning::meaning_of, crate::specs::ArrayMeaning::memory_layout_of))]

ghost use Rattle.std.specs.Prelude.{◌↔◌, ◌≡◌, ◌<◌, IsTrue, IfOk, IfErr};
ghost use Rattle.nd_shape_and_slice.specs.ShapesAndIndexOrders.{HasCheckedSize, size_of};
ghost use Rattle.nd_layout.specs.GivenStrides.{ordered_strides};
ghost use Rattle.nd_array_core.specs.ArrayMeaning.{shape_of, layout_strides, layout_offset};
ghost use Rattle.nd_array_core.specs.reshape.ReshapeByRank.{IsInOrder, IsShapeOf, IsOrderTried, IsRefusedInBoth, LiesInOrder, RefusesShapeInOrder, IsReshapeOf, IsRefusedFor};
ghost use Rattle.nd_shape_and_slice.specs.declared.shape_builder.Order.TheVariants.{RowMajor, ColumnMajor};
ghost use Rattle.nd_array_core.specs.reshape.ServingStrides.{IsRegroupedStep, IsApartFor};
ghost use Rattle.nd_layout.specs.LayoutStepsOfCalls.{placement_of};

use crate::base::array::ArrayBase;
use nd_elements::storage::Data;
use nd_layout::{Layout, is_standard, strides_in};
use nd_shape_and_slice::{
    Dimension, ErrorKind, IntoDimension, Order, ShapeArg, ShapeError, StrideList,
    size_of_shape_checked,
};

/// Returns whether the elements are contiguous in the order `order`, from the offset on.
fn is_in_order<D: Dimension, T: StrideList>(layout: &Layout<D, T>, order: Order) -> bool
    ensures { IsTrue result ↔ IsInOrder order (D.lengths layout.now.dim) (T.strides_of layout.now.strides) }
{
    match order {
        Order::RowMajor => is_standard(layout.dim.slice(), layout.strides.slice()),
        Order::ColumnMajor => {
            let mut turned = layout.copied();
            turned.reverse_axes();
            is_standard(turned.dim.slice(), turned.strides.slice())
        }
    }
}

/// Returns whether the shape `lengths` has a checked size, which is `size`.
pub(crate) fn has_size(lengths: &[usize], size: usize) -> bool
    ensures { IsTrue result ↔ (HasCheckedSize lengths.now × (size_of lengths.now ≡ size)) }
{
    match size_of_shape_checked(lengths) {
        Ok(count) => count == size,
        Err(_) => false,
    }
}

/// Checks that the elements of `layout` can have the shape `lengths` in the order `order`, with the strides of a new
/// array and without a copy. Fails with the cause why they can't.
fn check_order<D: Dimension, T: StrideList>(
    layout: &Layout<D, T>,
    lengths: &[usize],
    order: Order,
) -> Result<(), ShapeError>
    ensures refused { IfErr result (λ e. IsRefusedFor order (placement_of layout.now) lengths.now e) }
    ensures shape { IfOk result (λ _. IsShapeOf (D.lengths layout.now.dim) lengths.now) }
    ensures order { IfOk result (λ _. IsInOrder order (D.lengths layout.now.dim) (T.strides_of layout.now.strides)) }
{
    if has_size(lengths, layout.dim.size()) {
        if is_in_order(layout, order) {
            Ok(())
        } else {
            Err(ShapeError::from_kind(ErrorKind::IncompatibleLayout))
        }
    } else {
        Err(ShapeError::from_kind(ErrorKind::IncompatibleShape))
    }
}

/// Returns the layout with the lengths `dim`, the same offset, and the strides of a new array in the order `order`. The
/// shape must have as many elements, and the elements must be contiguous in that order.
fn ordered_layout<D: Dimension, E: Dimension>(
    layout: &Layout<D, D::Strides>,
    dim: E,
    order: Order,
) -> Layout<E, E::Strides>
    requires shape { IsShapeOf (D.lengths layout.now.dim) (E.lengths dim) }
    requires order { IsInOrder order (D.lengths layout.now.dim) (D.Strides.strides_of layout.now.strides) }
    ensures offset { result.offset ≡ layout.now.offset }
    ensures lengths { E.lengths result.dim ≡ E.lengths dim }
    ensures strides { E.Strides.strides_of result.strides ≡ ordered_strides order (E.lengths dim) }
    ensures seen { IsRegroupedStep order (placement_of layout.now) (E.lengths dim) (placement_of result) }
    ensures separated { IsApartFor (E.lengths dim) (placement_of result) }
{
    let strides = strides_in(&dim, order);
    Layout::strided(layout.offset, dim, strides)
}

/// Returns row-major order if the elements are contiguous in that order, and otherwise column-major order.
fn order_tried<D: Dimension, T: StrideList>(layout: &Layout<D, T>) -> Order
    ensures { IsOrderTried (D.lengths layout.now.dim) (T.strides_of layout.now.strides) result }
{
    if is_in_order(layout, Order::RowMajor) {
        Order::RowMajor
    } else {
        Order::ColumnMajor
    }
}

impl<S: Data + Drop, D: Dimension> ArrayBase<S, D> {
    /// Returns the array under another shape, with the strides of a new array. Each element keeps its rank in the order
    /// asked for, which is row-major unless another is given. Nothing is copied. Fails with `IncompatibleShape` where
    /// the shape has no checked size or another size than the array; with `IncompatibleLayout` where the elements don't
    /// lie in that order (axes of length 1 don't count). After a failure the array is dropped. This is ndarray's
    /// `into_shape_with_order`.
    pub fn into_shape_with_order<E: ShapeArg>(
        self,
        shape: E,
    ) -> Result<ArrayBase<S, E::Dim>, ShapeError>
        ensures refused { IfErr result (RefusesShapeInOrder self (E.order_asked shape) (E.shape_asked shape)) }
        ensures shape { IfOk result (λ _. IsShapeOf (shape_of self) (E.shape_asked shape)) }
        ensures order { IfOk result (λ _. LiesInOrder (E.order_asked shape) self) }
        ensures part { IfOk result (IsReshapeOf self (E.order_asked shape) (E.shape_asked shape)) }
        ensures offset { IfOk result (λ a. layout_offset a ≡ layout_offset self) }
    {
        let (dim, order) = shape.into_shape_and_order();
        check_order(&self.layout, dim.slice(), order)?;
        let layout = ordered_layout(&self.layout, dim, order);
        Ok(ArrayBase {
            storage: self.storage,
            layout,
        })
    }

    /// Returns the array under another shape, in row-major order if its elements lie in that order, and otherwise in
    /// column-major order. Nothing is copied. Fails with `IncompatibleShape` where the shape has no checked size or
    /// another size than the array; with `IncompatibleLayout` where the elements lie in neither order. After a failure
    /// the array is dropped. This is ndarray's `into_shape`.
    pub fn into_shape<E: IntoDimension>(self, shape: E) -> Result<ArrayBase<S, E::Dim>, ShapeError>
        ensures refused { IfErr result (IsRefusedInBoth (shape_of self) (layout_strides self) (E.lengths_given shape)) }
        ensures rows { LiesInOrder RowMajor self → IfOk result (IsReshapeOf self RowMajor (E.lengths_given shape)) }
        ensures columns { ¬ (LiesInOrder RowMajor self) → IfOk result (IsReshapeOf self ColumnMajor (E.lengths_given shape)) }
        ensures shape { IfOk result (λ _. IsShapeOf (shape_of self) (E.lengths_given shape)) }
        ensures offset { IfOk result (λ a. layout_offset a ≡ layout_offset self) }
    {
        let order = order_tried(&self.layout);
        self.into_shape_with_order((shape, order))
    }
}
