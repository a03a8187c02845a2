//! Steps that change a layout's number of axes, or its dimension type.

ghost use Rattle.std.specs.Prelude.{◌↔◌, ◌≡◌, ◌<◌, ◌≤◌, ◌+◌, ℕ, ℤ, false, length, slice_index, slice_index_or, pos, IsNone, IfSome, IsTrue};
ghost use Rattle.std.specs.List.{remove, insert};
ghost use Rattle.nd_shape_and_slice.specs.ShapesAndIndexOrders.{size_of};
ghost use Rattle.nd_shape_and_slice.specs.LayoutIndexMaps.{indexed_shape, indexed_index, inserted_shape, inserted_index};
ghost use Rattle.nd_layout.specs.LayoutStepsOfCalls.{placement_of, IsStepOf};

use super::Layout;
use super::invert_split_and_permute_axes::stride_at;
use nd_shape_and_slice::{
    Axis, Dimension, DynStrides, InsertAxis, IxDyn, RemoveAxis, StrideList, strides_from,
};

/// Returns the stride of axis `k` after `axis` was removed.
fn stride_without(list: &[isize], axis: usize, k: usize) -> isize
    requires on { axis < length list.now }
    requires within { k + 1 < length list.now }
    ensures { result ≡ slice_index_or (remove list.now axis) k (pos 0) }
{
    if k < axis {
        stride_at(list, k)
    } else {
        stride_at(list, k + 1)
    }
}

/// Returns the strides after `axis` was removed, for the dimension `dim`, which has one axis fewer.
fn strides_without<E: Dimension>(dim: &E, list: &[isize], axis: usize) -> E::Strides
    requires on { axis < length list.now }
    requires as_many { length (E.lengths dim.now) + 1 ≡ length list.now }
    ensures { E.Strides.strides_of result ≡ remove list.now axis }
{
    let mut out = dim.zero_strides();
    for k in 0..list.len() - 1 {
        out.set(k, stride_without(list, axis, k));
    }
    out
}

/// Returns the stride of axis `k` after an axis of stride 1 was inserted at `axis`.
fn stride_with(list: &[isize], axis: usize, k: usize) -> isize
    requires on { axis ≤ length list.now }
    requires within { k < length list.now + 1 }
    ensures { result ≡ slice_index_or (insert list.now axis (pos 1)) k (pos 0) }
{
    if k < axis {
        stride_at(list, k)
    } else if k == axis {
        1
    } else {
        stride_at(list, k - 1)
    }
}

/// Returns the strides after an axis of stride 1 was inserted at `axis`, for the dimension `dim`, which has one axis
/// more.
fn strides_with<E: Dimension>(dim: &E, list: &[isize], axis: usize) -> E::Strides
    requires on { axis ≤ length list.now }
    requires as_many { length (E.lengths dim.now) ≡ length list.now + 1 }
    ensures { E.Strides.strides_of result ≡ insert list.now axis (pos 1) }
{
    let mut out = dim.zero_strides();
    for k in 0..dim.slice().len() {
        out.set(k, stride_with(list, axis, k));
    }
    out
}

impl<D: Dimension, T: StrideList> Layout<D, T> {
    /// Returns the same layout with the dimension type `E`, or `None` exactly if `E` can't have as many axes.
    pub fn as_dimension<E: Dimension>(&self) -> Option<Layout<E, E::Strides>>
        ensures none { IsNone result ↔ (E.has_axes (length (D.lengths self.now.dim)) ≡ false) }
        ensures lengths { IfSome result (λ l. E.lengths l.dim ≡ D.lengths self.now.dim) }
        ensures strides { IfSome result (λ l. E.Strides.strides_of l.strides ≡ T.strides_of self.now.strides) }
        ensures step { IfSome result (λ l. IsStepOf (placement_of self.now) (placement_of l) (λ i. i)) }
        ensures offset { IfSome result (λ l. l.offset ≡ self.now.offset) }
    {
        let dim = E::from_lengths(self.dim.slice())?;
        let strides = strides_from(&dim, self.strides.slice());
        Some(Layout {
            offset: self.offset,
            dim,
            strides,
        })
    }
}

impl<D: Dimension, T: StrideList> Layout<D, T> {
    /// Returns the same layout with the dimension type `IxDyn`, which can have any number of axes.
    pub fn as_dynamic(&self) -> Layout<IxDyn, <IxDyn as Dimension>::Strides>
        ensures lengths { ⟦<IxDyn as Dimension>⟧.lengths result.dim ≡ D.lengths self.now.dim }
        ensures strides { ⟦<DynStrides as StrideList>⟧.strides_of result.strides ≡ T.strides_of self.now.strides }
        ensures step { IsStepOf (placement_of self.now) (placement_of result) (λ i. i) }
        ensures offset { result.offset ≡ self.now.offset }
    {
        let dim = IxDyn::new(self.dim.slice());
        let strides = strides_from(&dim, self.strides.slice());
        Layout {
            offset: self.offset,
            dim,
            strides,
        }
    }
}

impl<D: RemoveAxis, T: StrideList> Layout<D, T> {
    /// Returns the layout of the coordinate `index` of `axis`, without that axis.
    pub fn index_axis(
        &self,
        axis: usize,
        index: usize,
    ) -> Layout<D::Smaller, <D::Smaller as Dimension>::Strides>
        requires on { axis < length (D.lengths self.now.dim) }
        requires within { index < slice_index (D.lengths self.now.dim) axis }
        ensures lengths { D.Smaller.lengths result.dim ≡ indexed_shape (D.lengths self.now.dim) axis }
        ensures strides { D.Smaller.Strides.strides_of result.strides ≡ remove (T.strides_of self.now.strides) axis }
        ensures step { IsStepOf (placement_of self.now) (placement_of result) (indexed_index axis index) }
        ensures empty { size_of (D.lengths self.now.dim) ≡ 0 → result.offset ≡ self.now.offset }
    {
        let offset = self.offset_collapsed(axis, index);
        let dim = self.dim.remove_axis(Axis(axis));
        let strides = strides_without(&dim, self.strides.slice(), axis);
        Layout {
            offset,
            dim,
            strides,
        }
    }
}

impl<D: InsertAxis, T: StrideList> Layout<D, T> {
    /// Returns the layout with an axis of length 1 inserted at `axis`.
    pub fn insert_axis(&self, axis: usize) -> Layout<D::Larger, <D::Larger as Dimension>::Strides>
        requires place { axis ≤ length (D.lengths self.now.dim) }
        requires axes_fit { IsTrue (D.Larger.has_axes (length (D.lengths self.now.dim) + 1)) }
        ensures lengths { D.Larger.lengths result.dim ≡ inserted_shape (D.lengths self.now.dim) axis }
        ensures strides { D.Larger.Strides.strides_of result.strides ≡ insert (T.strides_of self.now.strides) axis (pos 1) }
        ensures step { IsStepOf (placement_of self.now) (placement_of result) (inserted_index axis) }
        ensures offset { result.offset ≡ self.now.offset }
    {
        let dim = self.dim.insert_axis(Axis(axis));
        let strides = strides_with(&dim, self.strides.slice(), axis);
        Layout {
            offset: self.offset,
            dim,
            strides,
        }
    }
}
