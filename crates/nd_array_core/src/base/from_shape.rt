//! Constructors of arrays and views that take a shape and the elements.
#![tactic(auto, unfolding(crate::specs::ArrayMeaning::meaning_of, crate::specs::ArrayMeaning::memory_layout_of))]

ghost use Rattle.std.specs.Prelude.{◌≡◌, ◌<◌, ◌≤◌, ℕ, true, length, IsSome, IfOk, IfErr, Some, None, slice_get, vec_len, vec_capacity, IsTrue};
ghost use Rattle.std.specs.Borrow.{sem};
ghost use Rattle.nd_shape_and_slice.specs.ShapesAndIndexOrders.{size_of, HasCheckedSize};
ghost use Rattle.nd_region.specs.Region.{region_stored};
ghost use Rattle.nd_layout.specs.StridesAfterLayoutCalls.{reach_down};
ghost use Rattle.nd_layout.specs.GivenStrides.{ordered_strides};
ghost use Rattle.nd_layout.specs.ConstructorRefusals.{elements_asked};
ghost use Rattle.nd_array_core.specs.ArrayMeaning.{shape_of, storage_of, layout_strides, layout_offset};
ghost use Rattle.nd_elements.specs.BorrowedAndOwnedStorages.{stored_list, room_of, held_by};
ghost use Rattle.nd_array_core.specs.base.ConstructorErrorsAndLayout.{refusal_in, is_apart_in, IsLaidOut, refusal_meant, IsLaidOutAs, KeepsApartIn, IsLaidByStrides};
ghost use Rattle.nd_layout.specs.LayoutStepsOfCalls.{placement_of};
ghost use Rattle.nd_array_core.specs.base.SliceAfterView.{slice_follows_view};
ghost use Rattle.nd_array_core.specs.scoped.ViewTasks.{LiesBy};
ghost use Rattle.nd_array_core.specs.scoped.SlicesLentAsViews.{meant_by, refusal_for, read_refusal, vec_refusal_for, strides_under, offset_under, ShowsUnder};
ghost use Rattle.nd_shape_and_slice.specs.declared.shape_builder.Order.{Order};
ghost use Rattle.nd_layout.specs.ValidLayoutsAndSteps.{IsValid};
ghost use Rattle.nd_array_core.specs.base.ViewsOfSlicesAndRows.{HasPlacement, ShowsRanked, ShowsGiven, ShowsPlaces};

use crate::base::array::{Array, ArrayBase, ArrayView, ArrayViewMut};
use nd_elements::storage::{Data, OwnedRepr, ViewMutRepr, ViewRepr};
use nd_layout::{Layout, offset_in_slice, offset_in_vec, size_in_slice, size_in_vec};
use nd_region::Region;
use nd_shape_and_slice::{Dimension, IntoStrideShape, MAX_AXES, Order, ShapeError, StrideList};

/// Returns an array of shape `dim` over the elements of `storage` from place 0 on, in the order `order`.
pub(crate) fn in_order<S: Data, D: Dimension>(storage: S, dim: D, order: Order) -> ArrayBase<S, D>
    requires checked { HasCheckedSize (D.lengths dim) }
    requires holds { (place : ℕ) → place < size_of (D.lengths dim) → IsSome (S.stored storage place) }
    ensures shape { shape_of result ≡ D.lengths dim }
    ensures strides { layout_strides result ≡ ordered_strides order (D.lengths dim) }
    ensures elements { ShowsRanked (D.lengths dim, order) (S.stored storage) result }
    ensures storage { storage_of result ≡ storage }
    ensures offset { layout_offset result ≡ 0 }
{
    ArrayBase {
        storage,
        layout: Layout::in_order(dim, order),
    }
}

/// The kind of source from which a constructor takes its elements.
#[derive(Clone, Copy)]
pub(crate) enum GivenIn {
    /// A vector, which holds as many elements as the shape has unless the caller gives strides.
    Vector,
    /// A slice to be read, of which several indexes may name the same element.
    Slice,
    /// A slice to be written.
    SliceMut,
}

/// Returns the offset under the strides that the caller gave. Fails with the cause why `count` elements can't be laid
/// out under these lengths and strides.
fn given_offset(
    given_in: GivenIn,
    lengths: &[usize],
    strides: &[isize],
    count: usize,
) -> Result<usize, ShapeError>
    requires as_many { length strides.now ≡ length lengths.now }
    requires few { length lengths.now ≤ MAX_AXES }
    ensures refused { IfErr result (λ e. refusal_in given_in lengths.now (Some strides.now) count ≡ Some e) }
    ensures accepted { IfOk result (λ _. refusal_in given_in lengths.now (Some strides.now) count ≡ None) }
    ensures offset { IfOk result (λ offset. offset ≡ reach_down lengths.now strides.now) }
    ensures valid { IfOk result (λ offset. IsValid offset lengths.now strides.now) }
    ensures enough { IfOk result (λ _. elements_asked lengths.now strides.now ≤ count) }
    ensures apart { IfOk result (λ _. KeepsApartIn given_in lengths.now strides.now) }
{
    match given_in {
        GivenIn::Vector => offset_in_vec(lengths, strides, count),
        GivenIn::Slice => offset_in_slice(lengths, strides, count),
        GivenIn::SliceMut => offset_in_vec(lengths, strides, count),
    }
}

/// Returns the number of elements that the shape has. Fails with the cause why `count` elements can't be laid out under
/// these lengths in an order.
fn given_size(given_in: GivenIn, lengths: &[usize], count: usize) -> Result<usize, ShapeError>
    ensures refused { IfErr result (λ e. refusal_in given_in lengths.now None count ≡ Some e) }
    ensures accepted { IfOk result (λ _. refusal_in given_in lengths.now None count ≡ None) }
    ensures checked { IfOk result (λ _. HasCheckedSize lengths.now) }
    ensures size { IfOk result (λ size. size ≡ size_of lengths.now) }
    ensures enough { IfOk result (λ size. size ≤ count) }
{
    match given_in {
        GivenIn::Vector => size_in_vec(lengths, count),
        GivenIn::Slice => size_in_slice(lengths, count),
        GivenIn::SliceMut => size_in_slice(lengths, count),
    }
}

/// Returns the layout of shape `dim` in the order `order`, from place 0 on. Its places are among those of `_count`
/// elements.
fn laid_in_order<D: Dimension>(dim: D, order: Order, _count: usize) -> Layout<D, D::Strides>
    requires checked { HasCheckedSize (D.lengths dim) }
    requires enough { size_of (D.lengths dim) ≤ _count }
    ensures laid { IsLaidOut (D.lengths dim) order None true _count (placement_of result) }
{
    Layout::in_order(dim, order)
}

/// Returns the layout with the offset, lengths and strides given. Its places are among those of `_count` elements.
fn laid_by_strides<D: Dimension>(
    offset: usize,
    dim: D,
    strides: D::Strides,
    given_in: GivenIn,
    _count: usize,
) -> Layout<D, D::Strides>
    requires valid { IsValid offset (D.lengths dim) (D.Strides.strides_of strides) }
    requires from { offset ≡ reach_down (D.lengths dim) (D.Strides.strides_of strides) }
    requires enough { elements_asked (D.lengths dim) (D.Strides.strides_of strides) ≤ _count }
    requires apart { KeepsApartIn given_in (D.lengths dim) (D.Strides.strides_of strides) }
    ensures laid { IsLaidByStrides (D.lengths dim) (D.Strides.strides_of strides) given_in _count (placement_of result) }
{
    Layout::strided(offset, dim, strides)
}

/// Returns the layout of `count` elements under a shape: by the caller's strides if there are any, and otherwise in the
/// order of the shape. Fails with the cause why they can't be laid out so.
pub(crate) fn laid_out<D: Dimension, Sh: IntoStrideShape<Dim = D>>(
    given_in: GivenIn,
    count: usize,
    shape: Sh,
) -> Result<Layout<D, D::Strides>, ShapeError>
    ensures refused { IfErr result (λ e. refusal_meant given_in (meant_by Sh.IntoStrideShape shape) count ≡ Some e) }
    ensures accepted { IfOk result (λ _. refusal_meant given_in (meant_by Sh.IntoStrideShape shape) count ≡ None) }
    ensures laid { IfOk result (λ l. IsLaidOutAs (meant_by Sh.IntoStrideShape shape) given_in count (placement_of l)) }
{
    let given = shape.into_stride_shape();
    let dim = *given.raw_dim();
    match given.custom_strides() {
        Some(strides) => {
            let offset = given_offset(given_in, dim.slice(), strides.slice(), count)?;
            Ok(laid_by_strides(offset, dim, strides, given_in, count))
        }
        None => {
            given_size(given_in, dim.slice(), count)?;
            Ok(laid_in_order(dim, given.order(), count))
        }
    }
}

/// Returns a view of the elements of `region` at the places of `layout`, all of which the region must have.
fn region_laid_out<'a, A, D: Dimension>(
    region: Region<'a, A>,
    layout: Layout<D, D::Strides>,
) -> ArrayViewMut<'a, A, D>
    requires sound { LiesBy (region_stored region) (placement_of layout) }
    ensures region { (storage_of result).region ≡ region.entry }
    ensures placement { HasPlacement (placement_of layout) result }
    ensures elements { ShowsPlaces (region_stored region.entry) result }
{
    ArrayBase {
        storage: ViewMutRepr::of_region(region),
        layout,
    }
}

/// Returns an array over `storage`, which must hold an element at each place below `count`, under a shape: by the
/// caller's strides if there are any, and otherwise in the order of the shape. Fails with the cause why `count`
/// elements can't be laid out so.
fn under_shape<S: Data + Drop, D: Dimension, Sh: IntoStrideShape<Dim = D>>(
    given_in: GivenIn,
    storage: S,
    count: usize,
    shape: Sh,
) -> Result<ArrayBase<S, D>, ShapeError>
    requires holds { (place : ℕ) → place < count → IsSome (S.stored storage place) }
    requires apart { IsTrue S.exclusive → IsTrue (is_apart_in given_in) }
    ensures refused { IfErr result (λ e. refusal_meant given_in (meant_by Sh.IntoStrideShape shape) count ≡ Some e) }
    ensures accepted { IfOk result (λ _. refusal_meant given_in (meant_by Sh.IntoStrideShape shape) count ≡ None) }
    ensures shape { IfOk result (λ a. shape_of a ≡ Sh.lengths_meant shape) }
    ensures strides { IfOk result (λ a. layout_strides a ≡ strides_under (meant_by Sh.IntoStrideShape shape)) }
    ensures offset { IfOk result (λ a. layout_offset a ≡ offset_under (meant_by Sh.IntoStrideShape shape)) }
    ensures storage { IfOk result (λ a. storage_of a ≡ storage) }
    ensures elements { IfOk result (λ a. ShowsGiven (meant_by Sh.IntoStrideShape shape) (S.stored storage) a) }
{
    let layout = laid_out(given_in, count, shape)?;
    Ok(ArrayBase { storage, layout })
}

impl<A: Drop, D: Dimension> Array<A, D> {
    /// Returns an array of the vector's elements under a shape: in row-major order, in column-major order after `.f()`,
    /// or by the strides given to `.strides(..)`. Fails with `Overflow` where the shape has no checked size, or where
    /// its places would lie further apart than `isize::MAX`; with `OutOfBounds` where the vector is too short; with
    /// `IncompatibleShape` where it is longer and no strides are given; with `Unsupported` where two indexes could
    /// share an element. This is ndarray's `from_shape_vec`.
    pub fn from_shape_vec<Sh: IntoStrideShape<Dim = D>>(
        shape: Sh,
        v: Vec<A>,
    ) -> Result<Self, ShapeError>
        ensures refused { IfErr result (λ e. vec_refusal_for (meant_by Sh.IntoStrideShape shape) (vec_len v) ≡ Some e) }
        ensures accepted { IfOk result (λ _. vec_refusal_for (meant_by Sh.IntoStrideShape shape) (vec_len v) ≡ None) }
        ensures shape { IfOk result (λ a. shape_of a ≡ Sh.lengths_meant shape) }
        ensures strides { IfOk result (λ a. layout_strides a ≡ strides_under (meant_by Sh.IntoStrideShape shape)) }
        ensures offset { IfOk result (λ a. layout_offset a ≡ offset_under (meant_by Sh.IntoStrideShape shape)) }
        ensures stored { IfOk result (λ a. stored_list (storage_of a) ≡ v.items) }
        ensures room { IfOk result (λ a. room_of (storage_of a) ≡ vec_capacity v) }
        ensures elements { IfOk result (ShowsUnder (meant_by Sh.IntoStrideShape shape) v.items) }
    {
        let count = v.len();
        under_shape(GivenIn::Vector, OwnedRepr { items: v }, count, shape)
    }
}

impl<'a, A, D: Dimension> ArrayView<'a, A, D> {
    /// Returns a view of the slice's elements under a shape: in row-major order, in column-major order after `.f()`, or
    /// by the strides given to `.strides(..)`, where several indexes may share an element. Fails with `Overflow` where
    /// the shape has no checked size, or where its places would lie further apart than `isize::MAX`; with `OutOfBounds`
    /// where the slice is too short; it may be longer. This is ndarray's `ArrayView::from_shape`.
    pub fn from_shape<Sh: IntoStrideShape<Dim = D>>(
        shape: Sh,
        xs: &'a [A],
    ) -> Result<Self, ShapeError>
        ensures refused { IfErr result (λ e. read_refusal (meant_by Sh.IntoStrideShape shape) (length xs.now) ≡ Some e) }
        ensures accepted { IfOk result (λ _. read_refusal (meant_by Sh.IntoStrideShape shape) (length xs.now) ≡ None) }
        ensures shape { IfOk result (λ a. shape_of a ≡ Sh.lengths_meant shape) }
        ensures strides { IfOk result (λ a. layout_strides a ≡ strides_under (meant_by Sh.IntoStrideShape shape)) }
        ensures offset { IfOk result (λ a. layout_offset a ≡ offset_under (meant_by Sh.IntoStrideShape shape)) }
        ensures elements { IfOk result (ShowsUnder (meant_by Sh.IntoStrideShape shape) xs.now) }
    {
        let count = xs.len();
        under_shape(GivenIn::Slice, ViewRepr::of_slice(xs), count, shape)
    }
}

impl<'a, A, D: Dimension> ArrayViewMut<'a, A, D> {
    /// Returns a view of the slice's elements under a shape, to be written: in row-major order, in column-major order
    /// after `.f()`, or by the strides given to `.strides(..)`. Fails with `Overflow` where the shape has no checked
    /// size, or where its places would lie further apart than `isize::MAX`; with `OutOfBounds` where the slice is too
    /// short (it may be longer); with `Unsupported` where two indexes could share an element. This is ndarray's
    /// `ArrayViewMut::from_shape`.
    pub fn from_shape<Sh: IntoStrideShape<Dim = D>>(
        shape: Sh,
        xs: &'a mut [A],
    ) -> Result<Self, ShapeError>
        ensures* follows { sem 𝓛 (slice_follows_view A.row xs.entry result) }
        ensures refused { IfErr result (λ e. refusal_for (meant_by Sh.IntoStrideShape shape) (length xs.old) ≡ Some e) }
        ensures accepted { IfOk result (λ _. refusal_for (meant_by Sh.IntoStrideShape shape) (length xs.old) ≡ None) }
        ensures shape { IfOk result (λ a. shape_of a ≡ Sh.lengths_meant shape) }
        ensures strides { IfOk result (λ a. layout_strides a ≡ strides_under (meant_by Sh.IntoStrideShape shape)) }
        ensures offset { IfOk result (λ a. layout_offset a ≡ offset_under (meant_by Sh.IntoStrideShape shape)) }
        ensures elements { IfOk result (ShowsUnder (meant_by Sh.IntoStrideShape shape) xs.old) }
        ensures stored { IfOk result (λ a. (place : ℕ) → held_by (storage_of a) place ≡ slice_get xs.old place) }
    {
        match laid_out(GivenIn::SliceMut, xs.len(), shape) {
            Ok(layout) => Ok(region_laid_out(Region::from_slice(xs), layout)),
            Err(cause) => Err(cause),
        }
    }
}
