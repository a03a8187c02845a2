//! Conversions from slices, rows, blocks of rows and arrays to views, and from a vector to an array.
#![tactic(auto, unfolding(crate::specs::ArrayMeaning::meaning_of, crate::specs::ArrayMeaning::memory_layout_of))]

ghost use Rattle.std.specs.Prelude.{◌≡◌, ◌*◌, ◌<◌, ◌≤◌, ◌^◌, ℕ, [], ◌∷◌, length, vec_len, vec_capacity};
ghost use Rattle.std.specs.List.{flat_map};
ghost use Rattle.nd_shape_and_slice.specs.ShapesAndIndexOrders.{size_of, HasCheckedSize};
ghost use Rattle.nd_elements.specs.BorrowedAndOwnedStorages.{ShowsItems};
ghost use Rattle.nd_array_core.specs.ArrayMeaning.{place_at, storage_of};
ghost use Rattle.std.specs.Borrow.{sem};
ghost use Rattle.nd_region.specs.Region.{region_stored};
ghost use Rattle.nd_region.specs.LenderAfterBorrow.{slice_follows};
ghost use Rattle.nd_shape_and_slice.specs.declared.shape_builder.Order.TheVariants.{RowMajor};
ghost use Rattle.nd_array_core.specs.PartsOfArrays.{ShowsWhole};
ghost use Rattle.nd_array_core.specs.base.NewArrays.{OwnsInOrder, OwnsVec};
ghost use Rattle.nd_array_core.specs.base.ViewsOfSlicesAndRows.{HoldsBelow, IsAllZero, IsRowMajorOf, IsRowMajorIn};
ghost use Rattle.nd_array_core.specs.base.SliceAfterView.{row_array_follows_view, rows_follow_view};

use crate::base::array::{Array, ArrayBase, ArrayView, ArrayViewMut};
use crate::base::from_shape::in_order;
use nd_elements::storage::{Data, DataMut, ViewMutRepr, ViewRepr};
use nd_region::Region;
use nd_shape_and_slice::{Dimension, IntoDimension, Ix1, Ix2, Ix3, Order, size_of_shape_checked};

/// Returns the first `len` elements of `storage`, from place 0 on, as an array with one axis. The array is empty if
/// `len` is above `isize::MAX`.
fn on_one_axis<S: Data>(storage: S, len: usize) -> ArrayBase<S, Ix1>
    requires { HoldsBelow len (S.stored storage) }
    ensures held { IsRowMajorIn (len ∷ []) (S.stored storage) result }
    ensures empty { ¬ (HasCheckedSize (len ∷ [])) → IsAllZero 1 result }
    ensures storage { storage_of result ≡ storage }
{
    match size_of_shape_checked(&[len]) {
        Ok(_) => in_order(storage, len.into_dimension(), Order::RowMajor),
        Err(_) => in_order(storage, 0.into_dimension(), Order::RowMajor),
    }
}

/// Makes a vector the storage of an array with one axis, as `from_vec` does.
impl<A> From<Vec<A>> for Array<A, Ix1> {
    ghost from_gives = { λ v array. OwnsInOrder (vec_len v ∷ [], RowMajor) array × OwnsVec v.items (vec_capacity v) array };

    fn from(v: Vec<A>) -> Self {
        Array::from_vec(v)
    }
}

/// Makes a read-only view of an array, with the same strides, as `view` does.
impl<'a, S: Data, D: Dimension> From<&'a ArrayBase<S, D>> for ArrayView<'a, S::Elem, D> {
    ghost from_gives = { λ array view. ShowsWhole array.now view };

    fn from(array: &'a ArrayBase<S, D>) -> Self {
        array.view()
    }
}

/// Makes a view of an array that can be read and written, with the same strides, as `view_mut` does.
impl<'a, S: DataMut, D: Dimension> From<&'a mut ArrayBase<S, D>> for ArrayViewMut<'a, S::Elem, D> {
    ghost use Rattle.nd_array_core.specs.layout.ArrayAfterMutableView.{array_follows_part, left_by, lent_places, tie_of, LeavesPlacesBut, LeavesRefilled};

    ghost from_gives = { λ array view. ShowsWhole array.now view };

    fn from(array: &'a mut ArrayBase<S, D>) -> Self
        ensures* writes_back { sem 𝓛 (array_follows_part S.row S.Elem.row D.row D.Strides.row S.Data D.Dimension D.AxisCount D.Strides.StrideList array.entry (tie_of result) (lent_places result)) }
        ensures gives { ShowsWhole array.old result }
        ensures refilled { LeavesRefilled S.frame array.old (left_by array.old result) }
        ensures others { LeavesPlacesBut (place_at result) array.old (left_by array.old result) }
    {
        array.view_mut()
    }
}

/// Makes a view of a slice, with one axis. The view is empty if the slice has more than `isize::MAX` elements.
impl<'a, A> From<&'a [A]> for ArrayView<'a, A, Ix1> {
    ghost from_gives = { λ xs view. IsRowMajorOf (length xs.now ∷ []) xs.now view };

    fn from(xs: &'a [A]) -> Self {
        let len = xs.len();
        on_one_axis(ViewRepr::of_slice(xs), len)
    }
}

/// Returns a view, with one axis, of the first `len` elements of `region`. The view is empty if `len` is above
/// `isize::MAX`.
fn region_on_one_axis<'a, A>(region: Region<'a, A>, len: usize) -> ArrayViewMut<'a, A, Ix1>
    requires { HoldsBelow len (region_stored region) }
    ensures held { IsRowMajorIn (len ∷ []) (region_stored region.entry) result }
    ensures empty { ¬ (HasCheckedSize (len ∷ [])) → IsAllZero 1 result }
    ensures region { (storage_of result).region ≡ region.entry }
{
    on_one_axis(ViewMutRepr::of_region(region), len)
}

/// Makes a view of a slice, with one axis, that can be read and written. The view is empty if the slice has more than
/// `isize::MAX` elements.
impl<'a, A> From<&'a mut [A]> for ArrayViewMut<'a, A, Ix1> {
    ghost from_gives = { λ xs view. IsRowMajorOf (length xs.now ∷ []) xs.now view };

    fn from(xs: &'a mut [A]) -> Self
        ensures* follows { sem 𝓛 (slice_follows A.row xs.entry (storage_of result).region) }
        ensures gives { IsRowMajorOf (length xs.old ∷ []) xs.old result }
    {
        let len = xs.len();
        region_on_one_axis(Region::from_slice(xs), len)
    }
}

/// Makes a view of rows of N elements each. The view is empty if the shape of as many rows and N columns has no checked
/// size.
impl<'a, A, const N: usize> From<&'a [[A; N]]> for ArrayView<'a, A, Ix2> {
    ghost from_gives = { λ rows view. IsRowMajorOf (length rows.now ∷ N ∷ []) (flat_map (λ row. row) rows.now) view };

    fn from(rows: &'a [[A; N]]) -> Self {
        let len = rows.len();
        match size_of_shape_checked(&[len, N]) {
            Ok(_) => in_order(
                ViewRepr::of_rows(rows),
                (len, N).into_dimension(),
                Order::RowMajor,
            ),
            Err(_) => in_order(
                ViewRepr::of_rows(&rows[..0]),
                (0, 0).into_dimension(),
                Order::RowMajor,
            ),
        }
    }
}

/// Returns `rows`, or 0 if the shape of `rows` rows and `columns` columns has no checked size.
fn rows_with_places(rows: usize, columns: usize) -> usize
    ensures all { HasCheckedSize (rows ∷ columns ∷ []) → result ≡ rows }
    ensures none { ¬ (HasCheckedSize (rows ∷ columns ∷ [])) → result ≡ 0 }
    ensures few { result ≤ rows }
    ensures small { result * columns < 2 ^ 63 }
{
    match size_of_shape_checked(&[rows, columns]) {
        Ok(_) => rows,
        Err(_) => 0,
    }
}

/// Returns a view, with two axes, of `rows` rows of `columns` elements each in `region`. The view is empty if their
/// shape has no checked size.
fn region_on_two_axes<'a, A>(
    region: Region<'a, A>,
    rows: usize,
    columns: usize,
) -> ArrayViewMut<'a, A, Ix2>
    requires { HasCheckedSize (rows ∷ columns ∷ []) → HoldsBelow (rows * columns) (region_stored region) }
    ensures held { IsRowMajorIn (rows ∷ columns ∷ []) (region_stored region.entry) result }
    ensures empty { ¬ (HasCheckedSize (rows ∷ columns ∷ [])) → IsAllZero 2 result }
    ensures region { (storage_of result).region ≡ region.entry }
{
    let storage = ViewMutRepr::of_region(region);
    match size_of_shape_checked(&[rows, columns]) {
        Ok(_) => in_order(storage, (rows, columns).into_dimension(), Order::RowMajor),
        Err(_) => in_order(storage, (0, 0).into_dimension(), Order::RowMajor),
    }
}

/// Makes a view of rows of N elements each that can be read and written. The view is empty if the shape of as many rows
/// and N columns has no checked size.
impl<'a, A, const N: usize> From<&'a mut [[A; N]]> for ArrayViewMut<'a, A, Ix2> {
    ghost from_gives = { λ rows view. IsRowMajorOf (length rows.now ∷ N ∷ []) (flat_map (λ row. row) rows.now) view };

    fn from(rows: &'a mut [[A; N]]) -> Self
        ensures* follows { sem 𝓛 (rows_follow_view A.row N rows.entry result) }
        ensures gives { IsRowMajorOf (length rows.old ∷ N ∷ []) (flat_map (λ row. row) rows.old) result }
    {
        let len = rows.len();
        let count = rows_with_places(len, N);
        region_on_two_axes(Region::from_rows(&mut rows[..count]), len, N)
    }
}

/// Makes a view of M rows of N elements each. The view is empty if the shape of M rows and N columns has no checked
/// size.
impl<'a, A, const N: usize, const M: usize> From<&'a [[A; N]; M]> for ArrayView<'a, A, Ix2> {
    ghost from_gives = { λ rows view. IsRowMajorOf (M ∷ N ∷ []) (flat_map (λ row. row) rows.now) view };

    fn from(rows: &'a [[A; N]; M]) -> Self {
        ArrayView::from(rows.as_slice())
    }
}

/// Makes a view of M rows of N elements each that can be read and written. The view is empty if the shape of M rows and
/// N columns has no checked size.
impl<'a, A, const N: usize, const M: usize> From<&'a mut [[A; N]; M]> for ArrayViewMut<'a, A, Ix2> {
    ghost from_gives = { λ rows view. IsRowMajorOf (M ∷ N ∷ []) (flat_map (λ row. row) rows.now) view };

    fn from(rows: &'a mut [[A; N]; M]) -> Self
        ensures* follows { sem 𝓛 (row_array_follows_view A.row M N rows.entry result) }
        ensures gives { IsRowMajorOf (M ∷ N ∷ []) (flat_map (λ row. row) rows.old) result }
    {
        let count = rows_with_places(M, N);
        region_on_two_axes(Region::from_rows(&mut rows[..count]), M, N)
    }
}

/// Proves that blocks of rows have fewer than 2^63 rows and fewer than 2^63 elements, and as many elements as their
/// shape has, which must have a checked size. Nothing runs.
fn blocks_fit(blocks: usize, rows: usize, columns: usize)
    requires { HasCheckedSize (blocks ∷ rows ∷ columns ∷ []) }
    ensures rows { blocks * rows < 2 ^ 63 }
    ensures elements { blocks * rows * columns < 2 ^ 63 }
    ensures size { blocks * rows * columns ≡ size_of (blocks ∷ rows ∷ columns ∷ []) }
{}

/// Returns the elements of `blocks` as a storage to be read: block after block, and in each block row after row.
fn of_blocks<A, const N: usize, const M: usize>(blocks: &[[[A; N]; M]]) -> ViewRepr<'_, A>
    requires { HasCheckedSize (length blocks.now ∷ M ∷ N ∷ []) }
    ensures elements { ShowsItems result (flat_map (λ row. row) (flat_map (λ block. block) blocks.now)) }
    ensures count { length (flat_map (λ row. row) (flat_map (λ block. block) blocks.now)) ≡ size_of (length blocks.now ∷ M ∷ N ∷ []) }
{
    blocks_fit(blocks.len(), M, N);
    ViewRepr::of_rows(blocks.as_flattened())
}

/// Makes a view of blocks of M rows of N elements each, with three axes. The view is empty if the shape of as many
/// blocks, M rows and N columns has no checked size.
impl<'a, A, const N: usize, const M: usize> From<&'a [[[A; N]; M]]> for ArrayView<'a, A, Ix3> {
    ghost from_gives = { λ blocks view. IsRowMajorOf (length blocks.now ∷ M ∷ N ∷ []) (flat_map (λ row. row) (flat_map (λ block. block) blocks.now)) view };

    fn from(blocks: &'a [[[A; N]; M]]) -> Self {
        let len = blocks.len();
        match size_of_shape_checked(&[len, M, N]) {
            Ok(_) => in_order(
                of_blocks(blocks),
                (len, M, N).into_dimension(),
                Order::RowMajor,
            ),
            Err(_) => in_order(
                ViewRepr::of_slice(&[]),
                (0, 0, 0).into_dimension(),
                Order::RowMajor,
            ),
        }
    }
}
