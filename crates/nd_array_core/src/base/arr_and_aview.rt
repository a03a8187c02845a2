//! `arr0` to `arr3` and `aview0` to `aview2`: arrays and views of elements that are written out in the source.
#![tactic(auto, using(crate::proofs::AxesOfDimensionTypes::known_axes))]

ghost use Rattle.std.specs.Prelude.{◌≡◌, ◌<◌, ℕ, [], ◌∷◌, IfOk, Some, length, slice_get};
ghost use Rattle.std.specs.Mem.{FitsInMemory};
ghost use Rattle.nd_shape_and_slice.specs.ShapesAndIndexOrders.{HasCheckedSize};
ghost use Rattle.nd_array_core.specs.ArrayMeaning.{shape_of, element_at};
ghost use Rattle.nd_array_core.specs.ElementsByCoordinates.{element_of_1, HasLength, HasRowsAndColumns};
ghost use Rattle.nd_array_core.specs.base.NewArrays.{EachCloneIsEqual};
ghost use Rattle.nd_array_core.specs.base.Literals.{ShowsRows, ShowsBlocks};

use crate::base::aliases::{
    Array0, Array1, Array2, Array3, ArrayView0, ArrayView1, ArrayView2, ArrayView3,
};
use crate::base::constructors::of_items;
use crate::base::from_shape::in_order;
use nd_elements::storage::ViewRepr;
use nd_shape_and_slice::{IntoDimension, NoMemory, Order};
use std::alloc::Global;
use std::slice;

/// Returns a view of one element, with no axes. The size of its type is below 2 ^ 63, as that of each known type is.
/// This is ndarray's `aview0`.
#[tactic(auto, unfolding(crate::specs::ArrayMeaning::meaning_of))]
pub fn aview0<A>(x: &A) -> ArrayView0<'_, A>
    requires { FitsInMemory A.row }
    ensures shape { shape_of result ≡ [] }
    ensures element { element_at result [] ≡ Some x.now }
{
    in_order(
        ViewRepr::of_slice(slice::from_ref(x)),
        ().into_dimension(),
        Order::RowMajor,
    )
}

/// Returns a view of a slice, with one axis. The slice must have at most `isize::MAX` elements. This is ndarray's
/// `aview1`.
pub fn aview1<A>(xs: &[A]) -> ArrayView1<'_, A>
    requires { HasCheckedSize (length xs.now ∷ []) }
    ensures shape { HasLength result (length xs.now) }
    ensures elements { (k : ℕ) → k < length xs.now → element_of_1 result k ≡ slice_get xs.now k }
{
    ArrayView1::from(xs)
}

/// Returns a view of rows, with two axes. Its shape must have a checked size. This is ndarray's `aview2`.
pub fn aview2<A, const N: usize>(rows: &[[A; N]]) -> ArrayView2<'_, A>
    requires { HasCheckedSize (length rows.now ∷ N ∷ []) }
    ensures shape { HasRowsAndColumns result (length rows.now) N }
    ensures elements { ShowsRows result N rows.now }
{
    ArrayView2::from(rows)
}

/// Returns a view of blocks of rows, with three axes. Its shape must have a checked size.
fn aview3<A, const N: usize, const M: usize>(blocks: &[[[A; N]; M]]) -> ArrayView3<'_, A>
    requires { HasCheckedSize (length blocks.now ∷ M ∷ N ∷ []) }
    ensures shape { shape_of result ≡ length blocks.now ∷ M ∷ N ∷ [] }
    ensures elements { ShowsBlocks result M N blocks.now }
{
    ArrayView3::from(blocks)
}

/// Returns an array of one element, with no axes. Fails with `NoMemory` if the storage is refused. This is ndarray's
/// `arr0`.
pub fn arr0<A: Drop>(alloc: Global, x: A) -> Result<Array0<A>, NoMemory>
    ensures shape { IfOk result (λ a. shape_of a ≡ []) }
    ensures element { IfOk result (λ a. element_at a [] ≡ Some x) }
{
    let mut items = Vec::with_capacity(alloc, 1)?;
    items.push_reserved(x);
    Ok(of_items(items, ().into_dimension(), Order::RowMajor))
}

/// Returns an array of clones of a list's elements, with one axis; a clone must equal its original. Fails with
/// `NoMemory` if the storage or a clone is refused. This is ndarray's `arr1`.
pub fn arr1<A: Clone + Drop>(alloc: Global, xs: &[A]) -> Result<Array1<A>, NoMemory>
    requires clones { EachCloneIsEqual A.is_clone }
    requires checked { HasCheckedSize (length xs.now ∷ []) }
    ensures shape { IfOk result (λ a. HasLength a (length xs.now)) }
    ensures elements { IfOk result (λ a. (k : ℕ) → k < length xs.now → element_of_1 a k ≡ slice_get xs.now k) }
{
    let made = aview1(xs).to_owned(alloc)?;
    Ok(made)
}

/// Returns an array of clones of the elements of rows, with two axes; a clone must equal its original. Fails with
/// `NoMemory` if the storage or a clone is refused. This is ndarray's `arr2`.
pub fn arr2<A: Clone + Drop, const N: usize>(
    alloc: Global,
    rows: &[[A; N]],
) -> Result<Array2<A>, NoMemory>
    requires clones { EachCloneIsEqual A.is_clone }
    requires checked { HasCheckedSize (length rows.now ∷ N ∷ []) }
    ensures shape { IfOk result (λ a. HasRowsAndColumns a (length rows.now) N) }
    ensures elements { IfOk result (λ a. ShowsRows a N rows.now) }
{
    let made = aview2(rows).to_owned(alloc)?;
    Ok(made)
}

/// Returns an array of clones of the elements of blocks of rows, with three axes; a clone must equal its original.
/// Fails with `NoMemory` if the storage or a clone is refused. This is ndarray's `arr3`.
pub fn arr3<A: Clone + Drop, const N: usize, const M: usize>(
    alloc: Global,
    blocks: &[[[A; N]; M]],
) -> Result<Array3<A>, NoMemory>
    requires clones { EachCloneIsEqual A.is_clone }
    requires checked { HasCheckedSize (length blocks.now ∷ M ∷ N ∷ []) }
    ensures shape { IfOk result (λ a. shape_of a ≡ length blocks.now ∷ M ∷ N ∷ []) }
    ensures elements { IfOk result (λ a. ShowsBlocks a M N blocks.now) }
{
    let made = aview3(blocks).to_owned(alloc)?;
    Ok(made)
}
