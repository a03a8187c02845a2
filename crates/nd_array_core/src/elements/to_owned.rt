//! Owned arrays made of arrays over any storage.
#![tactic(auto, unfolding(crate::specs::ArrayMeaning::meaning_of, crate::specs::ArrayMeaning::memory_layout_of))]

ghost use Rattle.std.specs.Prelude.{◌≡◌, ℕ, List, IfOk, IfErr, length, false, is_ok, slice_get, vec_capacity, ◌<◌, OnErr, IsTrue};
ghost use Rattle.nd_shape_and_slice.specs.ShapesAndIndexOrders.{size_of};
ghost use Rattle.nd_shape_and_slice.specs.declared.shape_builder.Order.TheVariants.{RowMajor};
ghost use Rattle.nd_layout.specs.LayoutStepsOfCalls.{placement_of, KeepsApart};
ghost use Rattle.nd_layout.specs.StridesAfterLayoutCalls.{reach_down};
ghost use Rattle.nd_array_core.specs.ArrayMeaning.{meaning_of, shape_of, element_at, storage_of, layout_strides, layout_offset};
ghost use Rattle.nd_array_core.specs.PartsOfArrays.{ShowsWhole, BecomesWhole};
ghost use Rattle.nd_array_core.specs.scoped.ViewTasks.{HoldsBy};
ghost use Rattle.nd_elements.specs.EqualClones.{ClonesOfAllAreEqual};
ghost use Rattle.nd_array_core.specs.base.NewArrays.{OwnsInOrder};
ghost use Rattle.nd_elements.specs.BorrowedAndOwnedStorages.{stored_list, room_of};
ghost use Rattle.nd_array_core.specs.reshape.ElementsAsSlice.{IsRunArray, IsRunUnder, IsInMemoryOrder, IsListedFromLowest, ShowsListFrom, CopiesRun, StoresInRowMajorOrder};

use crate::base::array::{Array, ArrayBase};
use crate::base::constructors::of_items;
use nd_elements::elements::to_vec::clones_of_slice;
use nd_elements::storage::{Data, OwnedRepr};
use nd_layout::{Layout, is_run, reach_below};
use nd_shape_and_slice::{Dimension, NoMemory, Order, StrideList};
use std::alloc::Global;

/// Returns an array that owns `items`, with the lengths and strides of `layout`. The places of that layout must be
/// consecutive numbers, each once, and `items` are the elements in the order of the places. `offset` must be the
/// distance from the lowest place to that of the index of zeros.
pub(crate) fn of_run<A, D: Dimension>(
    items: Vec<A>,
    offset: usize,
    layout: &Layout<D, D::Strides>,
) -> Array<A, D>
    requires run { IsRunUnder (placement_of layout.now) }
    requires from { offset ≡ reach_down (D.lengths layout.now.dim) (D.Strides.strides_of layout.now.strides) }
    requires count { length items.items ≡ size_of (D.lengths layout.now.dim) }
    ensures shape { shape_of result ≡ D.lengths layout.now.dim }
    ensures strides { layout_strides result ≡ D.Strides.strides_of layout.now.strides }
    ensures offset { layout_offset result ≡ offset }
    ensures stored { stored_list (storage_of result) ≡ items.items }
    ensures elements { ShowsListFrom offset (placement_of layout.now) items.items result }
{
    ArrayBase {
        storage: OwnedRepr { items },
        layout: Layout::strided(offset, layout.dim, layout.strides),
    }
}

/// Returns the elements of `array` as one slice, in the order of their places, which must be consecutive numbers, each
/// once.
pub(crate) fn run_elements<'a, S: Data, D: Dimension>(array: &'a ArrayBase<S, D>) -> &'a [S::Elem]
    requires { IsRunArray array.now }
    ensures order { IsInMemoryOrder array.now result.now }
    ensures count { length result.now ≡ size_of (shape_of array.now) }
    ensures shifted { IsListedFromLowest array.now result.now }
{
    let below = reach_below(array.layout.dim.slice(), array.layout.strides.slice());
    let first = array.layout.offset.saturating_sub(below);
    array.storage.borrowed().run(first, array.layout.dim.size())
}

/// Returns a new array of clones of the elements, with the strides of `array`. The places of the elements must be
/// consecutive numbers, each once.
fn run_to_owned<S: Data, D: Dimension>(
    alloc: Global,
    array: &ArrayBase<S, D>,
) -> Result<Array<S::Elem, D>, NoMemory>
where
    S::Elem: Clone,
    requires run { IsRunArray array.now }
    requires clones { ClonesOfAllAreEqual S.Elem.is_clone (element_at array.now) }
    ensures shape { IfOk result (λ a. shape_of a ≡ shape_of array.now) }
    ensures elements { IfOk result (λ a. (i : List ℕ) → element_at a i ≡ element_at array.now i) }
    ensures run { IfOk result (CopiesRun array.now) }
    ensures refused { OnErr result (0 < size_of (shape_of array.now)) }
{
    let items = clones_of_slice(alloc, run_elements(array))?;
    let below = reach_below(array.layout.dim.slice(), array.layout.strides.slice());
    Ok(of_run(items, below, &array.layout))
}

/// Returns a new array of clones of all elements, in row-major order.
pub(crate) fn ordered_to_owned<S: Data, D: Dimension>(
    alloc: Global,
    array: &ArrayBase<S, D>,
) -> Result<Array<S::Elem, D>, NoMemory>
where
    S::Elem: Clone + Drop,
    requires clones { ClonesOfAllAreEqual S.Elem.is_clone (element_at array.now) }
    ensures shape { IfOk result (λ a. shape_of a ≡ shape_of array.now) }
    ensures elements { IfOk result (λ a. (i : List ℕ) → element_at a i ≡ element_at array.now i) }
    ensures owns { IfOk result (OwnsInOrder (shape_of array.now, RowMajor)) }
    ensures stored { IfOk result (StoresInRowMajorOrder array.now) }
    ensures refused { OnErr result (0 < size_of (shape_of array.now)) }
{
    let items = array.to_vec(alloc)?;
    Ok(of_items(items, array.raw_dim(), Order::RowMajor))
}

impl<S: Data, D: Dimension> ArrayBase<S, D>
where
    S::Elem: Clone + Drop,
{
    /// Returns an array of the same shape that owns clones of the elements; a clone must equal its original. Where the
    /// places of the elements are consecutive numbers, each once, the strides stay as they are, also negative ones, and
    /// the elements keep the order of their places; otherwise they lie in row-major order. Fails with `NoMemory` if the
    /// storage or a clone is refused. This is ndarray's `to_owned`.
    pub fn to_owned(&self, alloc: Global) -> Result<Array<S::Elem, D>, NoMemory>
        requires clones { ClonesOfAllAreEqual S.Elem.is_clone (element_at self.now) }
        ensures shape { IfOk result (λ a. shape_of a ≡ shape_of self.now) }
        ensures elements { IfOk result (λ a. (i : List ℕ) → element_at a i ≡ element_at self.now i) }
        ensures run { IsRunArray self.now → IfOk result (CopiesRun self.now) }
        ensures owns { ¬ (IsRunArray self.now) → IfOk result (OwnsInOrder (shape_of self.now, RowMajor)) }
        ensures stored { ¬ (IsRunArray self.now) → IfOk result (StoresInRowMajorOrder self.now) }
        ensures refused { OnErr result (0 < size_of (shape_of self.now)) }
    {
        if is_run(self.layout.dim.slice(), self.layout.strides.slice()) {
            run_to_owned(alloc, self)
        } else {
            ordered_to_owned(alloc, self)
        }
    }
}

/// Returns an array that owns `items`, by a layout whose places the vector has.
fn of_vector<A, D: Dimension>(items: Vec<A>, layout: Layout<D, D::Strides>) -> Array<A, D>
    requires holds { HoldsBy (slice_get items.items) (placement_of layout) }
    requires apart { KeepsApart (placement_of layout) }
    ensures storage { stored_list (storage_of result) ≡ items.items }
    ensures room { room_of (storage_of result) ≡ vec_capacity items }
    ensures layout { result.layout ≡ layout }
{
    ArrayBase {
        storage: OwnedRepr { items },
        layout,
    }
}

impl<S: Data, D: Dimension> ArrayBase<S, D> {
    /// Returns the array in an owned storage, if it has one; otherwise the error is the array as it was. It takes no
    /// memory. This is ndarray's `try_into_owned_nocopy`.
    pub fn try_into_owned_nocopy(self) -> Result<Array<S::Elem, D>, Self>
        ensures owned { is_ok result ≡ S.owned }
        ensures whole { IfOk result (ShowsWhole self) }
        ensures stored { IfOk result (λ a. stored_list (storage_of a) ≡ S.items (storage_of self)) }
        ensures room { IfOk result (λ a. room_of (storage_of a) ≡ S.room (storage_of self)) }
        ensures kept { IfErr result (BecomesWhole self) }
    {
        match self.storage.into_items() {
            Ok(items) => Ok(of_vector(items, self.layout)),
            Err(storage) => Err(ArrayBase {
                storage,
                layout: self.layout,
            }),
        }
    }
}

impl<S: Data + Drop, D: Dimension> ArrayBase<S, D>
where
    S::Elem: Clone + Drop,
{
    /// Returns an array that owns its elements: the array itself if it owns them, which takes no memory, and otherwise
    /// an array of clones, as `to_owned` makes it. Fails with `NoMemory` if the storage or a clone is refused. This is
    /// ndarray's `into_owned`.
    pub fn into_owned(self, alloc: Global) -> Result<Array<S::Elem, D>, NoMemory>
        requires clones { S.owned ≡ false → ClonesOfAllAreEqual S.Elem.is_clone (element_at self) }
        ensures shape { IfOk result (λ a. shape_of a ≡ shape_of self) }
        ensures elements { IfOk result (λ a. (i : List ℕ) → element_at a i ≡ element_at self i) }
        ensures owned { IsTrue S.owned → IsTrue (is_ok result) }
        ensures whole { IsTrue S.owned → IfOk result (ShowsWhole self) }
        ensures items { IsTrue S.owned → IfOk result (λ a. stored_list (storage_of a) ≡ S.items (storage_of self)) }
        ensures room { IsTrue S.owned → IfOk result (λ a. room_of (storage_of a) ≡ S.room (storage_of self)) }
        ensures run { S.owned ≡ false → IsRunArray self → IfOk result (CopiesRun self) }
        ensures owns { S.owned ≡ false → ¬ (IsRunArray self) → IfOk result (OwnsInOrder (shape_of self, RowMajor)) }
        ensures refused { OnErr result (0 < size_of (shape_of self)) }
    {
        match self.try_into_owned_nocopy() {
            Ok(array) => Ok(array),
            Err(array) => array.to_owned(alloc),
        }
    }
}
