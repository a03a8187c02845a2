//! Calls that return the elements along one axis: as a view or in the same storage if a stride serves, and else as
//! copies.
#![tactic(auto, unfolding(crate::specs::ArrayMeaning::meaning_of, crate::specs::ArrayMeaning::memory_layout_of))]

ghost use Rattle.std.specs.Prelude.{◌≡◌, IfOk, IfErr, [], ◌∷◌};
ghost use Rattle.nd_shape_and_slice.specs.ShapesAndIndexOrders.{size_of};
ghost use Rattle.nd_shape_and_slice.specs.declared.shape_builder.Order.TheVariants.{RowMajor};
ghost use Rattle.nd_array_core.specs.ArrayMeaning.{shape_of};
ghost use Rattle.nd_array_core.specs.reshape.ReshapeByRank.{IsShapeOf, flat_shape};
ghost use Rattle.nd_array_core.specs.reshape.ServingStrides.{StridesServe};
ghost use Rattle.nd_array_core.specs.reshape.EitherArray.{CopiesAreEqual, ViewsOrCopies, ShowsRegrouped, KeptOrCopied, IsViewIfServed, KeepsStorageIfServed};

use crate::base::array::{Array, ArrayBase};
use crate::reshape::either_array::ViewOrOwned;
use crate::reshape::into_shape_clone::kept_or_copied;
use crate::reshape::to_shape::view_or_copy;
use nd_elements::storage::Data;
use nd_shape_and_slice::{Dimension, IntoDimension, Ix1, NoMemory, Order};
use std::alloc::Global;

/// Returns the number of elements, which is the length of an axis that has all of them.
fn line_of<S: Data, D: Dimension>(array: &ArrayBase<S, D>) -> usize
    ensures value { result ≡ size_of (shape_of array.now) }
    ensures shape { IsShapeOf (shape_of array.now) (result ∷ []) }
{
    array.len()
}

impl<S: Data, D: Dimension> ArrayBase<S, D>
where
    S::Elem: Clone + Drop,
{
    /// Returns the elements along one axis, in row-major or column-major order: as a view wherever some stride gives
    /// each element the place that it has, which takes no memory and clones nothing, and otherwise as an array of
    /// clones. A clone must equal its original. Fails with `NoMemory` if the storage or a clone is refused. This is
    /// ndarray's `flatten_with_order`.
    pub fn flatten_with_order(
        &self,
        alloc: Global,
        order: Order,
    ) -> Result<ViewOrOwned<'_, S::Elem, Ix1>, NoMemory>
        requires clones { CopiesAreEqual S.Elem.is_clone self.now order (flat_shape self.now) }
        ensures refused { IfErr result (λ _. ¬ (StridesServe self.now order (flat_shape self.now))) }
        ensures kind { IfOk result (ViewsOrCopies self.now order (flat_shape self.now)) }
        ensures shown { IfOk result (ShowsRegrouped self.now order (flat_shape self.now)) }
        ensures serves { IsViewIfServed self.now order (flat_shape self.now) result }
    {
        match view_or_copy(alloc, self, line_of(self).into_dimension(), order) {
            Ok(flat) => Ok(flat),
            Err(_) => Err(NoMemory),
        }
    }

    /// Returns the elements along one axis in row-major order: as a view wherever some stride gives each element the
    /// place that it has, which takes no memory and clones nothing, and otherwise as an array of clones. A clone must
    /// equal its original. Fails with `NoMemory` if the storage or a clone is refused. This is ndarray's `flatten`.
    pub fn flatten(&self, alloc: Global) -> Result<ViewOrOwned<'_, S::Elem, Ix1>, NoMemory>
        requires clones { CopiesAreEqual S.Elem.is_clone self.now RowMajor (flat_shape self.now) }
        ensures refused { IfErr result (λ _. ¬ (StridesServe self.now RowMajor (flat_shape self.now))) }
        ensures kind { IfOk result (ViewsOrCopies self.now RowMajor (flat_shape self.now)) }
        ensures shown { IfOk result (ShowsRegrouped self.now RowMajor (flat_shape self.now)) }
        ensures serves { IsViewIfServed self.now RowMajor (flat_shape self.now) result }
    {
        self.flatten_with_order(alloc, Order::RowMajor)
    }
}

impl<A: Clone + Drop, D: Dimension> Array<A, D> {
    /// Returns the elements along one axis in row-major order. The array keeps its storage wherever some stride gives
    /// each element the place that it has, which takes no memory and clones nothing; otherwise its elements are cloned.
    /// A clone must equal its original. Fails with `NoMemory` if the storage or a clone is refused; the array is then
    /// dropped. This is ndarray's `into_flat`.
    pub fn into_flat(self, alloc: Global) -> Result<Array<A, Ix1>, NoMemory>
        requires clones { CopiesAreEqual A.is_clone self RowMajor (flat_shape self) }
        ensures refused { IfErr result (λ _. ¬ (StridesServe self RowMajor (flat_shape self))) }
        ensures kind { IfOk result (KeptOrCopied self RowMajor (flat_shape self)) }
        ensures serves { KeepsStorageIfServed self RowMajor (flat_shape self) result }
    {
        let dim = line_of(&self).into_dimension();
        match kept_or_copied(alloc, self, dim, Order::RowMajor) {
            Ok(flat) => Ok(flat),
            Err(_) => Err(NoMemory),
        }
    }
}
