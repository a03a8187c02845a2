//! Clones of owned arrays, over storages of their own, and of views.
#![tactic(auto, unfolding(crate::specs::ArrayMeaning::meaning_of, crate::specs::ArrayMeaning::memory_layout_of))]

ghost use Rattle.std.specs.Prelude.{◌≡◌, ◌<◌, ⊤, IfOk, OnOk, OnErr, length};
ghost use Rattle.nd_array_core.specs.ArrayMeaning.{storage_of};
ghost use Rattle.nd_array_core.specs.PartsOfArrays.{ShowsWhole};
ghost use Rattle.nd_elements.specs.BorrowedAndOwnedStorages.{stored_list};
ghost use Rattle.nd_elements.specs.EqualClones.{StoredClonesAreEqual};

use crate::base::array::{Array, ArrayBase};
use nd_elements::storage::{Data, cloned_storage};
use nd_shape_and_slice::{Dimension, StrideList};
use std::alloc::AllocError;

impl<A: Clone, D: Dimension> Array<A, D> {
    /// Returns an array with the same shape, strides and offset, over clones of all stored elements, also of those that
    /// no index names; a clone must equal its original. Fails with `AllocError` if the storage or a clone is refused.
    /// This is ndarray's `clone`.
    pub fn clone(&self) -> Result<Self, AllocError>
        requires { StoredClonesAreEqual A.is_clone (stored_list (storage_of self.now)) }
        ensures whole { IfOk result (λ copy. ShowsWhole self.now copy) }
        ensures stored { IfOk result (λ copy. stored_list (storage_of copy) ≡ stored_list (storage_of self.now)) }
        ensures refused { OnErr result (0 < length (stored_list (storage_of self.now))) }
    {
        let storage = cloned_storage(&self.storage)?;
        Ok(ArrayBase {
            storage,
            layout: self.layout.copied(),
        })
    }

    /// Replaces the array by a clone of `source`, which is made first, as `clone` makes it; a clone must equal its
    /// original. Fails with `AllocError` if the storage or a clone is refused; the array is then as it was. This is
    /// ndarray's `clone_from`.
    pub fn clone_from(&mut self, source: &Self) -> Result<(), AllocError>
        requires { StoredClonesAreEqual A.is_clone (stored_list (storage_of source.now)) }
        ensures whole { OnOk result (ShowsWhole source.now self.new) }
        ensures stored { OnOk result (stored_list (storage_of self.new) ≡ stored_list (storage_of source.now)) }
        ensures refused { OnErr result (self.new ≡ self.old) }
        ensures some_stored { OnErr result (0 < length (stored_list (storage_of source.now))) }
    {
        *self = source.clone()?;
        Ok(())
    }
}

impl<S: Data + Copy, D: Dimension, T: StrideList> Clone for ArrayBase<S, D, T> {
    ghost is_clone = { λ array copy. copy ≡ array };

    ghost is_infallible = { λ _. ⊤ };

    fn clone(&self) -> Result<Self, AllocError> {
        match self.layout.clone() {
            Ok(layout) => Ok(ArrayBase {
                storage: self.storage,
                layout,
            }),
            Err(refused) => Err(refused),
        }
    }
}
