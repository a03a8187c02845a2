//! Calls that change the dimension type of an array and nothing else.
#![tactic(auto, unfolding(crate::specs::ArrayMeaning::meaning_of, crate::specs::ArrayMeaning::memory_layout_of))]

ghost use Rattle.std.specs.Prelude.{◌↔◌, ◌≡◌, false, length, IsErr, IfErr, IfOk};
ghost use Rattle.nd_shape_and_slice.specs.declared.errors.ErrorKind.{ErrorKind};
ghost use Rattle.nd_array_core.specs.ArrayMeaning.{shape_of};
ghost use Rattle.nd_array_core.specs.PartsOfArrays.{BecomesWhole};

use crate::base::array::ArrayBase;
use nd_elements::storage::Data;
use nd_shape_and_slice::{Dimension, ErrorKind, IxDyn, ShapeError};

impl<S: Data, D: Dimension> ArrayBase<S, D> {
    /// Returns the array as one whose number of axes is known only at run time. This is ndarray's `into_dyn`.
    pub fn into_dyn(self) -> ArrayBase<S, IxDyn>
        ensures whole { BecomesWhole self result }
    {
        let layout = self.layout.as_dynamic();
        ArrayBase {
            storage: self.storage,
            layout,
        }
    }
}

impl<S: Data + Drop, D: Dimension> ArrayBase<S, D> {
    /// Returns the array as one of another dimension. Fails with `IncompatibleShape` exactly where that dimension can't
    /// have as many axes. This is ndarray's `into_dimensionality`.
    pub fn into_dimensionality<E: Dimension>(self) -> Result<ArrayBase<S, E>, ShapeError>
        ensures refused { IsErr result ↔ (E.has_axes (length (shape_of self)) ≡ false) }
        ensures cause { IfErr result (λ e. e ≡ ErrorKind.IncompatibleShape) }
        ensures whole { IfOk result (λ a. BecomesWhole self a) }
    {
        match self.layout.as_dimension::<E>() {
            Some(layout) => Ok(ArrayBase {
                storage: self.storage,
                layout,
            }),
            None => Err(ShapeError::from_kind(ErrorKind::IncompatibleShape)),
        }
    }
}
