//! A call that gives an owned array another shape: it keeps its storage if some strides serve, and else clones its
//! elements.
#![tactic(auto, unfolding(crate::specs::ArrayMeaning::meaning_of, crate::specs::ArrayMeaning::memory_layout_of))]

ghost use Rattle.std.specs.Prelude.{IfOk, IfErr};
ghost use Rattle.nd_array_core.specs.ArrayMeaning.{shape_of};
ghost use Rattle.nd_array_core.specs.reshape.ReshapeByRank.{IsShapeOf};
ghost use Rattle.nd_array_core.specs.reshape.EitherArray.{RefusesReshape, CopiesAreEqual, KeptOrCopied, KeepsStorageIfServed, KeepsStorageIfShapeServed};

use crate::base::array::{Array, ArrayBase};
use crate::base::array_error::ArrayError;
use crate::reshape::copies_in_an_order::copied_in;
use crate::reshape::into_shape::has_size;
use crate::reshape::serving_strides::served_layout;
use nd_shape_and_slice::{Dimension, ErrorKind, NoMemory, Order, ShapeArg, ShapeError};
use std::alloc::Global;

/// Returns the array with the lengths `dim`, in which each element keeps its rank in the order `order`. It keeps its
/// storage if some strides give each element the place that it has, and else its elements are cloned.
pub(crate) fn kept_or_copied<A: Clone + Drop, D: Dimension, E: Dimension>(
    alloc: Global,
    array: Array<A, D>,
    dim: E,
    order: Order,
) -> Result<Array<A, E>, ArrayError>
    requires shape { IsShapeOf (shape_of array) (E.lengths dim) }
    requires clones { CopiesAreEqual A.is_clone array order (E.lengths dim) }
    ensures refused { IfErr result (RefusesReshape array order (E.lengths dim)) }
    ensures kind { IfOk result (KeptOrCopied array order (E.lengths dim)) }
    ensures serves { KeepsStorageIfServed array order (E.lengths dim) result }
{
    match served_layout(&array.layout, dim, order) {
        Some(layout) => Ok(ArrayBase {
            storage: array.storage,
            layout,
        }),
        None => match copied_in(alloc, &array, dim, order) {
            Ok(copy) => Ok(copy),
            Err(_) => Err(ArrayError::NoMemory),
        },
    }
}

impl<A: Clone + Drop, D: Dimension> Array<A, D> {
    /// Returns the array under another shape. Each element keeps its rank in the order asked for, which is row-major
    /// unless another is given. The array keeps its storage wherever some strides give each element the place that it
    /// has, which takes no memory and clones nothing; otherwise its elements are cloned, in that order. A clone must
    /// equal its original. Fails with `IncompatibleShape` where the shape has no checked size or another size than the
    /// array; with `NoMemory` if the storage or a clone is refused. After a failure the array is dropped. This is
    /// ndarray's `into_shape_clone`.
    pub fn into_shape_clone<E: ShapeArg>(
        self,
        alloc: Global,
        shape: E,
    ) -> Result<Array<A, E::Dim>, ArrayError>
        requires clones { CopiesAreEqual A.is_clone self (E.order_asked shape) (E.shape_asked shape) }
        ensures refused { IfErr result (RefusesReshape self (E.order_asked shape) (E.shape_asked shape)) }
        ensures shape { IfOk result (λ _. IsShapeOf (shape_of self) (E.shape_asked shape)) }
        ensures kind { IfOk result (KeptOrCopied self (E.order_asked shape) (E.shape_asked shape)) }
        ensures serves { KeepsStorageIfShapeServed self (E.order_asked shape) (E.shape_asked shape) result }
    {
        let (dim, order) = shape.into_shape_and_order();
        if has_size(dim.slice(), self.len()) {
            kept_or_copied(alloc, self, dim, order)
        } else {
            Err(ArrayError::Shape(ShapeError::from_kind(ErrorKind::IncompatibleShape)))
        }
    }
}
