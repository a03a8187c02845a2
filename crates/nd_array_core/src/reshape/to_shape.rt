//! A call that shows an array under another shape: as a view if some strides serve, and else as a copy.
#![tactic(auto, unfolding(crate::specs::ArrayMeaning::meaning_of, crate::specs::ArrayMeaning::memory_layout_of))]

ghost use Rattle.std.specs.Prelude.{IfOk, IfErr};
ghost use Rattle.nd_array_core.specs.ArrayMeaning.{shape_of};
ghost use Rattle.nd_array_core.specs.reshape.ReshapeByRank.{IsShapeOf};
ghost use Rattle.nd_array_core.specs.reshape.EitherArray.{RefusesReshape, CopiesAreEqual, ViewsOrCopies, ShowsRegrouped, IsViewIfServed, IsViewIfShapeServed};

use crate::base::array::{Array, ArrayBase};
use crate::base::array_error::ArrayError;
use crate::reshape::copies_in_an_order::copied_in;
use crate::reshape::either_array::{EitherArray, ViewOrOwned};
use crate::reshape::into_shape::has_size;
use crate::reshape::serving_strides::served_view;
use nd_elements::storage::Data;
use nd_shape_and_slice::{Dimension, ErrorKind, NoMemory, Order, ShapeArg, ShapeError};
use std::alloc::Global;

/// Returns the elements with the lengths `dim`, each with its rank in the order `order`: as a view if some strides give
/// each element the place that it has, and else as an array of clones.
#[tactic(auto, using(crate::proofs::law_lemmas::ViewOrOwnedArrays::ranks_shown, crate::proofs::law_lemmas::ViewOrOwnedArrays::served_shown))]
pub(crate) fn view_or_copy<S: Data, D: Dimension, E: Dimension>(
    alloc: Global,
    array: &ArrayBase<S, D>,
    dim: E,
    order: Order,
) -> Result<ViewOrOwned<'_, S::Elem, E>, ArrayError>
where
    S::Elem: Clone + Drop,
    requires shape { IsShapeOf (shape_of array.now) (E.lengths dim) }
    requires clones { CopiesAreEqual S.Elem.is_clone array.now order (E.lengths dim) }
    ensures refused { IfErr result (RefusesReshape array.now order (E.lengths dim)) }
    ensures kind { IfOk result (ViewsOrCopies array.now order (E.lengths dim)) }
    ensures shown { IfOk result (ShowsRegrouped array.now order (E.lengths dim)) }
    ensures serves { IsViewIfServed array.now order (E.lengths dim) result }
{
    match served_view(array, dim, order) {
        Some(view) => Ok(EitherArray::View(view)),
        None => match copied_in(alloc, array, dim, order) {
            Ok(copy) => Ok(EitherArray::Owned(copy)),
            Err(_) => Err(ArrayError::NoMemory),
        },
    }
}

impl<S: Data, D: Dimension> ArrayBase<S, D>
where
    S::Elem: Clone + Drop,
{
    /// Returns the elements under another shape. Each element keeps its rank in the order asked for, which is row-major
    /// unless another is given. The result is a view wherever some strides give each element the place that it has,
    /// which takes no memory and clones nothing; otherwise it is an array of clones, in that order. A clone must equal
    /// its original. Fails with `IncompatibleShape` where the shape has no checked size or another size than the array;
    /// with `NoMemory` if the storage or a clone is refused. This is ndarray's `to_shape`.
    pub fn to_shape<E: ShapeArg>(
        &self,
        alloc: Global,
        shape: E,
    ) -> Result<ViewOrOwned<'_, S::Elem, E::Dim>, ArrayError>
        requires clones { CopiesAreEqual S.Elem.is_clone self.now (E.order_asked shape) (E.shape_asked shape) }
        ensures refused { IfErr result (RefusesReshape self.now (E.order_asked shape) (E.shape_asked shape)) }
        ensures shape { IfOk result (λ _. IsShapeOf (shape_of self.now) (E.shape_asked shape)) }
        ensures kind { IfOk result (ViewsOrCopies self.now (E.order_asked shape) (E.shape_asked shape)) }
        ensures shown { IfOk result (ShowsRegrouped self.now (E.order_asked shape) (E.shape_asked shape)) }
        ensures serves { IsViewIfShapeServed self.now (E.order_asked shape) (E.shape_asked shape) result }
    {
        let (dim, order) = shape.into_shape_and_order();
        if has_size(dim.slice(), self.len()) {
            view_or_copy(alloc, self, dim, order)
        } else {
            Err(ArrayError::Shape(ShapeError::from_kind(ErrorKind::IncompatibleShape)))
        }
    }
}
