//! The type of arrays and views over any storage.

ghost use Rattle.std.specs.Prelude.{◌<◌, ℕ, List, IsTrue};
ghost use Rattle.nd_shape_and_slice.specs.ShapesAndIndexOrders.{in_box, size_of};
ghost use Rattle.nd_shape_and_slice.specs.PlacesAndOverlaps.{place_of, IsSeparated};
ghost use Rattle.nd_elements.specs.StoragePlaces.{names_place};

use nd_elements::storage::{Data, OwnedRepr, ViewMutRepr, ViewRepr};
use nd_layout::Layout;
use nd_shape_and_slice::{Dimension, StrideList};

/// An n-dimensional array over any storage: it has a shape, and one element for each index inside that shape. This is
/// ndarray's `ArrayBase`.
#[derive(Drop)]
pub struct ArrayBase<S: Data, D: Dimension, T = <D as Dimension>::Strides>
where
    T: StrideList,
{
    pub(crate) storage: S,
    pub(crate) layout: Layout<D, T>,
    ghost inside: { (i : List ℕ) → IsTrue (in_box (D.lengths layout.dim) i) → IsTrue (names_place (S.stored storage) (place_of layout.offset (T.strides_of layout.strides) i)) },
    ghost separated: { IsTrue S.exclusive → 0 < size_of (D.lengths layout.dim) → IsSeparated (D.lengths layout.dim) (T.strides_of layout.strides) },
}

impl<S: Data + Copy, D: Dimension, T: StrideList> Copy for ArrayBase<S, D, T> {}

/// An array that owns its elements. This is ndarray's `Array`.
pub type Array<A, D> = ArrayBase<OwnedRepr<A>, D>;

/// A read-only view of an array. This is ndarray's `ArrayView`.
pub type ArrayView<'a, A, D> = ArrayBase<ViewRepr<'a, A>, D>;

/// A view of an array that can be read and written. This is ndarray's `ArrayViewMut`.
pub type ArrayViewMut<'a, A, D> = ArrayBase<ViewMutRepr<'a, A>, D>;
