//! The iterators as methods of arrays: after `use nd_iter::IterExt;` they are called as `a.iter()`.

ghost use Rattle.std.specs.Prelude.{◌≡◌, ◌<◌, ℕ, length};
ghost use Rattle.std.specs.Iterator.{YieldsFirstRef, YieldsLastRef};
ghost use Rattle.std.specs.Iterator.Runs.{YieldsRefsInOrder, YieldsRefsInReverse};
ghost use Rattle.nd_array_core.specs.ArrayMeaning.{meaning_of, shape_of};
ghost use Rattle.nd_array_core.specs.ConcatenationAndSplit.{row_major_elements};
ghost use Rattle.nd_iter.specs.AxisLanes.{lanes_along};
ghost use Rattle.nd_iter.specs.IteratedElements.{along_axis, with_indexes};

use crate::elements::Iter;
use crate::{AxisIter, IndexedIter, LanesIter, axis_iter, indexed_iter, iter, lanes, outer_iter};
use nd_array_core::{ArrayBase, Data};
use nd_shape_and_slice::{Axis, Dimension, IntoPattern, RemoveAxis};

/// Iterators over the elements of an array of any number of axes.
pub trait IterExt<A, S: Data<Elem = A>, D: Dimension> {
    /// Returns an iterator over the elements in row-major order. This is ndarray's `iter`.
    fn iter(&self) -> Iter<'_, A, S, D>;
}

impl<A, S: Data<Elem = A>, D: Dimension> IterExt<A, S, D> for ArrayBase<S, D> {
    fn iter(&self) -> Iter<'_, A, S, D>
        ensures rest { result ≡ row_major_elements (meaning_of self.now) }
        ensures runs { YieldsRefsInOrder (YieldsFirstRef {A = A} (λ rest. rest)) (λ rest. rest) }
        ensures runs_back { YieldsRefsInReverse (YieldsLastRef {A = A} (λ rest. rest)) (λ rest. rest) }
    {
        iter(self)
    }
}

/// Iterators over the elements of an array with their indexes.
pub trait IndexedIterExt<A, S: Data<Elem = A>, D: IntoPattern> {
    /// Returns an iterator over the elements in row-major order, each with its index. By the number of axes, an index
    /// is a number, a tuple or a list of coordinates. This is ndarray's `indexed_iter`.
    fn indexed_iter(&self) -> IndexedIter<'_, A, S, D>;
}

impl<A, S: Data<Elem = A>, D: IntoPattern> IndexedIterExt<A, S, D> for ArrayBase<S, D> {
    fn indexed_iter(&self) -> IndexedIter<'_, A, S, D>
        ensures { result ≡ row_major_elements (with_indexes (meaning_of self.now)) }
    {
        indexed_iter(self)
    }
}

/// Iterators over the parts of an array along an axis.
pub trait AxisIterExt<A, S: Data<Elem = A>, D: RemoveAxis> {
    /// Says that the array has an axis of this number.
    ghost has_axis: { Self → ℕ → Type 0 };

    /// Returns an iterator over the views at each coordinate of `axis`, from the first on. They don't have this axis,
    /// which must exist. This is ndarray's `axis_iter`.
    fn axis_iter(&self, axis: Axis) -> AxisIter<'_, A, S, D>
        requires { has_axis self.now axis.0 };

    /// Returns an iterator over the views at each coordinate of the first axis, which must exist. They don't have this
    /// axis. This is ndarray's `outer_iter`.
    fn outer_iter(&self) -> AxisIter<'_, A, S, D>
        requires { has_axis self.now 0 };

    /// Returns the lanes of an axis, each as a view with one axis, in row-major order of the other axes. The axis is
    /// there. This is ndarray's `lanes`.
    fn lanes(&self, axis: Axis) -> LanesIter<'_, A, S, D>
        requires { has_axis self.now axis.0 };
}

impl<A, S: Data<Elem = A>, D: RemoveAxis> AxisIterExt<A, S, D> for ArrayBase<S, D> {
    ghost has_axis = { λ a axis. axis < length (shape_of a) };

    fn axis_iter(&self, axis: Axis) -> AxisIter<'_, A, S, D>
        requires { axis.0 < length (shape_of self.now) }
        ensures { result ≡ along_axis (meaning_of self.now) axis.0 }
    {
        axis_iter(self, axis)
    }

    fn outer_iter(&self) -> AxisIter<'_, A, S, D>
        requires { 0 < length (shape_of self.now) }
        ensures { result ≡ along_axis (meaning_of self.now) 0 }
    {
        outer_iter(self)
    }

    fn lanes(&self, axis: Axis) -> LanesIter<'_, A, S, D>
        requires { axis.0 < length (shape_of self.now) }
        ensures { result ≡ lanes_along (meaning_of self.now) axis.0 }
    {
        lanes(self, axis)
    }
}
