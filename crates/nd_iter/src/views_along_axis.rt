//! Iteration over the views at each coordinate of an axis.

ghost use Rattle.std.specs.Prelude.{◌≡◌, ◌<◌, ⊤, length, slice_index, IfSome};
ghost use Rattle.std.specs.Iterator.{YieldsFirstBy, YieldsLastBy, item_count, at_most, UpTo};
ghost use Rattle.std.specs.Iterator.SizeHint.{IsWithinCount};
ghost use Rattle.nd_array_core.specs.ArrayMeaning.{meaning_of, shape_of};
ghost use Rattle.nd_iter.specs.IteratedElements.{along_axis, at_coordinate, listing, IsExactly};

use nd_array_core::{ArrayBase, ArrayView, Data};
use nd_shape_and_slice::{Axis, Dimension, Ix2, RemoveAxis};
use std::alloc::AllocError;
use std::iter::FusedIterator;
use std::marker::{Model, PhantomData};

/// An iterator over the views at each coordinate of an axis. For proofs it is the list of the shapes and elements of
/// the views that are left. This is ndarray's `AxisIter`.
#[derive(Drop)]
pub struct AxisIter<'a, A, S: Data<Elem = A>, D: RemoveAxis> {
    array: &'a ArrayBase<S, D>,
    axis: usize,
    front: usize,
    back: usize,
    of: PhantomData<&'a A>,
}

impl<'a, A, S: Data<Elem = A>, D: RemoveAxis> Model for AxisIter<'a, A, S, D> {
    ghost use Rattle.std.specs.Prelude.{ℕ, List};
    ghost use Rattle.nd_array_core.specs.ArrayMeaning.{meaning_of, shape_of};
    ghost use Rattle.nd_iter.specs.IteratedElements.{at_coordinates, CanGoAlong};

    ghost Value = { List (List ℕ × List A) };

    ghost view = { λ it. at_coordinates (meaning_of it.array.now) it.axis it.front it.back };

    ghost invariant = { λ it. CanGoAlong (shape_of it.array.now) it.axis it.front it.back };
}

/// Returns the view at the coordinate `index` of `axis`, without this axis.
fn view_at<'a, A, S: Data<Elem = A>, D: RemoveAxis>(
    array: &'a ArrayBase<S, D>,
    axis: usize,
    index: usize,
) -> ArrayView<'a, A, D::Smaller>
    requires on { axis < length (shape_of array.now) }
    requires within { index < slice_index (shape_of array.now) axis }
    ensures { listing (meaning_of result) ≡ listing (at_coordinate (meaning_of array.now) axis index) }
{
    array.index_axis(Axis(axis), index)
}

impl<'a, A, S: Data<Elem = A>, D: RemoveAxis> Iterator for AxisIter<'a, A, S, D> {
    type Item = ArrayView<'a, A, D::Smaller>;

    ghost next_gives = { YieldsFirstBy (λ item. listing (meaning_of item)) (λ rest. rest) };

    ghost remaining = { item_count (λ rest. rest) };

    #[tactic(auto, using(crate::proofs::ListEndsTaken::first_given, crate::proofs::ListEndsTaken::none_given))]
    fn next(&mut self) -> Option<ArrayView<'a, A, D::Smaller>> {
        if self.front == self.back {
            return None;
        }
        let index = self.front;
        self.front += 1;
        Some(view_at(self.array, self.axis, index))
    }

    #[tactic(auto, using(crate::proofs::ListEndsTaken::length_given))]
    fn size_hint(&self) -> (usize, Option<usize>)
        ensures lower { IsWithinCount result.0 (at_most (length self.now)) }
        ensures upper { IfSome result.1 (UpTo (at_most (length self.now))) }
        ensures exact { IsExactly result (length self.now) }
    {
        let count = self.back - self.front;
        (count, Some(count))
    }
}

impl<'a, A, S: Data<Elem = A>, D: RemoveAxis> DoubleEndedIterator for AxisIter<'a, A, S, D> {
    ghost next_back_gives = { YieldsLastBy (λ item. listing (meaning_of item)) (λ rest. rest) };

    #[tactic(auto, using(crate::proofs::ListEndsTaken::last_given, crate::proofs::ListEndsTaken::none_given))]
    fn next_back(&mut self) -> Option<ArrayView<'a, A, D::Smaller>> {
        if self.front == self.back {
            return None;
        }
        self.back -= 1;
        Some(view_at(self.array, self.axis, self.back))
    }
}

impl<'a, A, S: Data<Elem = A>, D: RemoveAxis> ExactSizeIterator for AxisIter<'a, A, S, D> {
    #[tactic(auto, using(crate::proofs::ListEndsTaken::length_given))]
    fn len(&self) -> usize {
        self.back - self.front
    }
}

impl<'a, A, S: Data<Elem = A>, D: RemoveAxis> FusedIterator for AxisIter<'a, A, S, D> {}

/// A clone has the same views left, and is independent of its original.
impl<'a, A, S: Data<Elem = A>, D: RemoveAxis> Clone for AxisIter<'a, A, S, D> {
    ghost is_clone = { λ it clone. clone ≡ it };

    ghost is_infallible = { λ _. ⊤ };

    fn clone(&self) -> Result<Self, AllocError> {
        Ok(AxisIter {
            array: self.array,
            axis: self.axis,
            front: self.front,
            back: self.back,
            of: PhantomData,
        })
    }
}

/// Returns an iterator over the views at each coordinate of `axis`, from the first on. They don't have this axis, which
/// must exist. This is ndarray's `axis_iter`.
pub fn axis_iter<A, S: Data<Elem = A>, D: RemoveAxis>(
    array: &ArrayBase<S, D>,
    axis: Axis,
) -> AxisIter<'_, A, S, D>
    requires { axis.0 < length (shape_of array.now) }
    ensures { result ≡ along_axis (meaning_of array.now) axis.0 }
{
    let back = array.len_of(axis);
    AxisIter {
        array,
        axis: axis.0,
        front: 0,
        back,
        of: PhantomData,
    }
}

/// Returns an iterator over the rows of a table, from the first on. This is ndarray's `rows` for an array with two
/// axes.
#[tactic(auto, using(nd_array_core::proofs::AxesOfDimensionTypes::known_axes))]
pub fn rows<A, S: Data<Elem = A>>(table: &ArrayBase<S, Ix2>) -> AxisIter<'_, A, S, Ix2>
    ensures { result ≡ along_axis (meaning_of table.now) 0 }
{
    axis_iter(table, Axis(0))
}
