//! The lanes of an axis, each as a view with one axis.

ghost use Rattle.std.specs.Prelude.{◌≡◌, ◌<◌, ⊤, length, IfSome};
ghost use Rattle.std.specs.Iterator.{YieldsFirstBy, YieldsLastBy, item_count, at_most, UpTo};
ghost use Rattle.std.specs.Iterator.SizeHint.{IsWithinCount};
ghost use Rattle.nd_shape_and_slice.specs.LayoutIndexMaps.{indexed_shape};
ghost use Rattle.nd_shape_and_slice.specs.ShapesAndIndexOrders.{index_at, size_of};
ghost use Rattle.nd_array_core.specs.ArrayMeaning.{meaning_of, shape_of};
ghost use Rattle.nd_iter.specs.AxisLanes.{lanes_along, numbered_lane};
ghost use Rattle.nd_iter.specs.IteratedElements.{listing, IsExactly};

use nd_array_core::laws::shape_is_checked;
use nd_array_core::{ArrayBase, ArrayView1, Data};
use nd_shape_and_slice::{Axis, Dimension, MAX_AXES, RemoveAxis, index_of_rank};
use std::alloc::AllocError;
use std::iter::FusedIterator;
use std::marker::{Model, PhantomData};

/// The lanes of an axis that are left, seen as the list of their shapes and elements. This is ndarray's `LanesIter`.
#[derive(Drop)]
pub struct LanesIter<'a, A, S: Data<Elem = A>, D: RemoveAxis> {
    array: &'a ArrayBase<S, D>,
    axis: usize,
    // The numbers of the lanes that are left.
    front: usize,
    back: usize,
    of: PhantomData<&'a A>,
}

impl<'a, A, S: Data<Elem = A>, D: RemoveAxis> Model for LanesIter<'a, A, S, D> {
    ghost use Rattle.std.specs.Prelude.{ℕ, List};
    ghost use Rattle.nd_array_core.specs.ArrayMeaning.{meaning_of, shape_of};
    ghost use Rattle.nd_iter.specs.AxisLanes.{lanes_left, AreLanes};

    ghost Value = { List (List ℕ × List A) };

    ghost view = { λ it. lanes_left (meaning_of it.array.now) it.axis it.front it.back };

    ghost invariant = { λ it. AreLanes (shape_of it.array.now) it.axis it.front it.back };
}

/// Returns the index of a row-major rank, for lengths given as a dimension.
fn index_in<D: Dimension>(lengths: &D, rank: usize) -> D
    requires { rank < size_of (D.lengths lengths.now) }
    ensures { D.lengths result ≡ index_at (D.lengths lengths.now) rank }
{
    let mut coordinates = [0; MAX_AXES];
    let index = &mut coordinates[..lengths.ndim()];
    index_of_rank(lengths.slice(), rank, index);
    match D::from_lengths(index) {
        Some(index) => index,
        None => unreachable!(),
    }
}

/// Returns the lane of a number.
fn numbered<'a, A, S: Data<Elem = A>, D: RemoveAxis>(
    array: &'a ArrayBase<S, D>,
    axis: usize,
    number: usize,
) -> ArrayView1<'a, A>
    requires on { axis < length (shape_of array.now) }
    requires within { number < size_of (indexed_shape (shape_of array.now) axis) }
    ensures { listing (meaning_of result) ≡ listing (numbered_lane (meaning_of array.now) axis number) }
{
    let others = array.raw_dim().remove_axis(Axis(axis));
    let index = index_in(&others, number);
    array.lane_at(Axis(axis), index).into_view()
}

/// Returns how many lanes an axis has.
fn lane_count<S: Data, D: RemoveAxis>(array: &ArrayBase<S, D>, axis: Axis) -> usize
    requires { axis.0 < length (shape_of array.now) }
    ensures { result ≡ size_of (indexed_shape (shape_of array.now) axis.0) }
{
    shape_is_checked(array);
    let others = array.raw_dim().remove_axis(axis);
    others.size()
}

impl<'a, A, S: Data<Elem = A>, D: RemoveAxis> Iterator for LanesIter<'a, A, S, D> {
    type Item = ArrayView1<'a, A>;

    ghost next_gives = { YieldsFirstBy (λ item. listing (meaning_of item)) (λ rest. rest) };

    ghost remaining = { item_count (λ rest. rest) };

    #[tactic(auto, using(crate::proofs::ListEndsTaken::first_given, crate::proofs::ListEndsTaken::none_given))]
    fn next(&mut self) -> Option<ArrayView1<'a, A>> {
        if self.front == self.back {
            return None;
        }
        let number = self.front;
        self.front += 1;
        Some(numbered(self.array, self.axis, number))
    }

    #[tactic(auto, using(crate::proofs::ListEndsTaken::length_given))]
    fn size_hint(&self) -> (usize, Option<usize>)
        ensures lower { IsWithinCount result.0 (at_most (length self.now)) }
        ensures upper { IfSome result.1 (UpTo (at_most (length self.now))) }
        ensures exact { IsExactly result (length self.now) }
    {
        let count = self.back - self.front;
        (count, Some(count))
    }
}

impl<'a, A, S: Data<Elem = A>, D: RemoveAxis> DoubleEndedIterator for LanesIter<'a, A, S, D> {
    ghost next_back_gives = { YieldsLastBy (λ item. listing (meaning_of item)) (λ rest. rest) };

    #[tactic(auto, using(crate::proofs::ListEndsTaken::last_given, crate::proofs::ListEndsTaken::none_given))]
    fn next_back(&mut self) -> Option<ArrayView1<'a, A>> {
        if self.front == self.back {
            return None;
        }
        self.back -= 1;
        Some(numbered(self.array, self.axis, self.back))
    }
}

impl<'a, A, S: Data<Elem = A>, D: RemoveAxis> ExactSizeIterator for LanesIter<'a, A, S, D> {
    #[tactic(auto, using(crate::proofs::ListEndsTaken::length_given))]
    fn len(&self) -> usize {
        self.back - self.front
    }
}

impl<'a, A, S: Data<Elem = A>, D: RemoveAxis> FusedIterator for LanesIter<'a, A, S, D> {}

/// A clone has the same left, and goes on by itself.
impl<'a, A, S: Data<Elem = A>, D: RemoveAxis> Clone for LanesIter<'a, A, S, D> {
    ghost is_clone = { λ it clone. clone ≡ it };

    ghost is_infallible = { λ _. ⊤ };

    fn clone(&self) -> Result<Self, AllocError> {
        Ok(LanesIter {
            array: self.array,
            axis: self.axis,
            front: self.front,
            back: self.back,
            of: PhantomData,
        })
    }
}

/// Returns the lanes of an axis, each as a view with one axis, in row-major order of the other axes. The axis is there.
/// This is ndarray's `lanes`.
pub fn lanes<A, S: Data<Elem = A>, D: RemoveAxis>(
    array: &ArrayBase<S, D>,
    axis: Axis,
) -> LanesIter<'_, A, S, D>
    requires { axis.0 < length (shape_of array.now) }
    ensures { result ≡ lanes_along (meaning_of array.now) axis.0 }
{
    let back = lane_count(array, axis);
    LanesIter {
        array,
        axis: axis.0,
        front: 0,
        back,
        of: PhantomData,
    }
}
