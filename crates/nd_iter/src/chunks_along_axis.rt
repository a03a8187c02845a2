//! Iteration over the chunks of an axis, each of which has the same number of coordinates except perhaps the last.

ghost use Rattle.std.specs.Prelude.{◌≡◌, ◌<◌, ◌≤◌, ◌^◌, ⊤, length, slice_index, IfSome};
ghost use Rattle.std.specs.Iterator.{YieldsFirstBy, YieldsLastBy, item_count, at_most, UpTo};
ghost use Rattle.std.specs.Iterator.SizeHint.{IsWithinCount};
ghost use Rattle.nd_array_core.specs.ArrayMeaning.{meaning_of, shape_of};
ghost use Rattle.nd_iter.specs.ChunksAlongAxis.{chunk_at, chunk_count, chunks_along, stretch_of};
ghost use Rattle.nd_iter.specs.IteratedElements.{listing, IsExactly};

use nd_array_core::{ArrayBase, ArrayView, Data};
use nd_shape_and_slice::{Axis, Dimension, Slice};
use std::alloc::AllocError;
use std::iter::FusedIterator;
use std::marker::{Model, PhantomData};

/// An iterator over the chunks of an axis. For proofs it is the list of the shapes and elements of the chunks that are
/// left. This is ndarray's `AxisChunksIter`.
#[derive(Drop)]
pub struct AxisChunksIter<'a, A, S: Data<Elem = A>, D: Dimension> {
    array: &'a ArrayBase<S, D>,
    axis: usize,
    size: usize,
    // The chunks with the numbers from `front` up to `back` (excluded) are left.
    front: usize,
    back: usize,
    of: PhantomData<&'a A>,
}

impl<'a, A, S: Data<Elem = A>, D: Dimension> Model for AxisChunksIter<'a, A, S, D> {
    ghost use Rattle.std.specs.Prelude.{ℕ, List};
    ghost use Rattle.nd_array_core.specs.ArrayMeaning.{meaning_of, shape_of};
    ghost use Rattle.nd_iter.specs.ChunksAlongAxis.{chunks_left, AreChunks};

    ghost Value = { List (List ℕ × List A) };

    ghost view = { λ it. chunks_left (meaning_of it.array.now) it.axis it.size it.front it.back };

    ghost invariant = { λ it. AreChunks (shape_of it.array.now) it.axis it.size it.front it.back };
}

/// Returns the view of the coordinates of `axis` from `from` up to `to`, without `to`.
#[tactic(auto, using(std::proofs::lemmas::Bool::Decides::nat_tests))]
fn stretch<'a, A, S: Data<Elem = A>, D: Dimension>(
    array: &'a ArrayBase<S, D>,
    axis: usize,
    from: usize,
    to: usize,
) -> ArrayView<'a, A, D>
    requires on { axis < length (shape_of array.now) }
    requires ahead { from ≤ to }
    requires within { to ≤ slice_index (shape_of array.now) axis }
    ensures { listing (meaning_of result) ≡ listing (stretch_of (meaning_of array.now) axis from to) }
{
    let _count = array.len_of(Axis(axis));
    array.slice_axis(Axis(axis), Slice::between(from, to))
}

/// Returns the chunk with the number `number`, counted from 0.
#[tactic(auto, using(crate::proofs::ChunksBegin::chunk_begins))]
fn numbered<'a, A, S: Data<Elem = A>, D: Dimension>(
    array: &'a ArrayBase<S, D>,
    axis: usize,
    size: usize,
    number: usize,
) -> ArrayView<'a, A, D>
    requires on { axis < length (shape_of array.now) }
    requires some { 0 < size }
    requires within { number < chunk_count (slice_index (shape_of array.now) axis) size }
    ensures { listing (meaning_of result) ≡ listing (chunk_at (meaning_of array.now) axis size number) }
{
    let count = array.len_of(Axis(axis));
    let from = number * size;
    let to = from + size.min(count - from);
    stretch(array, axis, from, to)
}

impl<'a, A, S: Data<Elem = A>, D: Dimension> Iterator for AxisChunksIter<'a, A, S, D> {
    type Item = ArrayView<'a, A, D>;

    ghost next_gives = { YieldsFirstBy (λ item. listing (meaning_of item)) (λ rest. rest) };

    ghost remaining = { item_count (λ rest. rest) };

    #[tactic(auto, using(crate::proofs::ListEndsTaken::first_given, crate::proofs::ListEndsTaken::none_given))]
    fn next(&mut self) -> Option<ArrayView<'a, A, D>> {
        if self.front == self.back {
            return None;
        }
        let number = self.front;
        self.front += 1;
        Some(numbered(self.array, self.axis, self.size, number))
    }

    #[tactic(auto, using(crate::proofs::ListEndsTaken::length_given))]
    fn size_hint(&self) -> (usize, Option<usize>)
        ensures lower { IsWithinCount result.0 (at_most (length self.now)) }
        ensures upper { IfSome result.1 (UpTo (at_most (length self.now))) }
        ensures exact { IsExactly result (length self.now) }
    {
        let count = self.back - self.front;
        (count, Some(count))
    }
}

impl<'a, A, S: Data<Elem = A>, D: Dimension> DoubleEndedIterator for AxisChunksIter<'a, A, S, D> {
    ghost next_back_gives = { YieldsLastBy (λ item. listing (meaning_of item)) (λ rest. rest) };

    #[tactic(auto, using(crate::proofs::ListEndsTaken::last_given, crate::proofs::ListEndsTaken::none_given))]
    fn next_back(&mut self) -> Option<ArrayView<'a, A, D>> {
        if self.front == self.back {
            return None;
        }
        self.back -= 1;
        Some(numbered(self.array, self.axis, self.size, self.back))
    }
}

impl<'a, A, S: Data<Elem = A>, D: Dimension> ExactSizeIterator for AxisChunksIter<'a, A, S, D> {
    #[tactic(auto, using(crate::proofs::ListEndsTaken::length_given))]
    fn len(&self) -> usize {
        self.back - self.front
    }
}

impl<'a, A, S: Data<Elem = A>, D: Dimension> FusedIterator for AxisChunksIter<'a, A, S, D> {}

/// A clone has the same chunks left, and is independent of its original.
impl<'a, A, S: Data<Elem = A>, D: Dimension> Clone for AxisChunksIter<'a, A, S, D> {
    ghost is_clone = { λ it clone. clone ≡ it };

    ghost is_infallible = { λ _. ⊤ };

    fn clone(&self) -> Result<Self, AllocError> {
        Ok(AxisChunksIter {
            array: self.array,
            axis: self.axis,
            size: self.size,
            front: self.front,
            back: self.back,
            of: PhantomData,
        })
    }
}

/// Returns the number of chunks of `size` coordinates (or fewer, in the last one) that an axis of the length `len` has.
#[tactic(auto, using(std::proofs::lemmas::Bool::Decides::nat_tests))]
fn count_of(len: usize, size: usize) -> usize
    requires size { 0 < size }
    requires short { len < 2 ^ 63 }
    ensures { result ≡ chunk_count len size }
{
    if len < 1 {
        return 0;
    }
    (len - 1) / size + 1
}

/// Returns an iterator over the views of `size` coordinates of `axis` each, from the first on. The last view has the
/// coordinates that are left. The axis must exist, and `size` must not be 0. This is ndarray's `axis_chunks_iter`.
pub fn axis_chunks_iter<A, S: Data<Elem = A>, D: Dimension>(
    array: &ArrayBase<S, D>,
    axis: Axis,
    size: usize,
) -> AxisChunksIter<'_, A, S, D>
    requires axis { axis.0 < length (shape_of array.now) }
    requires size { 0 < size }
    ensures { result ≡ chunks_along (meaning_of array.now) axis.0 size }
{
    let back = count_of(array.len_of(axis), size);
    AxisChunksIter {
        array,
        axis: axis.0,
        size,
        front: 0,
        back,
        of: PhantomData,
    }
}
