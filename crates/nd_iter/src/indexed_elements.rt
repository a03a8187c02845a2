//! Iteration over the elements in row-major order, each with its index.

ghost use Rattle.std.specs.Prelude.{◌≡◌, ⊤, length, IfSome};
ghost use Rattle.std.specs.Iterator.{YieldsFirstBy, YieldsLastBy, item_count, at_most, UpTo};
ghost use Rattle.std.specs.Iterator.SizeHint.{IsWithinCount};
ghost use Rattle.nd_array_core.specs.ArrayMeaning.{meaning_of};
ghost use Rattle.nd_array_core.specs.ConcatenationAndSplit.{row_major_elements};
ghost use Rattle.nd_iter.specs.IteratedElements.{with_indexes, IsExactly};

use crate::row_major_rank::{LaneInHand, index_of, listed_at};
use nd_array_core::laws::elements_by_rank;
use nd_array_core::{ArrayBase, Data};
use nd_shape_and_slice::{Dimension, IntoPattern};
use std::alloc::AllocError;
use std::iter::FusedIterator;
use std::marker::Model;

/// An iterator over the elements with their indexes. For proofs it is the list of the elements that are left, each with
/// its index. This is ndarray's `IndexedIter`.
#[derive(Drop)]
pub struct IndexedIter<'a, A, S: Data<Elem = A>, D: IntoPattern> {
    array: &'a ArrayBase<S, D>,
    // The elements with the ranks (positions in row-major order) from `front` up to `back` (excluded) are left.
    front: usize,
    back: usize,
    // The lane of the last element that was taken from the front, and that of the last one that was taken from the
    // back.
    ahead: Option<LaneInHand<'a, A>>,
    after: Option<LaneInHand<'a, A>>,
}

impl<'a, A, S: Data<Elem = A>, D: IntoPattern> Model for IndexedIter<'a, A, S, D> {
    ghost use Rattle.std.specs.Prelude.{ℕ, List};
    ghost use Rattle.nd_array_core.specs.ArrayMeaning.{meaning_of, shape_of};
    ghost use Rattle.nd_iter.specs.ElementsLeftInIteration.{IsInHand};
    ghost use Rattle.nd_iter.specs.IteratedElements.{AreRanks, elements_left, with_indexes};

    ghost Value = { List (List ℕ × A) };

    ghost view = { λ it. elements_left (with_indexes (meaning_of it.array.now)) it.front it.back };

    ghost invariant = { λ it. AreRanks (shape_of it.array.now) it.front it.back
        × IsInHand (meaning_of it.array.now) it.ahead
        × IsInHand (meaning_of it.array.now) it.after };
}

impl<'a, A, S: Data<Elem = A>, D: IntoPattern> Iterator for IndexedIter<'a, A, S, D> {
    type Item = (D::Pattern, &'a A);

    ghost next_gives = { YieldsFirstBy (λ item. (D.pattern_lengths item.0, item.1.now)) (λ rest. rest) };

    ghost remaining = { item_count (λ rest. rest) };

    fn next(&mut self) -> Option<(D::Pattern, &'a A)> {
        if self.front == self.back {
            return None;
        }
        elements_by_rank(self.array);
        let rank = self.front;
        self.front += 1;
        let index = index_of(self.array, rank);
        Some((
            index.into_pattern(),
            listed_at(self.array, &mut self.ahead, rank),
        ))
    }

    fn size_hint(&self) -> (usize, Option<usize>)
        ensures lower { IsWithinCount result.0 (at_most (length self.now)) }
        ensures upper { IfSome result.1 (UpTo (at_most (length self.now))) }
        ensures exact { IsExactly result (length self.now) }
    {
        elements_by_rank(self.array);
        let count = self.back - self.front;
        (count, Some(count))
    }
}

impl<'a, A, S: Data<Elem = A>, D: IntoPattern> DoubleEndedIterator for IndexedIter<'a, A, S, D> {
    ghost next_back_gives = { YieldsLastBy (λ item. (D.pattern_lengths item.0, item.1.now)) (λ rest. rest) };

    fn next_back(&mut self) -> Option<(D::Pattern, &'a A)> {
        if self.front == self.back {
            return None;
        }
        elements_by_rank(self.array);
        self.back -= 1;
        let index = index_of(self.array, self.back);
        Some((
            index.into_pattern(),
            listed_at(self.array, &mut self.after, self.back),
        ))
    }
}

impl<'a, A, S: Data<Elem = A>, D: IntoPattern> ExactSizeIterator for IndexedIter<'a, A, S, D> {
    fn len(&self) -> usize {
        elements_by_rank(self.array);
        self.back - self.front
    }
}

impl<'a, A, S: Data<Elem = A>, D: IntoPattern> FusedIterator for IndexedIter<'a, A, S, D> {}

/// A clone has the same elements left, and is independent of its original.
impl<'a, A, S: Data<Elem = A>, D: IntoPattern> Clone for IndexedIter<'a, A, S, D> {
    ghost is_clone = { λ it clone. clone ≡ it };

    ghost is_infallible = { λ _. ⊤ };

    fn clone(&self) -> Result<Self, AllocError> {
        Ok(IndexedIter {
            array: self.array,
            front: self.front,
            back: self.back,
            ahead: None,
            after: None,
        })
    }
}

/// Returns an iterator over the elements in row-major order, each with its index. By the number of axes, an index is a
/// number, a tuple or a list of coordinates. This is ndarray's `indexed_iter`.
pub fn indexed_iter<A, S: Data<Elem = A>, D: IntoPattern>(
    array: &ArrayBase<S, D>,
) -> IndexedIter<'_, A, S, D>
    ensures { result ≡ row_major_elements (with_indexes (meaning_of array.now)) }
{
    elements_by_rank(array);
    let back = array.len();
    IndexedIter {
        array,
        front: 0,
        back,
        ahead: None,
        after: None,
    }
}
