//! Iteration over the elements in row-major order.

ghost use Rattle.std.specs.Prelude.{◌≡◌, ⊤, length, IfSome};
ghost use Rattle.std.specs.Iterator.{YieldsFirstRef, YieldsLastRef, item_count, at_most, UpTo};
ghost use Rattle.std.specs.Iterator.SizeHint.{IsWithinCount};
ghost use Rattle.nd_array_core.specs.ArrayMeaning.{meaning_of};
ghost use Rattle.nd_array_core.specs.ConcatenationAndSplit.{row_major_elements};
ghost use Rattle.nd_iter.specs.IteratedElements.{IsExactly};

use crate::elements_left::Ends;
use crate::elements_left_by_rows::{RowEnds, are_side_by_side};
use nd_array_core::{ArrayBase, Data};
use nd_shape_and_slice::Dimension;
use std::alloc::AllocError;
use std::iter::FusedIterator;
use std::marker::Model;

/// An iterator over the elements. For proofs it is the list of the elements that are left. This is ndarray's `Iter`.
#[derive(Drop)]
pub struct Iter<'a, A, S: Data<Elem = A>, D: Dimension> {
    array: &'a ArrayBase<S, D>,
    // Whether the elements of each row are contiguous, but not all elements are. The elements that are left are then in
    // `rows`, and otherwise in `ends`.
    by_rows: bool,
    rows: RowEnds<'a, A>,
    // All elements, if they are contiguous in row-major order. No lane is then fetched.
    run: Option<&'a [A]>,
    ends: Ends<'a, A>,
}

impl<'a, A, S: Data<Elem = A>, D: Dimension> Model for Iter<'a, A, S, D> {
    ghost use Rattle.std.specs.Prelude.{◌≡◌, List, IfSome, IsTrue, if◌then◌else◌};
    ghost use Rattle.nd_array_core.specs.ConcatenationAndSplit.{row_major_elements};
    ghost use Rattle.nd_array_core.specs.ArrayMeaning.{meaning_of};
    ghost use Rattle.nd_array_core.specs.along.LanesOfLastAxis.{RowsLieSideBySide};
    ghost use Rattle.nd_iter.specs.ElementsLeftInIteration.{left_in, left_by_rows, AreEndsOf, AreRowsOf, IsByRanks};

    ghost Value = { List A };

    ghost view = { λ it. if it.by_rows then left_by_rows (meaning_of it.array.now) it.rows else left_in (meaning_of it.array.now) it.ends };

    ghost invariant = { λ it. AreEndsOf (meaning_of it.array.now) it.ends
        × AreRowsOf (meaning_of it.array.now) it.rows
        × (IsTrue it.by_rows → RowsLieSideBySide it.array.now)
        × IfSome it.run (λ run. (run.now ≡ row_major_elements (meaning_of it.array.now)) × IsByRanks it.ends) };
}

impl<'a, A, S: Data<Elem = A>, D: Dimension> Iterator for Iter<'a, A, S, D> {
    type Item = &'a A;

    ghost next_gives = { YieldsFirstRef (λ rest. rest) };

    ghost remaining = { item_count (λ rest. rest) };

    #[inline]
    fn next(&mut self) -> Option<&'a A> {
        if self.by_rows {
            return self.rows.first(self.array);
        }
        match self.run {
            Some(all) => self.ends.first_in(self.array, all),
            None => self.ends.first(self.array),
        }
    }

    fn size_hint(&self) -> (usize, Option<usize>)
        ensures lower { IsWithinCount result.0 (at_most (length self.now)) }
        ensures upper { IfSome result.1 (UpTo (at_most (length self.now))) }
        ensures exact { IsExactly result (length self.now) }
    {
        let count = self.count_left();
        (count, Some(count))
    }
}

impl<'a, A, S: Data<Elem = A>, D: Dimension> DoubleEndedIterator for Iter<'a, A, S, D> {
    ghost next_back_gives = { YieldsLastRef (λ rest. rest) };

    #[inline]
    fn next_back(&mut self) -> Option<&'a A> {
        if self.by_rows {
            return self.rows.last(self.array);
        }
        match self.run {
            Some(all) => self.ends.last_in(self.array, all),
            None => self.ends.last(self.array),
        }
    }
}

impl<'a, A, S: Data<Elem = A>, D: Dimension> ExactSizeIterator for Iter<'a, A, S, D> {
    fn len(&self) -> usize {
        self.count_left()
    }
}

impl<'a, A, S: Data<Elem = A>, D: Dimension> FusedIterator for Iter<'a, A, S, D> {}

/// A clone has the same elements left, and is independent of its original.
impl<'a, A, S: Data<Elem = A>, D: Dimension> Clone for Iter<'a, A, S, D> {
    ghost is_clone = { λ it clone. clone ≡ it };

    ghost is_infallible = { λ _. ⊤ };

    fn clone(&self) -> Result<Self, AllocError> {
        Ok(Iter {
            array: self.array,
            by_rows: self.by_rows,
            rows: self.rows.again(),
            run: self.run,
            ends: self.ends.again(self.array),
        })
    }
}

impl<'a, A, S: Data<Elem = A>, D: Dimension> Iter<'a, A, S, D> {
    /// Returns an iterator over all elements of `array`.
    pub(crate) fn over(array: &'a ArrayBase<S, D>) -> Self
        ensures { result ≡ row_major_elements (meaning_of array.now) }
    {
        let run = array.as_slice();
        Iter {
            array,
            by_rows: run.is_none() && are_side_by_side(array),
            rows: RowEnds::of(array),
            run,
            ends: Ends::of(array),
        }
    }

    /// Returns the number of elements that are left.
    fn count_left(&self) -> usize
        ensures { result ≡ length self.now }
    {
        if self.by_rows {
            self.rows.count(self.array)
        } else {
            self.ends.count(self.array)
        }
    }
}
