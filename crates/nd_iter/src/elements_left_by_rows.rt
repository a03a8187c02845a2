//! The elements that are left in an iteration over an array whose rows are contiguous: a slice at either end, and
//! between them a range of ranks (positions in row-major order).

ghost use Rattle.std.specs.Prelude.{◌≡◌, IsTrue, length};
ghost use Rattle.std.specs.Iterator.{YieldsFirstRef, YieldsLastRef};
ghost use Rattle.nd_array_core.specs.ConcatenationAndSplit.{row_major_elements};
ghost use Rattle.nd_array_core.specs.ArrayMeaning.{meaning_of};
ghost use Rattle.nd_array_core.specs.along.LanesOfLastAxis.{RowsLieSideBySide};
ghost use Rattle.nd_iter.specs.ElementsLeftInIteration.{left_by_rows, AreRowsOf};

use crate::row_major_rank::{row_after, row_ahead};
use nd_array_core::laws::elements_by_rank;
use nd_array_core::{ArrayBase, Data};
use nd_shape_and_slice::Dimension;

/// The elements that are left, in this order: those of the slice `ahead`, those of the ranks from `front` up to `back`,
/// and those of the slice `after`.
#[derive(Drop)]
pub(crate) struct RowEnds<'a, A> {
    pub ahead: &'a [A],
    pub front: usize,
    pub back: usize,
    pub after: &'a [A],
}

/// Returns whether each row of `array` is contiguous.
pub(crate) fn are_side_by_side<S: Data, D: Dimension>(array: &ArrayBase<S, D>) -> bool
    ensures { IsTrue result → RowsLieSideBySide array.now }
{
    let strides = array.strides();
    let axes = strides.len();
    axes > 0 && strides[axes - 1] == 1
}

impl<'a, A> RowEnds<'a, A> {
    /// Returns the state in which all elements of `array` are left.
    pub fn of<S: Data<Elem = A>, D: Dimension>(array: &'a ArrayBase<S, D>) -> Self
        ensures rows { AreRowsOf (meaning_of array.now) result }
        ensures all { left_by_rows (meaning_of array.now) result ≡ row_major_elements (meaning_of array.now) }
    {
        elements_by_rank(array);
        RowEnds {
            ahead: &[],
            front: 0,
            back: array.len(),
            after: &[],
        }
    }

    /// Returns a copy of the state, with the same slices.
    pub fn again(&self) -> Self
        ensures { result ≡ self.now }
    {
        RowEnds {
            ahead: self.ahead,
            front: self.front,
            back: self.back,
            after: self.after,
        }
    }

    /// Returns the number of elements that are left.
    pub fn count<S: Data<Elem = A>, D: Dimension>(&self, array: &ArrayBase<S, D>) -> usize
        requires { AreRowsOf (meaning_of array.now) self.now }
        ensures { result ≡ length (left_by_rows (meaning_of array.now) self.now) }
    {
        elements_by_rank(array);
        let _all = array.len();
        self.ahead.len() + (self.back - self.front) + self.after.len()
    }

    /// If the slice `ahead` is empty and ranks are left, sets it to what is left of the row of the first rank.
    #[inline]
    fn fill_ahead<S: Data<Elem = A>, D: Dimension>(&mut self, array: &'a ArrayBase<S, D>)
        requires side_by_side { RowsLieSideBySide array.now }
        requires rows { AreRowsOf (meaning_of array.now) self.old }
        ensures rows { AreRowsOf (meaning_of array.now) self.new }
        ensures same { left_by_rows (meaning_of array.now) self.new ≡ left_by_rows (meaning_of array.now) self.old }
        ensures filled { length self.new.ahead.now ≡ 0 → self.new.front ≡ self.new.back }
    {
        if self.ahead.is_empty() && self.front < self.back {
            let row = row_ahead(array, self.front, self.back);
            self.front += row.len();
            self.ahead = row;
        }
    }

    /// If the slice `after` is empty and ranks are left, sets it to what is left of the row of the last rank.
    #[inline]
    fn fill_after<S: Data<Elem = A>, D: Dimension>(&mut self, array: &'a ArrayBase<S, D>)
        requires side_by_side { RowsLieSideBySide array.now }
        requires rows { AreRowsOf (meaning_of array.now) self.old }
        ensures rows { AreRowsOf (meaning_of array.now) self.new }
        ensures same { left_by_rows (meaning_of array.now) self.new ≡ left_by_rows (meaning_of array.now) self.old }
        ensures filled { length self.new.after.now ≡ 0 → self.new.front ≡ self.new.back }
    {
        if self.after.is_empty() && self.front < self.back {
            let row = row_after(array, self.front, self.back);
            self.back -= row.len();
            self.after = row;
        }
    }

    /// Takes the first element that is left and returns it.
    #[inline]
    pub fn first<S: Data<Elem = A>, D: Dimension>(
        &mut self,
        array: &'a ArrayBase<S, D>,
    ) -> Option<&'a A>
        requires side_by_side { RowsLieSideBySide array.now }
        requires rows { AreRowsOf (meaning_of array.now) self.old }
        ensures first { YieldsFirstRef (left_by_rows (meaning_of array.now)) self.old result self.new }
        ensures rows { AreRowsOf (meaning_of array.now) self.new }
    {
        self.fill_ahead(array);
        if let Some((element, rest)) = self.ahead.split_first() {
            self.ahead = rest;
            return Some(element);
        }
        if let Some((element, rest)) = self.after.split_first() {
            self.after = rest;
            return Some(element);
        }
        None
    }

    /// Takes the last element that is left and returns it.
    #[inline]
    pub fn last<S: Data<Elem = A>, D: Dimension>(
        &mut self,
        array: &'a ArrayBase<S, D>,
    ) -> Option<&'a A>
        requires side_by_side { RowsLieSideBySide array.now }
        requires rows { AreRowsOf (meaning_of array.now) self.old }
        ensures last { YieldsLastRef (left_by_rows (meaning_of array.now)) self.old result self.new }
        ensures rows { AreRowsOf (meaning_of array.now) self.new }
    {
        self.fill_after(array);
        if let Some((element, rest)) = self.after.split_last() {
            self.after = rest;
            return Some(element);
        }
        if let Some((element, rest)) = self.ahead.split_last() {
            self.ahead = rest;
            return Some(element);
        }
        None
    }
}
