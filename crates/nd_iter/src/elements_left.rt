//! The elements of an array that are left in an iteration: a lane at either end, and between them a range of ranks
//! (positions in row-major order).

ghost use Rattle.std.specs.Prelude.{◌≡◌, length};
ghost use Rattle.std.specs.Iterator.{YieldsFirstRef, YieldsLastRef};
ghost use Rattle.nd_array_core.specs.ConcatenationAndSplit.{row_major_elements};
ghost use Rattle.nd_array_core.specs.ArrayMeaning.{meaning_of};
ghost use Rattle.nd_array_core.specs.along.LanesOfLastAxis.{lane_length};
ghost use Rattle.nd_iter.specs.ElementsLeftInIteration.{left_in, AreEndsOf, IsByRanks};

use crate::row_major_rank::{lane_after, lane_ahead, listed_in};
use nd_array_core::laws::elements_by_rank;
use nd_array_core::{ArrayBase, Data, LaneView};
use nd_shape_and_slice::Dimension;

/// The elements that are left, in this order: those of the lane `ahead`, those of the ranks from `front` up to `back`,
/// and those of the lane `after`.
#[derive(Drop)]
pub(crate) struct Ends<'a, A> {
    pub ahead: LaneView<'a, A>,
    pub front: usize,
    pub back: usize,
    pub after: LaneView<'a, A>,
}

impl<'a, A> Ends<'a, A> {
    /// Returns the state in which all elements of `array` are left.
    pub fn of<S: Data<Elem = A>, D: Dimension>(array: &'a ArrayBase<S, D>) -> Self
        ensures ends { AreEndsOf (meaning_of array.now) result }
        ensures ranks { IsByRanks result }
        ensures all { left_in (meaning_of array.now) result ≡ row_major_elements (meaning_of array.now) }
    {
        elements_by_rank(array);
        let ahead = array.no_lane();
        let back = array.len();
        let after = array.no_lane();
        Ends {
            ahead,
            front: 0,
            back,
            after,
        }
    }

    /// Returns a state in which the same elements are left, all of them as ranks, and no lane is fetched yet.
    pub fn again<S: Data<Elem = A>, D: Dimension>(&self, array: &'a ArrayBase<S, D>) -> Self
        requires { AreEndsOf (meaning_of array.now) self.now }
        ensures ends { AreEndsOf (meaning_of array.now) result }
        ensures ranks { IsByRanks result }
        ensures same { left_in (meaning_of array.now) result ≡ left_in (meaning_of array.now) self.now }
    {
        elements_by_rank(array);
        let _all = array.len();
        let ahead = array.no_lane();
        let after = array.no_lane();
        Ends {
            ahead,
            front: self.front - self.ahead.len(),
            back: self.back + self.after.len(),
            after,
        }
    }

    /// Returns the number of elements that are left.
    pub fn count<S: Data<Elem = A>, D: Dimension>(&self, array: &ArrayBase<S, D>) -> usize
        requires { AreEndsOf (meaning_of array.now) self.now }
        ensures { result ≡ length (left_in (meaning_of array.now) self.now) }
    {
        elements_by_rank(array);
        let _all = array.len();
        self.back + self.after.len() - (self.front - self.ahead.len())
    }

    /// Takes the first element that is left and returns it, where all elements of the array are contiguous, and no lane
    /// is fetched.
    #[inline]
    pub fn first_in<S: Data<Elem = A>, D: Dimension>(
        &mut self,
        array: &'a ArrayBase<S, D>,
        all: &'a [A],
    ) -> Option<&'a A>
        requires ends { AreEndsOf (meaning_of array.now) self.old }
        requires ranks { IsByRanks self.old }
        requires all { all.now ≡ row_major_elements (meaning_of array.now) }
        ensures first { YieldsFirstRef (left_in (meaning_of array.now)) self.old result self.new }
        ensures ends { AreEndsOf (meaning_of array.now) self.new }
        ensures ranks { IsByRanks self.new }
    {
        if self.front == self.back {
            return None;
        }
        let rank = self.front;
        self.front += 1;
        Some(listed_in(array, all, rank))
    }

    /// Takes the last element that is left and returns it, where all elements of the array are contiguous, and no lane
    /// is fetched.
    #[inline]
    pub fn last_in<S: Data<Elem = A>, D: Dimension>(
        &mut self,
        array: &'a ArrayBase<S, D>,
        all: &'a [A],
    ) -> Option<&'a A>
        requires ends { AreEndsOf (meaning_of array.now) self.old }
        requires ranks { IsByRanks self.old }
        requires all { all.now ≡ row_major_elements (meaning_of array.now) }
        ensures last { YieldsLastRef (left_in (meaning_of array.now)) self.old result self.new }
        ensures ends { AreEndsOf (meaning_of array.now) self.new }
        ensures ranks { IsByRanks self.new }
    {
        if self.front == self.back {
            return None;
        }
        self.back -= 1;
        Some(listed_in(array, all, self.back))
    }

    /// If the lane `ahead` is empty and ranks are left, fetches the lane of the first rank into `ahead`.
    #[inline]
    fn fill_ahead<S: Data<Elem = A>, D: Dimension>(&mut self, array: &'a ArrayBase<S, D>)
        requires { AreEndsOf (meaning_of array.now) self.old }
        ensures ends { AreEndsOf (meaning_of array.now) self.new }
        ensures same { left_in (meaning_of array.now) self.new ≡ left_in (meaning_of array.now) self.old }
        ensures filled { lane_length self.new.ahead ≡ 0 → self.new.front ≡ self.new.back }
    {
        if self.ahead.len() == 0 && self.front < self.back {
            let lane = lane_ahead(array, self.front, self.back);
            self.front += lane.len();
            self.ahead = lane;
        }
    }

    /// If the lane `after` is empty and ranks are left, fetches the lane of the last rank into `after`.
    #[inline]
    fn fill_after<S: Data<Elem = A>, D: Dimension>(&mut self, array: &'a ArrayBase<S, D>)
        requires { AreEndsOf (meaning_of array.now) self.old }
        ensures ends { AreEndsOf (meaning_of array.now) self.new }
        ensures same { left_in (meaning_of array.now) self.new ≡ left_in (meaning_of array.now) self.old }
        ensures filled { lane_length self.new.after ≡ 0 → self.new.front ≡ self.new.back }
    {
        if self.after.len() == 0 && self.front < self.back {
            let lane = lane_after(array, self.front, self.back);
            self.back -= lane.len();
            self.after = lane;
        }
    }

    /// Takes the first element that is left and returns it.
    #[inline]
    pub fn first<S: Data<Elem = A>, D: Dimension>(
        &mut self,
        array: &'a ArrayBase<S, D>,
    ) -> Option<&'a A>
        requires { AreEndsOf (meaning_of array.now) self.old }
        ensures first { YieldsFirstRef (left_in (meaning_of array.now)) self.old result self.new }
        ensures ends { AreEndsOf (meaning_of array.now) self.new }
    {
        self.fill_ahead(array);
        if self.ahead.len() > 0 {
            return Some(self.ahead.take_first());
        }
        if self.after.len() > 0 {
            let _all = array.len();
            self.front += 1;
            self.back += 1;
            return Some(self.after.take_first());
        }
        None
    }

    /// Takes the last element that is left and returns it.
    #[inline]
    pub fn last<S: Data<Elem = A>, D: Dimension>(
        &mut self,
        array: &'a ArrayBase<S, D>,
    ) -> Option<&'a A>
        requires { AreEndsOf (meaning_of array.now) self.old }
        ensures last { YieldsLastRef (left_in (meaning_of array.now)) self.old result self.new }
        ensures ends { AreEndsOf (meaning_of array.now) self.new }
    {
        self.fill_after(array);
        if self.after.len() > 0 {
            return Some(self.after.take_last());
        }
        if self.ahead.len() > 0 {
            self.front -= 1;
            self.back -= 1;
            return Some(self.ahead.take_last());
        }
        None
    }
}
