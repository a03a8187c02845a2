//! Regions that are lent to a closure for the length of a call.
ghost use Rattle.std.specs.Prelude.{◌≡◌, ℕ, Bool, length, IsSome};
ghost use Rattle.nd_region.specs.RegionPlaces.{names};
ghost use Rattle.nd_region.specs.Region.{HasPlaces, IsAsLong, borrow_of, region_stored, with_swapped, SwappedBetween};
ghost use Rattle.nd_region.specs.ScopedRegionCalls.{TakesWhole, GivesWholeBack, IsWholeReturned, TakesPart, GivesPartBack, IsPartReturned, TakesEither, GivesEitherBack, HasEither, TakesEitherApart, GivesBothBack, AreBothReturned, TakesParts, GivesPartsBack, ArePartsReturned};

use crate::divided_mutable_borrow::Region;
use std::marker::PhantomData;
use std::mem;

/// Calls `f` with the region of all elements of `slice`, and returns what `f` returns beside the region. Afterwards the
/// slice holds what the region holds that `f` gives back. The type of `f` demands a region, so a closure that gives
/// none back doesn't compile; that it gives back the region that it was called with is the condition `returns`.
pub fn with_region<A, R, F: FnOnce(Region<'_, A>) -> (Region<'_, A>, R)>(slice: &mut [A], f: F) -> R
    requires callable { TakesWhole (F.pre f) slice.old }
    requires returns { GivesWholeBack (F.post f) slice.old }
    ensures { IsWholeReturned (F.post f) slice.old slice.new result }
{
    let (back, answer) = f(Region {
        ptr: slice.as_mut_ptr(),
        len: slice.len(),
        mark: PhantomData,
    });
    back.end();
    answer
}

impl<'a, A> Region<'a, A> {
    /// Divides the region in two, the places that the layout of `offset`, `lengths` and `strides` names and the other
    /// places, and calls `f` with both parts. Afterwards each place of this region holds what it holds in the part that
    /// `f` gives back. The type of `f` demands both parts back; that they are those that it was called with is the
    /// condition `returns`. Returns what `f` returns beside them.
    pub fn split_with<
        R,
        F: for<'b> FnOnce(Region<'b, A>, Region<'b, A>) -> (Region<'b, A>, Region<'b, A>, R),
    >(&mut self, offset: usize, lengths: &[usize], strides: &[isize], f: F) -> R
        requires as_many { length lengths.now ≡ length strides.now }
        requires within { HasPlaces self.old offset lengths.now strides.now }
        requires callable { TakesParts (F.pre f) (names offset lengths.now strides.now) self.old }
        requires returns { GivesPartsBack (F.post f) (names offset lengths.now strides.now) self.old }
        ensures { ArePartsReturned (F.post f) (names offset lengths.now strides.now) self.old self.new result }
    {
        self.split_where(offset, lengths, strides, 0, &[], &[], f)
    }

    /// Divides the region in two, the places that pass the test `chosen` and the other places, and calls `f` with both
    /// parts. Afterwards each place of this region holds what it holds in the part that `f` gives back. Returns what
    /// `f` returns beside the parts. The test is ghost, and says which part owns which place. A caller makes it from
    /// the layouts; the function's body reads neither.
    fn split_where<
        R,
        F: for<'b> FnOnce(Region<'b, A>, Region<'b, A>) -> (Region<'b, A>, Region<'b, A>, R),
    >(
        &mut self,
        _offset: usize,
        _lengths: &[usize],
        _strides: &[isize],
        _from: usize,
        _sizes: &[usize],
        _steps: &[isize],
        f: F,
    ) -> R
        ghost chosen: { ℕ → Bool }
        requires callable { TakesParts (F.pre f) chosen self.old }
        requires returns { GivesPartsBack (F.post f) chosen self.old }
        ensures { ArePartsReturned (F.post f) chosen self.old self.new result }
    {
        let ptr = self.ptr;
        let len = self.len;
        let named = Region {
            ptr,
            len,
            mark: PhantomData,
        };
        let others = Region {
            ptr,
            len,
            mark: PhantomData,
        };
        let (named, others, answer) = f(named, others);
        named.end();
        others.end();
        answer
    }

    /// Calls `f` with the region of the places that the layout of `offset`, `lengths` and `strides` names, and returns
    /// what `f` returns beside the region. Afterwards each of these places holds what `f` left there, and every other
    /// place what it held before.
    pub fn with_part<R, F: for<'b> FnOnce(Region<'b, A>) -> (Region<'b, A>, R)>(
        &mut self,
        offset: usize,
        lengths: &[usize],
        strides: &[isize],
        f: F,
    ) -> R
        requires as_many { length lengths.now ≡ length strides.now }
        requires within { HasPlaces self.old offset lengths.now strides.now }
        requires callable { TakesPart (F.pre f) (names offset lengths.now strides.now) self.old }
        requires returns { GivesPartBack (F.post f) (names offset lengths.now strides.now) self.old }
        ensures part { IsPartReturned (F.post f) (names offset lengths.now strides.now) self.old self.new result }
        ensures same { borrow_of self.new ≡ borrow_of self.old }
        ensures long { IsAsLong self.old self.new }
    {
        self.split_with(
            offset,
            lengths,
            strides,
            |named, others|
                requires { F.pre f named }
                ensures { F.post f named.entry (result.0, result.2) × (result.1 ≡ others.entry) }
            {
                let (named, answer) = f(named);
                (named, others, answer)
            },
        )
    }

    /// Divides the region in two and calls `f` with both parts, as `split_with` does. The first part has the places
    /// that the layout of `offset`, `lengths` and `strides` names, or that of `from`, `sizes` and `steps`, or both.
    fn split_either<
        R,
        F: for<'b> FnOnce(Region<'b, A>, Region<'b, A>) -> (Region<'b, A>, Region<'b, A>, R),
    >(
        &mut self,
        offset: usize,
        lengths: &[usize],
        strides: &[isize],
        from: usize,
        sizes: &[usize],
        steps: &[isize],
        f: F,
    ) -> R
        requires callable { TakesEitherApart (F.pre f) offset lengths.now strides.now from sizes.now steps.now self.old }
        requires returns { GivesBothBack (F.post f) offset lengths.now strides.now from sizes.now steps.now self.old }
        ensures { AreBothReturned (F.post f) offset lengths.now strides.now from sizes.now steps.now self.old self.new result }
    {
        self.split_where(offset, lengths, strides, from, sizes, steps, f)
    }

    /// Calls `f` with the region of the places that the layout of `offset`, `lengths` and `strides` names, or that of
    /// `from`, `sizes` and `steps`, or both, and returns what `f` returns beside the region. Afterwards each of these
    /// places holds what `f` left there, and every other place what it held before.
    pub fn with_either<R, F: for<'b> FnOnce(Region<'b, A>) -> (Region<'b, A>, R)>(
        &mut self,
        offset: usize,
        lengths: &[usize],
        strides: &[isize],
        from: usize,
        sizes: &[usize],
        steps: &[isize],
        f: F,
    ) -> R
        requires callable { TakesEither (F.pre f) offset lengths.now strides.now from sizes.now steps.now self.old }
        requires returns { GivesEitherBack (F.post f) offset lengths.now strides.now from sizes.now steps.now self.old }
        ensures part { HasEither (F.post f) offset lengths.now strides.now from sizes.now steps.now self.old self.new result }
        ensures same { borrow_of self.new ≡ borrow_of self.old }
        ensures long { IsAsLong self.old self.new }
    {
        self.split_either(
            offset,
            lengths,
            strides,
            from,
            sizes,
            steps,
            |named, others|
                requires { F.pre f named }
                ensures { F.post f named.entry (result.0, result.2) × (result.1 ≡ others.entry) }
            {
                let (either, answer) = f(named);
                (either, others, answer)
            },
        )
    }

    /// Exchanges the elements at the places `p` and `q`.
    pub fn swap(&mut self, p: usize, q: usize)
        requires { IsSome (region_stored self.old p) × IsSome (region_stored self.old q) }
        ensures { self.new ≡ with_swapped self.old p q }
    {
        if p != q {
            self.split_with(
                p,
                &[],
                &[],
                |one, others|
                    requires { IsSome (region_stored one p) × IsSome (region_stored others q) }
                    ensures { SwappedBetween one.entry p others.entry q result }
                { swap_between(one, p, others, q) },
            );
        }
    }
}

fn swap_between<'b, A>(
    mut one: Region<'b, A>,
    p: usize,
    mut other: Region<'b, A>,
    q: usize,
) -> (Region<'b, A>, Region<'b, A>, ())
    requires { IsSome (region_stored one p) × IsSome (region_stored other q) }
    ensures { SwappedBetween one.entry p other.entry q result }
{
    mem::swap(one.get_mut(p), other.get_mut(q));
    (one, other, ())
}
