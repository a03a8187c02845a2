//! Conversions of ranges and numbers into slices and indexes.

ghost use Rattle.std.specs.Prelude.{◌≡◌, ◌<◌, ◌^◌, pos, Some, None, ◌*ℤ◌, FitsSigned};
ghost use Rattle.std.specs.Int.{w64};
ghost use Rattle.std.specs.Range.{range_inclusive_start, range_inclusive_end};
ghost use Rattle.nd_shape_and_slice.specs.SlicesFromRanges.{slice_between, end_after, bound_of, element_of};
ghost use Rattle.nd_shape_and_slice.specs.declared.slice_info.SliceInfoElem.TheVariants.{Index};

use crate::dynamic_dimension::IxDyn;
use crate::slice::Slice;
use crate::slice_info::{SliceArg, SliceInfoElem};
use std::ops::{Range, RangeFrom, RangeFull, RangeInclusive, RangeTo, RangeToInclusive};

impl Slice {
    /// Returns the slice of the coordinates from `from` up to, but not including, `to`, with step 1. ndarray has no
    /// such call; the nearest is its `Slice::from(from..to)`.
    pub fn between(from: usize, to: usize) -> Self
        requires from { from < 2 ^ 63 }
        requires to { to < 2 ^ 63 }
        ensures { result ≡ record { start = pos from; end = Some (pos to); step = pos 1 } }
    {
        Slice::new(from as isize, Some(to as isize), 1)
    }

    /// Returns the slice with its step multiplied by `step`. This is ndarray's `Slice::step_by`.
    pub fn step_by(self, step: isize) -> Self
        requires { FitsSigned w64 (self.step *ℤ step) }
        ensures { result ≡ record { start = self.start; end = self.end; step = self.step *ℤ step } }
    {
        Slice::new(self.start, self.end, self.step * step)
    }
}

/// Returns the end of a slice whose last coordinate is `last`. For -1, the last coordinate of the axis, it is `None`;
/// for `isize::MAX` it is `isize::MIN`, which lies on no axis.
fn end_after(last: isize) -> Option<isize>
    ensures { result ≡ end_after last }
{
    if last == -1 {
        None
    } else if last == isize::MAX {
        Some(isize::MIN)
    } else {
        Some(last + 1)
    }
}

impl From<Slice> for SliceInfoElem {
    ghost from_gives = { λ slice element. element ≡ element_of slice };

    fn from(slice: Slice) -> SliceInfoElem {
        SliceInfoElem::Slice {
            start: slice.start,
            end: slice.end,
            step: slice.step,
        }
    }
}

impl From<isize> for SliceInfoElem {
    ghost from_gives = { λ coordinate element. element ≡ Index coordinate };

    fn from(coordinate: isize) -> SliceInfoElem {
        SliceInfoElem::Index(coordinate)
    }
}

impl From<usize> for SliceInfoElem {
    ghost from_gives = { λ coordinate element. element ≡ Index (bound_of coordinate) };

    fn from(coordinate: usize) -> SliceInfoElem {
        SliceInfoElem::Index(coordinate.cast_signed())
    }
}

impl From<RangeFull> for Slice {
    ghost from_gives = { λ _ slice. slice ≡ slice_between (pos 0) None };

    fn from(_range: RangeFull) -> Slice {
        Slice::new(0, None, 1)
    }
}

impl From<RangeFull> for SliceInfoElem {
    ghost from_gives = { λ _ element. element ≡ element_of (slice_between (pos 0) None) };

    fn from(range: RangeFull) -> SliceInfoElem {
        Slice::from(range).into()
    }
}

impl From<Range<isize>> for Slice {
    ghost from_gives = { λ range slice. slice ≡ slice_between range.start (Some range.end) };

    fn from(range: Range<isize>) -> Slice {
        Slice::new(range.start, Some(range.end), 1)
    }
}

impl From<Range<isize>> for SliceInfoElem {
    ghost from_gives = { λ range element. element ≡ element_of (slice_between range.start (Some range.end)) };

    fn from(range: Range<isize>) -> SliceInfoElem {
        Slice::from(range).into()
    }
}

impl From<RangeFrom<isize>> for Slice {
    ghost from_gives = { λ range slice. slice ≡ slice_between range.start None };

    fn from(range: RangeFrom<isize>) -> Slice {
        Slice::new(range.start, None, 1)
    }
}

impl From<RangeFrom<isize>> for SliceInfoElem {
    ghost from_gives = { λ range element. element ≡ element_of (slice_between range.start None) };

    fn from(range: RangeFrom<isize>) -> SliceInfoElem {
        Slice::from(range).into()
    }
}

impl From<RangeTo<isize>> for Slice {
    ghost from_gives = { λ range slice. slice ≡ slice_between (pos 0) (Some range.end) };

    fn from(range: RangeTo<isize>) -> Slice {
        Slice::new(0, Some(range.end), 1)
    }
}

impl From<RangeTo<isize>> for SliceInfoElem {
    ghost from_gives = { λ range element. element ≡ element_of (slice_between (pos 0) (Some range.end)) };

    fn from(range: RangeTo<isize>) -> SliceInfoElem {
        Slice::from(range).into()
    }
}

impl From<RangeInclusive<isize>> for Slice {
    ghost from_gives = { λ range slice. slice ≡ slice_between (range_inclusive_start range) (end_after (range_inclusive_end range)) };

    fn from(range: RangeInclusive<isize>) -> Slice {
        let (first, last) = range.into_inner();
        Slice::new(first, end_after(last), 1)
    }
}

impl From<RangeInclusive<isize>> for SliceInfoElem {
    ghost from_gives = { λ range element. element ≡ element_of (slice_between (range_inclusive_start range) (end_after (range_inclusive_end range))) };

    fn from(range: RangeInclusive<isize>) -> SliceInfoElem {
        Slice::from(range).into()
    }
}

impl From<RangeToInclusive<isize>> for Slice {
    ghost from_gives = { λ range slice. slice ≡ slice_between (pos 0) (end_after range.end) };

    fn from(range: RangeToInclusive<isize>) -> Slice {
        Slice::new(0, end_after(range.end), 1)
    }
}

impl From<RangeToInclusive<isize>> for SliceInfoElem {
    ghost from_gives = { λ range element. element ≡ element_of (slice_between (pos 0) (end_after range.end)) };

    fn from(range: RangeToInclusive<isize>) -> SliceInfoElem {
        Slice::from(range).into()
    }
}

impl From<Range<usize>> for Slice {
    ghost from_gives = { λ range slice. slice ≡ slice_between (bound_of range.start) (Some (bound_of range.end)) };

    fn from(range: Range<usize>) -> Slice {
        Slice::new(range.start.cast_signed(), Some(range.end.cast_signed()), 1)
    }
}

impl From<Range<usize>> for SliceInfoElem {
    ghost from_gives = { λ range element. element ≡ element_of (slice_between (bound_of range.start) (Some (bound_of range.end))) };

    fn from(range: Range<usize>) -> SliceInfoElem {
        Slice::from(range).into()
    }
}

impl From<RangeFrom<usize>> for Slice {
    ghost from_gives = { λ range slice. slice ≡ slice_between (bound_of range.start) None };

    fn from(range: RangeFrom<usize>) -> Slice {
        Slice::new(range.start.cast_signed(), None, 1)
    }
}

impl From<RangeFrom<usize>> for SliceInfoElem {
    ghost from_gives = { λ range element. element ≡ element_of (slice_between (bound_of range.start) None) };

    fn from(range: RangeFrom<usize>) -> SliceInfoElem {
        Slice::from(range).into()
    }
}

impl From<RangeTo<usize>> for Slice {
    ghost from_gives = { λ range slice. slice ≡ slice_between (pos 0) (Some (bound_of range.end)) };

    fn from(range: RangeTo<usize>) -> Slice {
        Slice::new(0, Some(range.end.cast_signed()), 1)
    }
}

impl From<RangeTo<usize>> for SliceInfoElem {
    ghost from_gives = { λ range element. element ≡ element_of (slice_between (pos 0) (Some (bound_of range.end))) };

    fn from(range: RangeTo<usize>) -> SliceInfoElem {
        Slice::from(range).into()
    }
}

impl From<RangeInclusive<usize>> for Slice {
    ghost from_gives = { λ range slice. slice ≡ slice_between (bound_of (range_inclusive_start range)) (end_after (bound_of (range_inclusive_end range))) };

    fn from(range: RangeInclusive<usize>) -> Slice {
        let (first, last) = range.into_inner();
        Slice::new(first.cast_signed(), end_after(last.cast_signed()), 1)
    }
}

impl From<RangeInclusive<usize>> for SliceInfoElem {
    ghost from_gives = { λ range element. element ≡ element_of (slice_between (bound_of (range_inclusive_start range)) (end_after (bound_of (range_inclusive_end range)))) };

    fn from(range: RangeInclusive<usize>) -> SliceInfoElem {
        Slice::from(range).into()
    }
}

impl From<RangeToInclusive<usize>> for Slice {
    ghost from_gives = { λ range slice. slice ≡ slice_between (pos 0) (end_after (bound_of range.end)) };

    fn from(range: RangeToInclusive<usize>) -> Slice {
        Slice::new(0, end_after(range.end.cast_signed()), 1)
    }
}

impl From<RangeToInclusive<usize>> for SliceInfoElem {
    ghost from_gives = { λ range element. element ≡ element_of (slice_between (pos 0) (end_after (bound_of range.end))) };

    fn from(range: RangeToInclusive<usize>) -> SliceInfoElem {
        Slice::from(range).into()
    }
}

impl From<i32> for SliceInfoElem {
    ghost from_gives = { λ coordinate element. element ≡ Index coordinate };

    fn from(coordinate: i32) -> SliceInfoElem {
        SliceInfoElem::Index(coordinate as isize)
    }
}

impl From<Range<i32>> for Slice {
    ghost from_gives = { λ range slice. slice ≡ slice_between range.start (Some range.end) };

    fn from(range: Range<i32>) -> Slice {
        Slice::new(range.start as isize, Some(range.end as isize), 1)
    }
}

impl From<Range<i32>> for SliceInfoElem {
    ghost from_gives = { λ range element. element ≡ element_of (slice_between range.start (Some range.end)) };

    fn from(range: Range<i32>) -> SliceInfoElem {
        Slice::from(range).into()
    }
}

impl From<RangeFrom<i32>> for Slice {
    ghost from_gives = { λ range slice. slice ≡ slice_between range.start None };

    fn from(range: RangeFrom<i32>) -> Slice {
        Slice::new(range.start as isize, None, 1)
    }
}

impl From<RangeFrom<i32>> for SliceInfoElem {
    ghost from_gives = { λ range element. element ≡ element_of (slice_between range.start None) };

    fn from(range: RangeFrom<i32>) -> SliceInfoElem {
        Slice::from(range).into()
    }
}

impl From<RangeTo<i32>> for Slice {
    ghost from_gives = { λ range slice. slice ≡ slice_between (pos 0) (Some range.end) };

    fn from(range: RangeTo<i32>) -> Slice {
        Slice::new(0, Some(range.end as isize), 1)
    }
}

impl From<RangeTo<i32>> for SliceInfoElem {
    ghost from_gives = { λ range element. element ≡ element_of (slice_between (pos 0) (Some range.end)) };

    fn from(range: RangeTo<i32>) -> SliceInfoElem {
        Slice::from(range).into()
    }
}

impl From<RangeInclusive<i32>> for Slice {
    ghost from_gives = { λ range slice. slice ≡ slice_between (range_inclusive_start range) (end_after (range_inclusive_end range)) };

    fn from(range: RangeInclusive<i32>) -> Slice {
        let (first, last) = range.into_inner();
        Slice::new(first as isize, end_after(last as isize), 1)
    }
}

impl From<RangeInclusive<i32>> for SliceInfoElem {
    ghost from_gives = { λ range element. element ≡ element_of (slice_between (range_inclusive_start range) (end_after (range_inclusive_end range))) };

    fn from(range: RangeInclusive<i32>) -> SliceInfoElem {
        Slice::from(range).into()
    }
}

impl From<RangeToInclusive<i32>> for Slice {
    ghost from_gives = { λ range slice. slice ≡ slice_between (pos 0) (end_after range.end) };

    fn from(range: RangeToInclusive<i32>) -> Slice {
        Slice::new(0, end_after(range.end as isize), 1)
    }
}

impl From<RangeToInclusive<i32>> for SliceInfoElem {
    ghost from_gives = { λ range element. element ≡ element_of (slice_between (pos 0) (end_after range.end)) };

    fn from(range: RangeToInclusive<i32>) -> SliceInfoElem {
        Slice::from(range).into()
    }
}

/// Makes an array of slices from ranges, slices and numbers. Arrays of any dimension can be sliced by it; the result
/// has the dimension `IxDyn`.
#[macro_export]
macro_rules! slices {
    ($($element:expr),* $(,)?) => {
        [$($crate::SliceInfoElem::from($element)),*]
    };
}

/// Makes a list of slices with a fixed number of axes from ranges, slices and numbers. The type of the result must be
/// known from the context. This is ndarray's `s!`.
#[macro_export]
macro_rules! s {
    ($($element:expr),* $(,)?) => {
        $crate::SliceInfo::new_unchecked(&[$($crate::SliceInfoElem::from($element)),*])
    };
}

/// An array of slices can slice arrays of any dimension. The number of axes of the result is known only at run time.
impl<D, const N: usize> SliceArg<D> for [SliceInfoElem; N] {
    type OutDim = IxDyn;

    ghost elements_of = { λ list. list };

    fn elements(&self) -> &[SliceInfoElem] {
        self
    }
}
