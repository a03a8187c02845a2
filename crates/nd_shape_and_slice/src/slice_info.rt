//! Lists of slices and indexes, whose elements read the axes of an array in order.

ghost use Rattle.std.specs.Prelude.{◌↔◌, ◌≡◌, ◌≤◌, ◌==◌, ◌&&◌, not, nat_le, ℕ, Bool, false, List, length, drop, OnOk, IfOk, OnErr, IfErr, IsTrue, MatchOption, Option, Some, None, count_by, ◌∷◌, ◌+◌, ◌<◌, ◌^◌, if◌then◌else◌, slice_get};
ghost use Rattle.nd_shape_and_slice.specs.AxisCounts.{HasAxesIfFew};
ghost use Rattle.nd_shape_and_slice.specs.SliceInfo.{reads_axis, keeps_axis, axes_read, axes_kept, coordinate_on, each_fits, fits_shape, fits_next, has_counts};
ghost use Rattle.nd_shape_and_slice.specs.SlicingInTwoPasses.{next_axis};
ghost use Rattle.nd_shape_and_slice.specs.declared.slice_info.SliceInfoElem.{SliceInfoElem};

use crate::dimension::{Dimension, MAX_AXES};
use crate::dynamic_dimension::IxDyn;
use crate::errors::{ErrorKind, ShapeError};
use crate::slice::{Slice, slice_fits};
use std::marker::PhantomData;

/// An element of a list of slices: what is kept of an axis, or a new axis. This is ndarray's `SliceInfoElem`.
#[derive(Clone, Copy, Debug, PartialEq, Eq)]
pub enum SliceInfoElem {
    /// The part of the axis that a `Slice` with these fields names.
    Slice {
        /// The first coordinate of the range.
        start: isize,
        /// The coordinate after the last coordinate of the range.
        end: Option<isize>,
        /// The distance from each coordinate to the next: any number except 0.
        step: isize,
    },
    /// One coordinate, counted from the end of the axis if negative. The axis is removed.
    Index(isize),
    /// A new axis of length 1.
    NewAxis,
}

impl SliceInfoElem {
    /// Returns whether the element reads an axis of the array. Every element except `NewAxis` does.
    pub fn reads_axis(&self) -> bool
        ensures { result ≡ reads_axis self.now }
    {
        !matches!(self, SliceInfoElem::NewAxis)
    }

    /// Returns whether the element leaves an axis in the result. Every element except `Index` does.
    pub fn keeps_axis(&self) -> bool
        ensures { result ≡ keeps_axis self.now }
    {
        !matches!(self, SliceInfoElem::Index(_))
    }
}

/// Returns the number of axes that the list reads.
pub fn axes_read(elements: &[SliceInfoElem]) -> usize
    ensures { result ≡ axes_read elements.now }
{
    elements
        .iter()
        .filter(|element| element.reads_axis())
        .count()
}

/// Returns the number of axes that the list leaves in the result. It is counted by a plain loop, which the compiler
/// removes if the number isn't used, as for a dimension with a fixed number of axes.
#[tactic(auto, using(std::proofs::lemmas::List::Sums::count_by_more_yes, std::proofs::lemmas::List::Sums::count_by_more_no))]
#[inline]
pub fn axes_kept(elements: &[SliceInfoElem]) -> usize
    ensures { result ≡ axes_kept elements.now }
{
    let mut kept = 0;
    for element in elements {
        if element.keeps_axis() {
            kept += 1;
        }
    }
    kept
}

/// Returns the position of `coordinate` on an axis of length `len`, or `None` if it lies outside the axis. A negative
/// coordinate counts from the end of the axis.
pub fn coordinate_on_axis(len: usize, coordinate: isize) -> Option<usize>
    ensures { result ≡ coordinate_on len coordinate }
{
    if coordinate < 0 {
        let back = coordinate.unsigned_abs();
        if back <= len { Some(len - back) } else { None }
    } else {
        let place = coordinate as usize;
        if place < len { Some(place) } else { None }
    }
}

/// Returns whether `element` fits an axis of length `len`. `len` is `None` if there is no axis left to read.
fn element_fits(len: Option<usize>, element: SliceInfoElem) -> bool
    ensures { result ≡ fits_next len element }
{
    match (element, len) {
        (SliceInfoElem::NewAxis, _) => true,
        (_, None) => false,
        (SliceInfoElem::Slice { start, end, step }, Some(len)) => slice_fits(
            len,
            Slice::new(start, end, step),
        ),
        (SliceInfoElem::Index(coordinate), Some(len)) => coordinate_on_axis(
            len, coordinate,
        ).is_some(),
    }
}

/// Returns the length of `axis`, or `None` if there is no such axis.
#[tactic(auto, using(crate::proofs::SliceLists::length_there, crate::proofs::SliceLists::no_length))]
fn length_of(lengths: &[usize], axis: usize) -> Option<usize>
    ensures { result ≡ slice_get lengths.now axis }
{
    if axis < lengths.len() {
        Some(lengths[axis])
    } else {
        None
    }
}

/// Returns the number of the axis that the next element reads: `axis + 1` if `element` reads `axis`, and otherwise
/// `axis`.
pub fn axis_after(axis: usize, element: SliceInfoElem) -> usize
    requires { axis < 2 ^ 63 }
    ensures { result ≡ next_axis axis element }
{
    if element.reads_axis() { axis + 1 } else { axis }
}

/// Returns whether the elements read as many axes as there are, and each fits its axis.
fn elements_fit(lengths: &[usize], elements: &[SliceInfoElem]) -> bool
    ensures { result ≡ each_fits lengths.now elements.now }
{
    let mut axis = 0;
    for element in elements {
        if !element_fits(length_of(lengths, axis), *element) {
            return false;
        }
        axis = axis_after(axis, *element);
    }
    axis == lengths.len()
}

/// Returns whether the list leaves at most 32 axes in the result. A list of at most 32 elements always does, so its
/// axes aren't counted.
#[tactic(auto, using(crate::proofs::SliceLists::few_kept))]
fn keeps_few_axes(elements: &[SliceInfoElem]) -> bool
    ensures { result ≡ nat_le (axes_kept elements.now) MAX_AXES }
{
    elements.len() <= MAX_AXES || axes_kept(elements) <= MAX_AXES
}

/// Returns whether the list fits an array of this shape: it reads as many axes as there are, each of its elements fits
/// its axis, and it leaves at most 32 axes in the result.
pub fn slices_fit(shape: &[usize], elements: &[SliceInfoElem]) -> bool
    ensures { result ≡ fits_shape shape.now elements.now }
{
    elements_fit(shape, elements) && keeps_few_axes(elements)
}

/// Returns whether a value of the dimension type `D` can have `count` axes. `count` must be at most 32.
fn takes_axes<D: Dimension>(count: usize) -> bool
    requires { count ≤ MAX_AXES }
    ensures { result ≡ D.has_axes count }
{
    let lengths = [0; MAX_AXES];
    match D::from_lengths(&lengths[..count]) {
        Some(dim) => dim.slice().len() == count,
        None => false,
    }
}

/// Returns whether `count` is at most 32, and a value of the dimension type `D` can have `count` axes.
fn is_axis_count<D: Dimension>(count: usize) -> bool
    ensures { result ≡ (nat_le count MAX_AXES && D.has_axes count) }
{
    count <= MAX_AXES && takes_axes::<D>(count)
}

/// A list of slices by which arrays of dimension `In` are sliced to arrays of dimension `Out`. This is ndarray's
/// `SliceInfo`.
#[derive(Drop)]
pub struct SliceInfo<'e, In: Dimension, Out: Dimension> {
    elements: &'e [SliceInfoElem],
    takes: PhantomData<In>,
    gives: PhantomData<Out>,
    ghost reads: { IsTrue (In.has_axes (axes_read elements.now)) },
    ghost keeps: { IsTrue (Out.has_axes (axes_kept elements.now)) },
}

impl<'e, In: Dimension, Out: Dimension> SliceInfo<'e, In, Out> {
    /// Returns the list of slices if it reads as many axes as `In` can have, and leaves as many as `Out` can have, both
    /// at most 32. Fails with `IncompatibleShape` exactly if it doesn't. This is ndarray's `SliceInfo::new`.
    pub fn new(elements: &'e [SliceInfoElem]) -> Result<Self, ShapeError>
        ensures counts { OnOk result (IsTrue (has_counts In.has_axes Out.has_axes elements.now)) }
        ensures list { IfOk result (λ info. info.elements.now ≡ elements.now) }
        ensures refused { OnErr result (has_counts In.has_axes Out.has_axes elements.now ≡ false) }
        ensures cause { IfErr result (λ e. e ≡ ErrorKind.IncompatibleShape) }
    {
        if is_axis_count::<In>(axes_read(elements)) && is_axis_count::<Out>(axes_kept(elements)) {
            Ok(SliceInfo {
                elements,
                takes: PhantomData,
                gives: PhantomData,
            })
        } else {
            Err(ShapeError::from_kind(ErrorKind::IncompatibleShape))
        }
    }

    /// Returns the list of slices. It must read as many axes as `In` can have, and leave as many as `Out` can have,
    /// both at most 32. This is ndarray's `SliceInfo::new_unchecked`, which is unsafe there.
    pub fn new_unchecked(elements: &'e [SliceInfoElem]) -> Self
        requires { IsTrue (has_counts In.has_axes Out.has_axes elements.now) }
        ensures { result.elements.now ≡ elements.now }
    {
        SliceInfo {
            elements,
            takes: PhantomData,
            gives: PhantomData,
        }
    }
}

/// A list of slices by which arrays of dimension `D` can be sliced. This is ndarray's `SliceArg`.
pub trait SliceArg<D>: Drop {
    /// The dimension type of the result. This is ndarray's `SliceArg::OutDim`.
    type OutDim: Dimension;

    ghost elements_of: { Self → List SliceInfoElem };

    /// Returns the list's elements.
    fn elements(&self) -> &[SliceInfoElem]
        ensures list { result.now ≡ elements_of self.now }
        ensures output { HasAxesIfFew Self.OutDim.has_axes (axes_kept (elements_of self.now)) };

    /// Returns whether the list fits an array of this shape.
    fn fits(&self, shape: &[usize]) -> bool
        ensures { result ≡ fits_shape shape.now (elements_of self.now) }
    {
        slices_fit(shape, self.elements())
    }
}

impl<'e, In: Dimension, Out: Dimension> SliceArg<In> for SliceInfo<'e, In, Out> {
    type OutDim = Out;

    ghost elements_of = { λ info. info.elements.now };

    fn elements(&self) -> &[SliceInfoElem] {
        self.elements
    }
}

impl SliceArg<IxDyn> for &[SliceInfoElem] {
    type OutDim = IxDyn;

    ghost elements_of = { λ list. list.now };

    fn elements(&self) -> &[SliceInfoElem] {
        *self
    }
}
