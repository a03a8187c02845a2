//! Fills the even rows and the odd rows of a grid at once, through two mutable views.
#![tactic(auto, using(nd_array_core::proofs::AxesOfDimensionTypes::known_axes))]

ghost use Rattle.std.specs.Prelude.{◌↔◌, ◌≡◌, ◌<◌, length, slice_index, IsSome, IfSome, IfNone, OnOk, IsTrue};
ghost use Rattle.nd_array_core.specs.Prelude.{shape_of, element_at, TwoFit, KeepsButSlices, ClonesAreEqual};
ghost use Rattle.uses_nd_array_core.specs.RowsColumnsAndBorders.{IsInterleaved};
ghost use Rattle.uses_nd_array_core.specs.FilledAndCopiedParts.{FillsPart};

use crate::split_parts::FillBoth;
use nd_array_core::prelude::*;
use nd_array_core::slices_intersect;

/// Fills the part that the first list of slices names with `first`, and the part that the second list names with
/// `second`. Both lists must fit the shape, and the two parts must not overlap. Elements outside both parts stay as
/// they are.
pub fn fill_slices<
    A: Clone + Drop,
    S: DataMut<Elem = A>,
    D: Dimension,
    I: SliceArg<D>,
    J: SliceArg<D>,
>(array: &mut ArrayBase<S, D>, lists: (I, J), first: A, second: A) -> Result<(), NoMemory>
    requires fits { TwoFit (shape_of array.old) (I.elements_of lists.0) (J.elements_of lists.1) }
    requires first { ClonesAreEqual A.is_clone first }
    requires second { ClonesAreEqual A.is_clone second }
    ensures shape { shape_of array.new ≡ shape_of array.old }
    ensures first { OnOk result (FillsPart array.old array.new (I.elements_of lists.0) first) }
    ensures second { OnOk result (FillsPart array.old array.new (J.elements_of lists.1) second) }
    ensures kept { KeepsButSlices array.old array.new (I.elements_of lists.0) (J.elements_of lists.1) }
{
    array.with_multi_slice_mut(lists, FillBoth { first, second })
}

/// Returns whether two lists of slices fit a shape and name no element in common.
fn both_fit<D, I: SliceArg<D>, J: SliceArg<D>>(shape: &[usize], lists: &(I, J)) -> bool
    ensures { IsTrue result ↔ TwoFit shape.now (I.elements_of lists.now.0) (J.elements_of lists.now.1) }
{
    if !lists.0.fits(shape) || !lists.1.fits(shape) {
        return false;
    }
    !slices_intersect(shape, lists.0.elements(), lists.1.elements())
}

/// Fills two parts as `fill_slices` does, if both lists of slices fit the shape and the two parts don't overlap.
/// Otherwise returns `None`, and the array doesn't change.
pub fn try_fill_slices<
    A: Clone + Drop,
    S: DataMut<Elem = A>,
    D: Dimension,
    I: SliceArg<D>,
    J: SliceArg<D>,
>(array: &mut ArrayBase<S, D>, lists: (I, J), first: A, second: A) -> Option<Result<(), NoMemory>>
    requires first { ClonesAreEqual A.is_clone first }
    requires second { ClonesAreEqual A.is_clone second }
    ensures some { IsSome result ↔ TwoFit (shape_of array.old) (I.elements_of lists.0) (J.elements_of lists.1) }
    ensures none { IfNone result (array.new ≡ array.old) }
    ensures shape { shape_of array.new ≡ shape_of array.old }
    ensures first { IfSome result (λ done. OnOk done (FillsPart array.old array.new (I.elements_of lists.0) first)) }
    ensures second { IfSome result (λ done. OnOk done (FillsPart array.old array.new (J.elements_of lists.1) second)) }
    ensures kept { KeepsButSlices array.old array.new (I.elements_of lists.0) (J.elements_of lists.1) }
{
    if both_fit::<D, I, J>(array.shape(), &lists) {
        Some(fill_slices(array, lists, first, second))
    } else {
        None
    }
}

const ALL: SliceInfoElem = SliceInfoElem::Slice {
    start: 0,
    end: None,
    step: 1,
};

const EVEN: SliceInfoElem = SliceInfoElem::Slice {
    start: 0,
    end: None,
    step: 2,
};

const ODD: SliceInfoElem = SliceInfoElem::Slice {
    start: 1,
    end: None,
    step: 2,
};

/// Fills the rows 0, 2, 4 and so on of `grid` with `even`, and the rows 1, 3, 5 and so on with `odd`. The grid may have
/// any dimension type that allows two axes. It must have two axes, and at least one row.
fn fill_rows<A: Clone + Drop, S: DataMut<Elem = A>, D: Dimension>(
    grid: &mut ArrayBase<S, D>,
    even: A,
    odd: A,
) -> Result<(), NoMemory>
    requires two { length (shape_of grid.old) ≡ 2 }
    requires rows { 0 < slice_index (shape_of grid.old) 0 }
    requires axes { IsTrue (D.has_axes 2) }
    requires even { ClonesAreEqual A.is_clone even }
    requires odd { ClonesAreEqual A.is_clone odd }
    ensures shape { shape_of grid.new ≡ shape_of grid.old }
    ensures rows { OnOk result (IsInterleaved (shape_of grid.old) even odd (element_at grid.new)) }
{
    match SliceInfo::<D, D>::new(&[EVEN, ALL]) {
        Ok(evens) => match SliceInfo::<D, D>::new(&[ODD, ALL]) {
            Ok(odds) => fill_slices(grid, (evens, odds), even, odd),
            Err(_) => unreachable!(),
        },
        Err(_) => unreachable!(),
    }
}

/// Fills the rows 0, 2, 4 and so on of `grid` with `even`, and the rows 1, 3, 5 and so on with `odd`.
pub fn interleave_rows<A: Clone + Drop, S: DataMut<Elem = A>>(
    grid: &mut ArrayBase<S, Ix2>,
    even: A,
    odd: A,
) -> Result<(), NoMemory>
    requires even { ClonesAreEqual A.is_clone even }
    requires odd { ClonesAreEqual A.is_clone odd }
    ensures shape { shape_of grid.new ≡ shape_of grid.old }
    ensures rows { OnOk result (IsInterleaved (shape_of grid.old) even odd (element_at grid.new)) }
{
    let rows = grid.nrows();
    if rows == 0 {
        return Ok(());
    }
    fill_rows(grid, even, odd)
}
