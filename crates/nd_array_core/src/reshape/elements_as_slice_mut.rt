//! The elements of an array as one slice to be written, if they are contiguous in memory.
#![tactic(auto, unfolding(crate::specs::ArrayMeaning::meaning_of, crate::specs::ArrayMeaning::memory_layout_of))]

ghost use Rattle.std.specs.Prelude.{◌↔◌, ◌≡◌, [], IsSome, IfSome, OnSome, IsTrue, false};
ghost use Rattle.std.specs.Borrow.{sem};
ghost use Rattle.nd_shape_and_slice.specs.ShapesAndIndexOrders.{size_of};
ghost use Rattle.nd_region.specs.Region.{HasRun, IsRunOf};
ghost use Rattle.nd_array_core.specs.ArrayMeaning.{meaning_of, shape_of, layout_offset};
ghost use Rattle.nd_array_core.specs.base.BorrowBehindMutableView.{region_of};
ghost use Rattle.nd_elements.specs.ShapeAndElements.{row_major_elements};
ghost use Rattle.nd_array_core.specs.reshape.ArrayAfterSliceBorrow.{run_may_follow};
ghost use Rattle.nd_array_core.specs.reshape.ElementsAsSlice.{lowest_place, IsStandardArray, IsRunArray, IsInMemoryOrder, IsInRowMajorOrder, RunIs};

use crate::base::array::{ArrayBase, ArrayViewMut};
use nd_elements::storage::{Data, DataMut, RegionRepr};
use nd_layout::is_run;
use nd_region::Region;
use nd_shape_and_slice::{Dimension, StrideList};

impl<S: Data, D: Dimension> ArrayBase<S, D> {
    /// Returns whether the places of the elements are consecutive numbers, each once. It is true if there are no
    /// elements.
    fn has_run(&self) -> bool
        ensures { IsTrue result ↔ IsRunArray self.now }
    {
        is_run(self.layout.dim.slice(), self.layout.strides.slice())
    }
}

impl<S: DataMut, D: Dimension> ArrayBase<S, D> {
    ghost use Rattle.nd_array_core.specs.reshape.ArrayAfterSliceBorrow.{lends_rows, lends_places, lends_all_or_none, lends_run_or_none, may_lend_rows, may_lend_places, LeavesByRank, LeavesInMemoryOrder, LeavesAsItWas, array_with_rows, array_with_places, rows_lent, run_lent};

    /// Returns the elements in row-major order as one slice, to be written. The array must be in the standard layout
    /// (`is_standard_layout`). ndarray has no such call; the nearest is its `as_slice_mut`, which returns an `Option`.
    /// If a slice comes in an `Option`, the checker doesn't tell a caller what is left in the array.
    pub fn elements_mut(&mut self) -> &mut [S::Elem]
        requires { IsStandardArray self.old }
        ensures* writes_back { sem 𝓛 (lends_rows S.row S.Elem.row D.row D.Strides.row S.Data D.Dimension D.AxisCount D.Strides.StrideList self.entry result) }
        ensures elements { result.now ≡ row_major_elements (meaning_of self.old) }
        ensures written { LeavesByRank S.frame self.old (array_with_rows S.with_run self.old) }
    {
        let first = self.layout.offset;
        let count = self.layout.dim.size();
        self.storage.lend_run(first, count)
    }

    /// Returns the elements in the order in which they lie as one slice, to be written. Their places must be
    /// consecutive numbers, each once, or there must be no elements. ndarray has no such call; the nearest is its
    /// `as_slice_memory_order_mut`.
    pub fn elements_memory_order_mut(&mut self) -> &mut [S::Elem]
        requires { IsRunArray self.old }
        ensures* writes_back { sem 𝓛 (lends_places S.row S.Elem.row D.row D.Strides.row S.Data D.Dimension D.AxisCount D.Strides.StrideList self.entry result) }
        ensures elements { IsInMemoryOrder self.old result.now }
        ensures written { LeavesInMemoryOrder S.frame self.old (array_with_places S.with_run self.old) }
    {
        let first = self.layout.lowest_place();
        let count = self.layout.dim.size();
        self.storage.lend_run(first, count)
    }

    /// If the array is in the standard layout (`is_standard_layout`), returns the elements in row-major order as one
    /// slice, to be written, and true. Otherwise it returns an empty slice and false, and nothing changes. ndarray has
    /// no such call; the nearest is its `as_slice_mut`. If a slice comes in a pair, the checker tells a caller what is
    /// left in the array; if it comes in an `Option`, it doesn't.
    pub fn lend_slice(&mut self) -> (&mut [S::Elem], bool)
        ensures* writes_back { sem 𝓛 (lends_all_or_none S.row S.Elem.row D.row D.Strides.row S.Data D.Dimension D.AxisCount D.Strides.StrideList self.entry result.0) }
        ensures standard { IsTrue result.1 ↔ IsStandardArray self.old }
        ensures elements { IsTrue result.1 → result.0.now ≡ row_major_elements (meaning_of self.old) }
        ensures none { result.1 ≡ false → result.0.now ≡ [] }
        ensures written { IsTrue result.1 → LeavesByRank S.frame self.old (rows_lent S.with_run self.old result.0.now) }
        ensures unwritten { result.1 ≡ false → LeavesAsItWas S.frame self.old (rows_lent S.with_run self.old result.0.now) }
    {
        let asked = self.is_standard_layout();
        let first = self.layout.offset;
        let count = count_if(asked, self.layout.dim.size());
        (self.storage.lend_run(first, count), asked)
    }

    /// If the places of the elements are consecutive numbers, each once, or there are no elements, returns the elements
    /// in the order in which they lie as one slice, to be written, and true. Otherwise it returns an empty slice and
    /// false, and nothing changes. ndarray has no such call; the nearest is its `as_slice_memory_order_mut`.
    pub fn lend_slice_memory_order(&mut self) -> (&mut [S::Elem], bool)
        ensures* writes_back { sem 𝓛 (lends_run_or_none S.row S.Elem.row D.row D.Strides.row S.Data D.Dimension D.AxisCount D.Strides.StrideList self.entry result.0) }
        ensures run { IsTrue result.1 ↔ IsRunArray self.old }
        ensures elements { IsTrue result.1 → IsInMemoryOrder self.old result.0.now }
        ensures none { result.1 ≡ false → result.0.now ≡ [] }
        ensures written { IsTrue result.1 → LeavesInMemoryOrder S.frame self.old (run_lent S.with_run self.old result.0.now) }
        ensures unwritten { result.1 ≡ false → LeavesAsItWas S.frame self.old (run_lent S.with_run self.old result.0.now) }
    {
        let asked = self.has_run();
        let first = self.layout.lowest_place();
        let count = count_if(asked, self.layout.dim.size());
        (self.storage.lend_run(first, count), asked)
    }

    /// Returns the same reference, and whether the array is in the standard layout.
    fn asked_rows(&mut self) -> (&mut Self, bool)
        ensures same_reference { result.0.ghost_name ≡ self.entry.ghost_name }
        ensures same { result.0.now ≡ self.old }
        ensures asked { IsTrue result.1 ↔ IsStandardArray self.old }
    {
        let asked = self.is_standard_layout();
        (self, asked)
    }

    /// Returns the same reference, and whether the places of the elements are consecutive numbers, each once. That is
    /// true if there are no elements.
    fn asked_run(&mut self) -> (&mut Self, bool)
        ensures same_reference { result.0.ghost_name ≡ self.entry.ghost_name }
        ensures same { result.0.now ≡ self.old }
        ensures asked { IsTrue result.1 ↔ IsRunArray self.old }
    {
        let asked = self.has_run();
        (self, asked)
    }

    /// Returns the elements in row-major order as one slice, to be written. The result is None exactly where the array
    /// isn't in the standard layout (`is_standard_layout`), and then nothing changes. `lend_slice` gives the same slice
    /// and tells a caller what the array is afterwards. This is ndarray's `as_slice_mut`.
    pub fn as_slice_mut(&mut self) -> Option<&mut [S::Elem]>
        ensures* writes_back { sem 𝓛 (may_lend_rows S.row S.Elem.row D.row D.Strides.row S.Data D.Dimension D.AxisCount D.Strides.StrideList self.entry result) }
        ensures some { IsSome result ↔ IsStandardArray self.old }
        ensures elements { IfSome result (λ xs. xs.now ≡ row_major_elements (meaning_of self.old)) }
        ensures written { OnSome result (LeavesByRank S.frame self.old (array_with_rows S.with_run self.old)) }
    {
        let (array, asked) = self.asked_rows();
        if asked {
            Some(array.elements_mut())
        } else {
            None
        }
    }

    /// Returns the elements in the order in which they lie as one slice, to be written. The result is None exactly
    /// where their places aren't consecutive numbers, each once, and then nothing changes; an array without elements
    /// gives an empty slice. `lend_slice_memory_order` gives the same slice and tells a caller what the array is
    /// afterwards. This is ndarray's `as_slice_memory_order_mut`.
    pub fn as_slice_memory_order_mut(&mut self) -> Option<&mut [S::Elem]>
        ensures* writes_back { sem 𝓛 (may_lend_places S.row S.Elem.row D.row D.Strides.row S.Data D.Dimension D.AxisCount D.Strides.StrideList self.entry result) }
        ensures some { IsSome result ↔ IsRunArray self.old }
        ensures elements { IfSome result (λ xs. IsInMemoryOrder self.old xs.now) }
        ensures written { OnSome result (LeavesInMemoryOrder S.frame self.old (array_with_places S.with_run self.old)) }
    {
        let (array, asked) = self.asked_run();
        if asked {
            Some(array.elements_memory_order_mut())
        } else {
            None
        }
    }
}

/// Returns `count` if `asked` is true, and else 0.
fn count_if(asked: bool, count: usize) -> usize
    ensures all { IsTrue asked → result ≡ count }
    ensures none { asked ≡ false → result ≡ 0 }
{
    if asked { count } else { 0 }
}

/// Returns the region of a mutable view, the place of the element at the index of zeros, the number of elements, and
/// whether the view is in the standard layout.
fn apart_rows<'a, A, D: Dimension>(
    view: ArrayViewMut<'a, A, D>,
) -> (Region<'a, A>, usize, usize, bool)
    ensures region { result.0 ≡ region_of view.entry }
    ensures first { result.1 ≡ layout_offset view.entry }
    ensures count { result.2 ≡ size_of (shape_of view.entry) }
    ensures asked { IsTrue result.3 ↔ IsStandardArray view.entry }
    ensures there { IsTrue result.3 → HasRun result.0 result.1 result.2 }
    ensures elements { IsTrue result.3 → RunIs result.0 result.1 result.2 (IsInRowMajorOrder view.entry) }
{
    let asked = view.is_standard_layout();
    let ArrayBase { storage, layout } = view;
    let RegionRepr { region, tie: _ } = storage;
    let count = layout.dim.size();
    (region, layout.offset, count, asked)
}

/// Returns the region of a mutable view, the lowest place of its elements, the number of elements, and whether their
/// places are consecutive numbers, each once. That is true if there are no elements.
fn apart_run<'a, A, D: Dimension>(
    view: ArrayViewMut<'a, A, D>,
) -> (Region<'a, A>, usize, usize, bool)
    ensures region { result.0 ≡ region_of view.entry }
    ensures first { result.1 ≡ lowest_place view.entry }
    ensures count { result.2 ≡ size_of (shape_of view.entry) }
    ensures asked { IsTrue result.3 ↔ IsRunArray view.entry }
    ensures there { IsTrue result.3 → HasRun result.0 result.1 result.2 }
    ensures elements { IsTrue result.3 → RunIs result.0 result.1 result.2 (IsInMemoryOrder view.entry) }
{
    let asked = view.has_run();
    let ArrayBase { storage, layout } = view;
    let RegionRepr { region, tie: _ } = storage;
    let first = layout.lowest_place();
    let count = layout.dim.size();
    (region, first, count, asked)
}

/// Returns the `count` elements of a region from `place` on as one slice, to be written for as long as what the region
/// borrows. If `asked` is false, the result is None, and nothing changes.
fn run_if<'a, A>(
    region: Region<'a, A>,
    place: usize,
    count: usize,
    asked: bool,
) -> Option<&'a mut [A]>
    requires { IsTrue asked → HasRun region place count }
    ensures* writes_back { sem 𝓛 (run_may_follow A.row region.entry place count result) }
    ensures some { IsSome result ↔ IsTrue asked }
    ensures values { IfSome result (λ xs. IsRunOf region.entry place count xs.now) }
{
    if asked {
        Some(region.into_run(place, count))
    } else {
        region.end();
        None
    }
}

impl<'a, A, D: Dimension> ArrayViewMut<'a, A, D> {
    ghost use Rattle.nd_array_core.specs.reshape.ArrayAfterSliceBorrow.{may_follow_run};

    /// Returns the elements in row-major order as one slice, to be written for as long as what the view borrows. The
    /// result is None exactly where the view isn't in the standard layout (`is_standard_layout`), and then nothing
    /// changes. This is ndarray's `into_slice`.
    pub fn into_slice(self) -> Option<&'a mut [A]>
        ensures* writes_back { sem 𝓛 (may_follow_run A.row self.entry (layout_offset self.entry) result) }
        ensures some { IsSome result ↔ IsStandardArray self.entry }
        ensures elements { IfSome result (λ xs. xs.now ≡ row_major_elements (meaning_of self.entry)) }
    {
        let (region, first, count, asked) = apart_rows(self);
        run_if(region, first, count, asked)
    }

    /// Returns the elements in the order in which they lie as one slice, to be written for as long as what the view
    /// borrows. The result is None exactly where their places aren't consecutive numbers, each once, and then nothing
    /// changes. This is ndarray's `into_slice_memory_order`.
    pub fn into_slice_memory_order(self) -> Option<&'a mut [A]>
        ensures* writes_back { sem 𝓛 (may_follow_run A.row self.entry (lowest_place self.entry) result) }
        ensures some { IsSome result ↔ IsRunArray self.entry }
        ensures elements { IfSome result (λ xs. IsInMemoryOrder self.entry xs.now) }
    {
        let (region, first, count, asked) = apart_run(self);
        run_if(region, first, count, asked)
    }
}
