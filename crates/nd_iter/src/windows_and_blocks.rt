//! Iteration over parts of a table that all have the same size: windows, and blocks that lie side by side.

ghost use Rattle.std.specs.Prelude.{◌≡◌, ◌+◌, ◌*◌, ◌/◌, ◌%◌, ◌<◌, ◌≤◌, ◌^◌, ℕ, ⊤, length, slice_index, IfSome};
ghost use Rattle.std.specs.Iterator.{YieldsFirstBy, YieldsLastBy, item_count, at_most, UpTo};
ghost use Rattle.std.specs.Iterator.SizeHint.{IsWithinCount};
ghost use Rattle.nd_array_core.specs.ElementsByCoordinates.{element_of_2, HasRowsAndColumns};
ghost use Rattle.nd_array_core.specs.LayoutLaws.{NothingOutside};
ghost use Rattle.nd_array_core.specs.ArrayMeaning.{meaning_of, shape_of};
ghost use Rattle.nd_iter.specs.IteratedElements.{listing, IsExactly};
ghost use Rattle.nd_iter.specs.WindowsAndBlocks.{numbered_part, part_at, parts_along, parts_of};

use nd_array_core::laws::nothing_outside;
use nd_array_core::{ArrayBase, ArrayView2, Data};
use nd_shape_and_slice::{Axis, Ix2, Slice};
use std::alloc::AllocError;
use std::iter::FusedIterator;
use std::marker::{Model, PhantomData};

/// How the parts of a table lie: each has `height` rows and `width` columns; from one to the next it is `down` rows or
/// `right` columns; and `across` parts begin in the same row.
#[derive(Clone, Copy)]
pub(crate) struct Grid {
    pub height: usize,
    pub width: usize,
    pub down: usize,
    pub right: usize,
    pub across: usize,
}

/// An iterator over parts of one size of a table. For proofs it is the list of the shapes and elements of the parts
/// that are left. This is ndarray's `Windows`, and its `ExactChunks`.
#[derive(Drop)]
pub struct TableParts<'a, A, S: Data<Elem = A>> {
    table: &'a ArrayBase<S, Ix2>,
    grid: Grid,
    // The parts with the numbers from `front` up to `back` (excluded) are left.
    front: usize,
    back: usize,
    of: PhantomData<&'a A>,
}

impl<'a, A, S: Data<Elem = A>> Model for TableParts<'a, A, S> {
    ghost use Rattle.std.specs.Prelude.{ℕ, List, slice_index};
    ghost use Rattle.nd_array_core.specs.ArrayMeaning.{meaning_of, shape_of};
    ghost use Rattle.nd_iter.specs.WindowsAndBlocks.{parts_left, HaveParts};

    ghost Value = { List (List ℕ × List A) };

    ghost view = { λ it. parts_left (meaning_of it.table.now) it.grid.height it.grid.width it.grid.down it.grid.right it.front it.back };

    ghost invariant = { λ it. HaveParts (shape_of it.table.now) it.grid it.front it.back };
}

/// Returns the view of `height` rows from the row `top` on and `width` columns from the column `left` on. The contract
/// says which element of the table stands at each index.
#[tactic(auto, using(std::proofs::lemmas::Bool::Decides::nat_tests, nd_array_core::proofs::AxesOfDimensionTypes::known_axes))]
fn cut_at<A, S: Data<Elem = A>>(
    table: &ArrayBase<S, Ix2>,
    top: usize,
    left: usize,
    height: usize,
    width: usize,
) -> ArrayView2<'_, A>
    requires rows { top + height ≤ slice_index (shape_of table.now) 0 }
    requires columns { left + width ≤ slice_index (shape_of table.now) 1 }
    ensures shape { HasRowsAndColumns result height width }
    ensures elements { (row column : ℕ) → row < height → column < width → element_of_2 result row column ≡ element_of_2 table.now (top + row) (left + column) }
    ensures outside { NothingOutside (meaning_of result) }
{
    let mut part = table.slice_axis(Axis(0), Slice::between(top, top + height));
    part.slice_axis_inplace(Axis(1), Slice::between(left, left + width));
    nothing_outside(&part);
    part
}

/// Returns the view of `height` rows from the row `top` on and `width` columns from the column `left` on. The contract
/// says which part of the whole table it is.
fn part_from<A, S: Data<Elem = A>>(
    table: &ArrayBase<S, Ix2>,
    top: usize,
    left: usize,
    height: usize,
    width: usize,
) -> ArrayView2<'_, A>
    requires rows { top + height ≤ slice_index (shape_of table.now) 0 }
    requires columns { left + width ≤ slice_index (shape_of table.now) 1 }
    ensures { listing (meaning_of result) ≡ listing (part_at (meaning_of table.now) height width top left) }
{
    cut_at(table, top, left, height, width)
}

/// Returns the part with the number `number`, counted from 0 in row-major order.
#[tactic(auto, using(nd_array_core::proofs::AxesOfDimensionTypes::known_axes))]
fn numbered<'a, A, S: Data<Elem = A>>(
    table: &'a ArrayBase<S, Ix2>,
    grid: Grid,
    number: usize,
) -> ArrayView2<'a, A>
    requires across { grid.across ≡ parts_along (slice_index (shape_of table.now) 1) grid.width grid.right }
    requires some { 0 < grid.across }
    requires rows { number / grid.across * grid.down + grid.height ≤ slice_index (shape_of table.now) 0 }
    requires columns { number % grid.across * grid.right + grid.width ≤ slice_index (shape_of table.now) 1 }
    ensures { listing (meaning_of result) ≡ numbered_part (meaning_of table.now) grid.height grid.width grid.down grid.right number }
{
    let top = number / grid.across * grid.down;
    let left = number % grid.across * grid.right;
    part_from(table, top, left, grid.height, grid.width)
}

impl<'a, A, S: Data<Elem = A>> Iterator for TableParts<'a, A, S> {
    type Item = ArrayView2<'a, A>;

    ghost next_gives = { YieldsFirstBy (λ item. listing (meaning_of item)) (λ rest. rest) };

    ghost remaining = { item_count (λ rest. rest) };

    #[tactic(auto, using(crate::proofs::ListEndsTaken::first_given, crate::proofs::ListEndsTaken::none_given))]
    fn next(&mut self) -> Option<ArrayView2<'a, A>> {
        if self.front == self.back {
            return None;
        }
        let number = self.front;
        self.front += 1;
        Some(numbered(self.table, self.grid, number))
    }

    #[tactic(auto, using(crate::proofs::ListEndsTaken::length_given))]
    fn size_hint(&self) -> (usize, Option<usize>)
        ensures lower { IsWithinCount result.0 (at_most (length self.now)) }
        ensures upper { IfSome result.1 (UpTo (at_most (length self.now))) }
        ensures exact { IsExactly result (length self.now) }
    {
        let count = self.back - self.front;
        (count, Some(count))
    }
}

impl<'a, A, S: Data<Elem = A>> DoubleEndedIterator for TableParts<'a, A, S> {
    ghost next_back_gives = { YieldsLastBy (λ item. listing (meaning_of item)) (λ rest. rest) };

    #[tactic(auto, using(crate::proofs::ListEndsTaken::last_given, crate::proofs::ListEndsTaken::none_given))]
    fn next_back(&mut self) -> Option<ArrayView2<'a, A>> {
        if self.front == self.back {
            return None;
        }
        self.back -= 1;
        Some(numbered(self.table, self.grid, self.back))
    }
}

impl<'a, A, S: Data<Elem = A>> ExactSizeIterator for TableParts<'a, A, S> {
    #[tactic(auto, using(crate::proofs::ListEndsTaken::length_given))]
    fn len(&self) -> usize {
        self.back - self.front
    }
}

impl<'a, A, S: Data<Elem = A>> FusedIterator for TableParts<'a, A, S> {}

/// A clone has the same parts left, and is independent of its original.
impl<'a, A, S: Data<Elem = A>> Clone for TableParts<'a, A, S> {
    ghost is_clone = { λ it clone. clone ≡ it };

    ghost is_infallible = { λ _. ⊤ };

    fn clone(&self) -> Result<Self, AllocError> {
        Ok(TableParts {
            table: self.table,
            grid: self.grid,
            front: self.front,
            back: self.back,
            of: PhantomData,
        })
    }
}

/// Returns how many parts of `size` coordinates, which begin `step` coordinates apart, fit along an axis of the length
/// `len`.
#[tactic(auto, using(std::proofs::lemmas::Bool::Decides::nat_tests))]
fn count_along(len: usize, size: usize, step: usize) -> usize
    requires size { 0 < size }
    requires step { 0 < step }
    requires short { len < 2 ^ 63 }
    ensures count { result ≡ parts_along len size step }
    ensures few { result ≤ len }
{
    if len < size {
        return 0;
    }
    (len - size) / step + 1
}

impl<'a, A, S: Data<Elem = A>> TableParts<'a, A, S> {
    /// Returns an iterator over all parts of `height` rows and `width` columns that begin `down` rows and `right`
    /// columns apart.
    pub(crate) fn over(
        table: &'a ArrayBase<S, Ix2>,
        height: usize,
        width: usize,
        down: usize,
        right: usize,
    ) -> Self
        requires height { 0 < height }
        requires width { 0 < width }
        requires down { 0 < down }
        requires right { 0 < right }
        ensures { result ≡ parts_of (meaning_of table.now) height width down right }
    {
        let (rows, columns) = table.dim();
        let across = count_along(columns, width, right);
        let _size = table.len();
        TableParts {
            table,
            grid: Grid {
                height,
                width,
                down,
                right,
                across,
            },
            front: 0,
            back: count_along(rows, height, down) * across,
            of: PhantomData,
        }
    }
}
