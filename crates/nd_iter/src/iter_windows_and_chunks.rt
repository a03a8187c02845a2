//! Iterators over a whole array.

ghost use Rattle.std.specs.Prelude.{◌≡◌, ◌<◌};
ghost use Rattle.std.specs.Iterator.{YieldsFirstRef, YieldsLastRef};
ghost use Rattle.std.specs.Iterator.Runs.{YieldsRefsInOrder, YieldsRefsInReverse};
ghost use Rattle.nd_array_core.specs.ArrayMeaning.{meaning_of};
ghost use Rattle.nd_array_core.specs.ConcatenationAndSplit.{row_major_elements};
ghost use Rattle.nd_iter.specs.WindowsAndBlocks.{parts_of};

use crate::elements::Iter;
use crate::windows_and_blocks::TableParts;
use nd_array_core::{ArrayBase, Data};
use nd_shape_and_slice::{Dimension, Ix2};

/// Returns an iterator over the elements in row-major order. This is ndarray's `iter`.
pub fn iter<A, S: Data<Elem = A>, D: Dimension>(array: &ArrayBase<S, D>) -> Iter<'_, A, S, D>
    ensures rest { result ≡ row_major_elements (meaning_of array.now) }
    ensures runs { YieldsRefsInOrder (YieldsFirstRef {A = A} (λ rest. rest)) (λ rest. rest) }
    ensures runs_back { YieldsRefsInReverse (YieldsLastRef {A = A} (λ rest. rest)) (λ rest. rest) }
{
    Iter::over(array)
}

/// Returns an iterator over the parts of `height` rows and `width` columns of a table. A part begins at each row and
/// column from which it fits, and the parts come in row-major order of where they begin. `height` and `width` must not
/// be 0. This is ndarray's `windows` for an array with two axes.
pub fn windows<A, S: Data<Elem = A>>(
    table: &ArrayBase<S, Ix2>,
    height: usize,
    width: usize,
) -> TableParts<'_, A, S>
    requires height { 0 < height }
    requires width { 0 < width }
    ensures { result ≡ parts_of (meaning_of table.now) height width 1 1 }
{
    TableParts::over(table, height, width, 1, 1)
}

/// Returns an iterator over parts of `height` rows and `width` columns of a table. A part begins at each `down`-th row
/// and each `right`-th column, from the first on, if it fits there, and the parts come in row-major order of where they
/// begin. None of the four numbers may be 0. This is ndarray's `windows_with_stride` for an array with two axes.
pub fn windows_with_stride<A, S: Data<Elem = A>>(
    table: &ArrayBase<S, Ix2>,
    height: usize,
    width: usize,
    down: usize,
    right: usize,
) -> TableParts<'_, A, S>
    requires height { 0 < height }
    requires width { 0 < width }
    requires down { 0 < down }
    requires right { 0 < right }
    ensures { result ≡ parts_of (meaning_of table.now) height width down right }
{
    TableParts::over(table, height, width, down, right)
}

/// Returns an iterator over the blocks of `height` rows and `width` columns of a table, which lie side by side and come
/// in row-major order. Rows and columns at the end that make no whole block are left out. `height` and `width` must not
/// be 0. This is ndarray's `exact_chunks` for an array with two axes.
pub fn exact_chunks<A, S: Data<Elem = A>>(
    table: &ArrayBase<S, Ix2>,
    height: usize,
    width: usize,
) -> TableParts<'_, A, S>
    requires height { 0 < height }
    requires width { 0 < width }
    ensures { result ≡ parts_of (meaning_of table.now) height width height width }
{
    TableParts::over(table, height, width, height, width)
}
