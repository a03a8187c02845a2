//! Views of images, with contracts in rows and columns. None of these functions has a proof file, and all but a few
//! take every storage and every element type.
#![tactic(auto, using(nd_array_core::proofs::AxesOfDimensionTypes::known_axes))]

ghost use Rattle.std.specs.Prelude.{◌↔◌, ◌≡◌, ◌<◌, ◌≤◌, ◌+◌, ◌-◌, length, replicate, slice_index, IsSome, IfSome, option_copied};
ghost use Rattle.nd_array_core.specs.Prelude.{shape_of, element_at, element_of_2, rows_of, columns_of, table_of, channel_of, ShowsTable, ShowsLine, cropped, row_of, column_of, diagonal_of, line_part, turned_half, transposed};
ghost use Rattle.uses_nd_array_core.specs.MatrixProductsAndBlurs.{HasNeighbours};

use nd_array_core::prelude::*;

/// Turns an image by 180 degrees.
#[tactic(auto, using(std::proofs::lemmas::Bool::Decides::nat_tests, nd_array_core::proofs::AxesOfDimensionTypes::known_axes))]
pub fn turn_half<S: Data>(image: &mut ArrayBase<S, Ix2>)
    ensures { ShowsTable image.new (turned_half (table_of image.old)) }
{
    image.invert_axis(Axis(0));
    image.invert_axis(Axis(1));
}

/// Returns the part of `image` that has `height` rows and `width` columns and whose first pixel is at row `top` and
/// column `left`.
#[tactic(auto, using(std::proofs::lemmas::Bool::Decides::nat_tests, nd_array_core::proofs::AxesOfDimensionTypes::known_axes))]
pub fn crop<'a, S: Data>(
    image: &'a ArrayBase<S, Ix2>,
    top: usize,
    left: usize,
    height: usize,
    width: usize,
) -> ArrayView2<'a, S::Elem>
    requires rows { top + height ≤ rows_of image.now }
    requires columns { left + width ≤ columns_of image.now }
    ensures { ShowsTable result (cropped top left height width (table_of image.now)) }
{
    image.slice(s![top..top + height, left..left + width])
}

/// Returns the part of three rows and three columns around the pixel at `row` and `column`, or `None` if the pixel has
/// no such neighbours.
pub fn neighbourhood<'a, S: Data>(
    image: &'a ArrayBase<S, Ix2>,
    row: usize,
    column: usize,
) -> Option<ArrayView2<'a, S::Elem>>
    ensures some { IsSome result ↔ HasNeighbours (table_of image.now) row column }
    ensures part { IfSome result (λ part. ShowsTable part (cropped (row - 1) (column - 1) 3 3 (table_of image.now))) }
{
    let (rows, columns) = image.dim();
    if row < 1
        || column < 1
        || row >= rows.saturating_sub(1)
        || column >= columns.saturating_sub(1)
    {
        return None;
    }
    Some(crop(image, row - 1, column - 1, 3, 3))
}

/// Returns the diagonal of a matrix, which is as long as the shorter axis.
#[tactic(auto, using(std::proofs::lemmas::Bool::Decides::nat_tests, nd_array_core::proofs::AxesOfDimensionTypes::known_axes))]
pub fn diagonal_seen<S: Data>(matrix: &ArrayBase<S, Ix2>) -> ArrayView1<'_, S::Elem>
    ensures { ShowsLine result (diagonal_of (table_of matrix.now)) }
{
    matrix.diag()
}

/// Returns the second column of an image without its first element. The image must have two columns and one row at
/// least.
pub fn second_column<S: Data>(image: &ArrayBase<S, Ix2>) -> ArrayView1<'_, S::Elem>
    requires columns { 1 < columns_of image.now }
    requires rows { 1 ≤ rows_of image.now }
    ensures { ShowsLine result (line_part 1 (rows_of image.now - 1) (column_of 1 (table_of image.now))) }
{
    image.slice(s![1.., 1])
}

/// Returns the elements `from..to` of row `row` of the transposed image, by three calls. They are a part of a column of
/// the image.
#[tactic(auto, using(std::proofs::lemmas::Bool::Decides::nat_tests, nd_array_core::proofs::AxesOfDimensionTypes::known_axes))]
pub fn part_of_transposed_row<S: Data>(
    image: &ArrayBase<S, Ix2>,
    row: usize,
    from: usize,
    to: usize,
) -> ArrayView1<'_, S::Elem>
    requires row { row < columns_of image.now }
    requires from { from ≤ to }
    requires to { to ≤ rows_of image.now }
    ensures { ShowsLine result (line_part from (to - from) (row_of row (transposed (table_of image.now)))) }
{
    let part = image.t().slice_axis_move(Axis(1), Slice::between(from, to));
    part.index_axis_move(Axis(0), row)
}

/// Returns the element at the index whose coordinates are all 0, or `None` if there are no elements.
pub fn corner<S: Data, D: Dimension>(array: &ArrayBase<S, D>) -> Option<&S::Elem>
    ensures element { option_copied result ≡ element_at array.now (replicate (length (shape_of array.now)) 0) }
{
    array.get(D::zeros(array.ndim()))
}

/// Returns one channel of an image whose three axes are rows, columns and channels.
#[tactic(auto, using(std::proofs::lemmas::Bool::Decides::nat_tests, nd_array_core::proofs::AxesOfDimensionTypes::known_axes))]
pub fn channel<S: Data>(image: &ArrayBase<S, Ix3>, channel: usize) -> ArrayView2<'_, S::Elem>
    requires { channel < slice_index (shape_of image.now) 2 }
    ensures { ShowsTable result (channel_of channel image.now) }
{
    image.index_axis(Axis(2), channel)
}

/// Returns the element of a row at `column`, or `None` if the row is shorter.
pub fn in_row<A: Copy, S: Data<Elem = A>>(
    image: &ArrayBase<S, Ix2>,
    row: usize,
    column: usize,
) -> Option<A>
    requires { row < rows_of image.now }
    ensures { result ≡ element_of_2 image.now row column }
{
    image.row(row).get(column).copied()
}
