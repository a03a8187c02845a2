//! Flattens images without a copy, reads elements from one slice, and flattens any array with a copy only if it is
//! needed.
#![tactic(auto)]

ghost use Rattle.std.specs.Prelude.{◌≡◌, ◌<◌, false, IfOk, IsTrue};
ghost use Rattle.nd_array_core.specs.Prelude.{meaning_of, shape_of, element_at, element_of_2, rows_of, table_of, row_of, IsStandardArray};
ghost use Rattle.uses_nd_array_core.specs.PixelLists.{IsPixelShape, ArePixelsByRank, ArePixels};
ghost use Rattle.uses_nd_array_core.specs.NumberSums.{line_sum};
ghost use Rattle.uses_nd_array_core.specs.TablesBuiltGrownAndReshaped.{IsInLine, ServesAsLine};

use nd_array_core::laws::{elements_by_rank, first_axes_joined, order_serves};
use nd_array_core::prelude::*;
use std::alloc::Global;

/// Returns a view of `image` with one row per pixel, in row-major order of the pixels. The image must be in the
/// standard layout. No element is cloned and no memory is allocated. Each element keeps its number in row-major order.
pub fn pixels_by_rank<'a, A: Clone + Drop, S: Data<Elem = A>>(
    alloc: Global,
    image: &'a ArrayBase<S, Ix3>,
) -> ArrayView2<'a, A>
    requires { IsStandardArray image.now }
    ensures shape { IsPixelShape (shape_of image.now) (shape_of result) }
    ensures elements { ArePixelsByRank (meaning_of image.now) (element_at result) }
{
    let (height, width, colours) = image.dim();
    order_serves(image);
    first_axes_joined(image);
    match image.to_shape(alloc, (height * width, colours)) {
        Ok(EitherArray::View(pixels)) => pixels,
        _ => unreachable!(),
    }
}

/// Returns the same view as `pixels_by_rank`, with a contract in coordinates: the pixels of each row follow the pixels
/// of the row before. No element is cloned and no memory is allocated.
pub fn pixels_seen<'a, A: Clone + Drop, S: Data<Elem = A>>(
    alloc: Global,
    image: &'a ArrayBase<S, Ix3>,
) -> ArrayView2<'a, A>
    requires { IsStandardArray image.now }
    ensures shape { IsPixelShape (shape_of image.now) (shape_of result) }
    ensures elements { ArePixels (meaning_of image.now) (element_of_2 result) }
{
    first_axes_joined(image);
    pixels_by_rank(alloc, image)
}

/// Returns the sum of a row, modulo 2 to the 64th, read from one slice. The image must be in the standard layout.
pub fn row_sum_of_slice<S: Data<Elem = u64>>(image: &ArrayBase<S, Ix2>, row: usize) -> u64
    requires standard { IsStandardArray image.now }
    requires row { row < rows_of image.now }
    ensures { result ≡ line_sum (row_of row (table_of image.now)) }
{
    let (_rows, columns) = image.dim();
    elements_by_rank(image);
    let pixels = image.as_slice().unwrap();
    let mut total: u64 = 0;
    for column in 0..columns {
        total = total.wrapping_add(pixels[row * columns + column]);
    }
    total
}

/// Flattens `array` in row-major order, and returns whether this needed no copy, and the element of number `rank`. The
/// element is `None` if there are too few elements.
#[tactic(auto, using(std::proofs::lemmas::Bool::Decides::nat_tests))]
pub fn number_in_line<S: Data<Elem = u64>, D: Dimension>(
    alloc: Global,
    array: &ArrayBase<S, D>,
    rank: usize,
) -> Result<(bool, Option<u64>), NoMemory>
    ensures seen { IfOk result (λ r. IsTrue r.0 → ServesAsLine array.now) }
    ensures copied { IfOk result (λ r. r.0 ≡ false → ¬ ServesAsLine array.now) }
    ensures number { IfOk result (λ r. IsInLine (meaning_of array.now) rank r.1) }
{
    match array.flatten(alloc) {
        Ok(EitherArray::View(line)) => Ok((true, line.get(rank).copied())),
        Ok(EitherArray::Owned(line)) => Ok((false, line.get(rank).copied())),
        Err(error) => Err(error),
    }
}
