//! Copies of views, which are equal to what they are copied from.
#![tactic(auto, using(nd_array_core::proofs::AxesOfDimensionTypes::known_axes))]

ghost use Rattle.std.specs.Prelude.{◌≡◌, ◌+◌, ◌≤◌, ℕ, reverse, IfOk};
ghost use Rattle.nd_array_core.specs.Prelude.{meaning_of, shape_of, element_of_2, rows_of, columns_of, table_of, ShowsTable, cropped, flipped, mirrored, transposed, EachCloneIsEqual};
ghost use Rattle.uses_nd_array_core.specs.TransposedImages.{IsTransposed};

use crate::image_parts_as_views::crop;
use nd_array_core::prelude::*;
use std::alloc::Global;

/// Returns an owned, transposed copy of `matrix`.
pub fn transposed_copy<A: Clone + Drop, S: Data<Elem = A>>(
    alloc: Global,
    matrix: &ArrayBase<S, Ix2>,
) -> Result<Array2<A>, NoMemory>
    requires clones { EachCloneIsEqual A.is_clone }
    ensures shape { IfOk result (λ copy. shape_of copy ≡ reverse (shape_of matrix.now)) }
    ensures elements { IfOk result (λ copy. (i j : ℕ) → element_of_2 copy i j ≡ element_of_2 matrix.now j i) }
    ensures transposed { IfOk result (λ copy. IsTransposed (meaning_of matrix.now) (meaning_of copy)) }
{
    matrix.t().to_owned(alloc)
}

/// Returns a copy of a part of an image, with its columns in the opposite order. The part has `height` rows and `width`
/// columns, and its first pixel is at row `top` and column `left`. One body slices, inverts an axis and copies.
#[tactic(auto, using(std::proofs::lemmas::Bool::Decides::nat_tests, nd_array_core::proofs::AxesOfDimensionTypes::known_axes))]
pub fn cropped_and_mirrored<A: Clone + Drop, S: Data<Elem = A>>(
    alloc: Global,
    image: &ArrayBase<S, Ix2>,
    top: usize,
    left: usize,
    height: usize,
    width: usize,
) -> Result<Array2<A>, NoMemory>
    requires clones { EachCloneIsEqual A.is_clone }
    requires rows { top + height ≤ rows_of image.now }
    requires columns { left + width ≤ columns_of image.now }
    ensures { IfOk result (λ copy. ShowsTable copy (mirrored (cropped top left height width (table_of image.now)))) }
{
    let mut part = image.slice(s![top..top + height, left..left + width]);
    part.invert_axis(Axis(1));
    let copy = part.to_owned(alloc)?;
    Ok(copy)
}

/// Returns a transposed copy of a part of an image. The part has `height` rows and `width` columns, and its first pixel
/// is at row `top` and column `left`. The slice has a function of its own, `crop`, so that no proof file is needed.
#[tactic(auto, using(std::proofs::lemmas::Bool::Decides::nat_tests, nd_array_core::proofs::AxesOfDimensionTypes::known_axes))]
pub fn crop_transposed<A: Clone + Drop, S: Data<Elem = A>>(
    alloc: Global,
    image: &ArrayBase<S, Ix2>,
    top: usize,
    left: usize,
    height: usize,
    width: usize,
) -> Result<Array2<A>, NoMemory>
    requires clones { EachCloneIsEqual A.is_clone }
    requires rows { top + height ≤ rows_of image.now }
    requires columns { left + width ≤ columns_of image.now }
    ensures { IfOk result (λ copy. ShowsTable copy (transposed (cropped top left height width (table_of image.now)))) }
{
    crop(image, top, left, height, width)
        .reversed_axes()
        .to_owned(alloc)
}

/// Returns a copy of an image with its rows in the opposite order, by a slice of step -1.
#[tactic(auto, using(std::proofs::lemmas::Bool::Decides::nat_tests, nd_array_core::proofs::AxesOfDimensionTypes::known_axes))]
pub fn flipped_copy<A: Clone + Drop, S: Data<Elem = A>>(
    alloc: Global,
    image: &ArrayBase<S, Ix2>,
) -> Result<Array2<A>, NoMemory>
    requires clones { EachCloneIsEqual A.is_clone }
    ensures { IfOk result (λ copy. ShowsTable copy (flipped (table_of image.now))) }
{
    let part = image.slice(s![Slice::from(..).step_by(-1), ..]);
    let copy = part.to_owned(alloc)?;
    Ok(copy)
}
