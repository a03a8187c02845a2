//! Fills a rectangle of an image, and blocks on its diagonal. The contracts are stated in rows and columns.
//! `fill_rectangle` has a proof file of one line for what stays around the rectangle, and the other function one for the
//! invariant of its loop. Ending a body by `?` and `Ok(())` lets the proof use the contract of the fill. A private
//! function, `fill_named`, states what callers in rows and columns need of that contract.
#![tactic(auto, using(nd_array_core::proofs::AxesOfDimensionTypes::known_axes))]

ghost use Rattle.std.specs.Prelude.{◌≡◌, ◌<◌, ◌≤◌, ◌+◌, OnOk, IsTrue};
ghost use Rattle.nd_array_core.specs.Prelude.{shape_of, rows_of, columns_of, table_of, fits_shape, HasRectangle, SameAround, FillsNamed, KeepsOtherIndexes, ClonesAreEqual};
ghost use Rattle.uses_nd_array_core.specs.RowsColumnsAndBorders.{HasBlocks, SameOffBlocks};

use nd_array_core::laws::quotients;
use nd_array_core::prelude::*;

/// Fills the part that a list of slices names. This is `fill_slice` with only those clauses that callers in rows and
/// columns need.
fn fill_named<A: Clone + Drop, S: DataMut<Elem = A>, I: SliceArg<Ix2>>(
    image: &mut ArrayBase<S, Ix2>,
    list: I,
    colour: A,
) -> Result<(), NoMemory>
    requires fits { IsTrue (fits_shape (shape_of image.old) (I.elements_of list)) }
    requires clones { ClonesAreEqual A.is_clone colour }
    ensures shape { shape_of image.new ≡ shape_of image.old }
    ensures named { OnOk result (FillsNamed image.old image.new (I.elements_of list) colour) }
    ensures unnamed { KeepsOtherIndexes image.old image.new (I.elements_of list) }
{
    image.fill_slice(list, colour)?;
    Ok(())
}

/// Fills the rectangle of `height` rows and `width` columns whose first pixel is at row `top` and column `left`.
#[tactic(auto, using(std::proofs::lemmas::Bool::Decides::nat_tests, nd_array_core::proofs::AxesOfDimensionTypes::known_axes))]
pub fn fill_rectangle<A: Clone + Drop, S: DataMut<Elem = A>>(
    image: &mut ArrayBase<S, Ix2>,
    top: usize,
    left: usize,
    height: usize,
    width: usize,
    colour: A,
) -> Result<(), NoMemory>
    requires clones { ClonesAreEqual A.is_clone colour }
    requires rows { top + height ≤ rows_of image.old }
    requires columns { left + width ≤ columns_of image.old }
    ensures shape { shape_of image.new ≡ shape_of image.old }
    ensures within { OnOk result (HasRectangle top left height width colour (table_of image.new)) }
    ensures around { SameAround top left height width (table_of image.old) (table_of image.new) }
{
    fill_named(
        image,
        slices![top..top + height, left..left + width],
        colour,
    )
}

/// Fills the square blocks of `size` rows and columns along the diagonal of a matrix. Blocks end where the matrix ends.
#[tactic(auto, using(std::proofs::lemmas::Bool::Decides::nat_tests, nd_array_core::proofs::AxesOfDimensionTypes::known_axes))]
pub fn fill_diagonal_blocks<A: Copy + Drop, S: DataMut<Elem = A>>(
    matrix: &mut ArrayBase<S, Ix2>,
    size: usize,
    value: A,
)
    requires size { 0 < size }
    ensures shape { shape_of matrix.new ≡ shape_of matrix.old }
    ensures within { HasBlocks size value (table_of matrix.new) }
    ensures outside { SameOffBlocks size (table_of matrix.old) (table_of matrix.new) }
{
    let (rows, columns) = matrix.dim();
    for row in 0..rows {
        quotients(size, row / size);
        let from = row / size * size;
        for column in from..from.saturating_add(size).min(columns) {
            matrix[[row, column]] = value;
        }
    }
}
