//! Copies images into parts of an image, or changes the elements of a part by a closure. The contracts are stated in
//! rows and columns.
#![tactic(auto, using(nd_array_core::proofs::AxesOfDimensionTypes::known_axes))]

ghost use Rattle.std.specs.Prelude.{◌≡◌, ◌+◌, ◌≤◌, OnOk, IsTrue};
ghost use Rattle.nd_array_core.specs.Prelude.{shape_of, element_at, rows_of, columns_of, table_of, MapsRectangle, HasPatch, SameAround, SameAroundPatch, fits_shape, KeepsOtherIndexes, AssignsNamed, FitsPart, ClonesOfAllAreEqual};
ghost use Rattle.uses_nd_array_core.specs.RowsColumnsAndBorders.{IsInside, SameOnBorder};
ghost use Rattle.uses_nd_array_core.specs.NumberSums.{twice};

use nd_array_core::prelude::*;

/// Doubles, modulo 2 to the 64th, each pixel of the rectangle of `height` rows and `width` columns whose first pixel is
/// at row `top` and column `left`.
#[tactic(auto, using(std::proofs::lemmas::Bool::Decides::nat_tests, nd_array_core::proofs::AxesOfDimensionTypes::rows_and_columns, nd_array_core::proofs::AxesOfDimensionTypes::length_short))]
pub fn double_rectangle<S: DataMut<Elem = u64>>(
    image: &mut ArrayBase<S, Ix2>,
    top: usize,
    left: usize,
    height: usize,
    width: usize,
)
    requires rows { top + height ≤ rows_of image.old }
    requires columns { left + width ≤ columns_of image.old }
    ensures shape { shape_of image.new ≡ shape_of image.old }
    ensures within { MapsRectangle top left height width twice (table_of image.old) (table_of image.new) }
    ensures around { SameAround top left height width (table_of image.old) (table_of image.new) }
{
    image.map_slice(
        slices![top..top + height, left..left + width],
        |x| *x = x.wrapping_mul(2),
    );
}

/// Copies `patch` into the part that a list of slices names. This is `assign_slice` with only those clauses that
/// callers in rows and columns need.
fn assign_named<A: Clone + Drop, S: DataMut<Elem = A>, Z: Data<Elem = A>, I: SliceArg<Ix2>>(
    image: &mut ArrayBase<S, Ix2>,
    list: I,
    patch: &ArrayBase<Z, Ix2>,
) -> Result<(), NoMemory>
    requires fits { IsTrue (fits_shape (shape_of image.old) (I.elements_of list)) }
    requires same { FitsPart image.old (I.elements_of list) patch.now }
    requires clones { ClonesOfAllAreEqual A.is_clone (element_at patch.now) }
    ensures shape { shape_of image.new ≡ shape_of image.old }
    ensures named { OnOk result (AssignsNamed image.old image.new (I.elements_of list) patch.now) }
    ensures unnamed { KeepsOtherIndexes image.old image.new (I.elements_of list) }
{
    image.assign_slice(list, patch)?;
    Ok(())
}

/// Copies `patch` into `image`, with its first pixel at row `top` and column `left`. Fails with `NoMemory` if a clone
/// is refused.
#[tactic(auto, using(std::proofs::lemmas::Bool::Decides::nat_tests, nd_array_core::proofs::AxesOfDimensionTypes::known_axes))]
pub fn patch_rectangle<A: Clone + Drop, S: DataMut<Elem = A>, Z: Data<Elem = A>>(
    image: &mut ArrayBase<S, Ix2>,
    patch: &ArrayBase<Z, Ix2>,
    top: usize,
    left: usize,
) -> Result<(), NoMemory>
    requires clones { ClonesOfAllAreEqual A.is_clone (element_at patch.now) }
    requires rows { top + rows_of patch.now ≤ rows_of image.old }
    requires columns { left + columns_of patch.now ≤ columns_of image.old }
    ensures shape { shape_of image.new ≡ shape_of image.old }
    ensures within { OnOk result (HasPatch top left (table_of patch.now) (table_of image.new)) }
    ensures around { SameAroundPatch top left (table_of patch.now) (table_of image.old) (table_of image.new) }
{
    let (rows, columns) = patch.dim();
    assign_named(image, slices![top..top + rows, left..left + columns], patch)
}

/// Copies `image` into the inside of `board`, which must have two more rows and two more columns. The border of the
/// board stays as it is. Fails with `NoMemory` if a clone is refused.
pub fn put_inside<A: Clone + Drop, S: DataMut<Elem = A>, Z: Data<Elem = A>>(
    board: &mut ArrayBase<S, Ix2>,
    image: &ArrayBase<Z, Ix2>,
) -> Result<(), NoMemory>
    requires clones { ClonesOfAllAreEqual A.is_clone (element_at image.now) }
    requires rows { rows_of board.old ≡ rows_of image.now + 2 }
    requires columns { columns_of board.old ≡ columns_of image.now + 2 }
    ensures shape { shape_of board.new ≡ shape_of board.old }
    ensures inside { OnOk result (IsInside (table_of image.now) (table_of board.new)) }
    ensures border { SameOnBorder (table_of board.old) (table_of board.new) }
{
    patch_rectangle(board, image, 1, 1)
}
