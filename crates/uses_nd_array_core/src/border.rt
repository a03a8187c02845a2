//! Draws the border of an image by four writes: the first row, the last row, the first column and the last column.
#![tactic(auto, using(nd_array_core::proofs::AxesOfDimensionTypes::known_axes))]

ghost use Rattle.std.specs.Prelude.{◌≡◌, ◌∷◌, [], is_some, OnOk, IfOk, IsTrue};
ghost use Rattle.nd_array_core.specs.Prelude.{shape_of, element_at, rows_of, columns_of, coordinate_on, fits_shape, sliced_part, IsFilledWith, KeepsBut, ClonesAreEqual};
ghost use Rattle.uses_nd_array_core.specs.RowsColumnsAndBorders.{in_row, in_column, is_border, FillsWhere, KeepsOthers};

use nd_array_core::prelude::*;

const ALL: SliceInfoElem = SliceInfoElem::Slice {
    start: 0,
    end: None,
    step: 1,
};

/// Returns the number of rows and the number of columns of an image.
fn rows_and_columns<S: Data>(image: &ArrayBase<S, Ix2>) -> (usize, usize)
    ensures { shape_of image.now ≡ result.0 ∷ result.1 ∷ [] }
{
    image.dim()
}

/// Returns a clone of `value`.
fn copy_of<A: Clone>(value: &A) -> Result<A, NoMemory>
    requires { ClonesAreEqual A.is_clone value.now }
    ensures { IfOk result (λ copy. copy ≡ value.now) }
{
    let copy = value.clone()?;
    Ok(copy)
}

/// Fills the row or column of an image that a list of slices names; every other index keeps its element.
fn fill_line<A: Clone + Drop, S: DataMut<Elem = A>, I: SliceArg<Ix2>>(
    image: &mut ArrayBase<S, Ix2>,
    list: I,
    value: &A,
) -> Result<(), NoMemory>
    requires fits { IsTrue (fits_shape (shape_of image.old) (I.elements_of list)) }
    requires clones { ClonesAreEqual A.is_clone value.now }
    ensures shape { shape_of image.new ≡ shape_of image.old }
    ensures filled { OnOk result (IsFilledWith image.new (sliced_part image.old (I.elements_of list)) value.now) }
    ensures kept { KeepsBut image.old image.new (sliced_part image.old (I.elements_of list)) }
{
    let copy = copy_of(value)?;
    image.fill_slice(list, copy)?;
    Ok(())
}

/// Fills a row of the image; a negative number counts from the end. Every other index keeps its element. In ndarray:
/// `image.slice_mut(s![row, ..]).fill(value)`.
#[tactic(auto, using(std::proofs::lemmas::Bool::Decides::nat_tests, nd_array_core::proofs::AxesOfDimensionTypes::known_axes))]
pub fn fill_row<A: Clone + Drop, S: DataMut<Elem = A>>(
    image: &mut ArrayBase<S, Ix2>,
    row: isize,
    value: &A,
) -> Result<(), NoMemory>
    requires there { IsTrue (is_some (coordinate_on (rows_of image.old) row)) }
    requires clones { ClonesAreEqual A.is_clone value.now }
    ensures shape { shape_of image.new ≡ shape_of image.old }
    ensures filled { OnOk result (FillsWhere (in_row (shape_of image.old) row) value.now (element_at image.new)) }
    ensures kept { KeepsOthers (in_row (shape_of image.old) row) (element_at image.old) (element_at image.new) }
{
    fill_line(image, [SliceInfoElem::Index(row), ALL], value)
}

/// Fills a column of the image; a negative number counts from the end. Every other index keeps its element. In ndarray:
/// `image.slice_mut(s![.., column]).fill(value)`.
#[tactic(auto, using(std::proofs::lemmas::Bool::Decides::nat_tests, nd_array_core::proofs::AxesOfDimensionTypes::known_axes))]
pub fn fill_column<A: Clone + Drop, S: DataMut<Elem = A>>(
    image: &mut ArrayBase<S, Ix2>,
    column: isize,
    value: &A,
) -> Result<(), NoMemory>
    requires there { IsTrue (is_some (coordinate_on (columns_of image.old) column)) }
    requires clones { ClonesAreEqual A.is_clone value.now }
    ensures shape { shape_of image.new ≡ shape_of image.old }
    ensures filled { OnOk result (FillsWhere (in_column (shape_of image.old) column) value.now (element_at image.new)) }
    ensures kept { KeepsOthers (in_column (shape_of image.old) column) (element_at image.old) (element_at image.new) }
{
    fill_line(image, [ALL, SliceInfoElem::Index(column)], value)
}

/// Draws the border of an image: its first and last row and its first and last column get the value, and every other
/// index keeps its element, even if memory runs out. An image without elements has no border.
pub fn draw_border<A: Clone + Drop, S: DataMut<Elem = A>>(
    image: &mut ArrayBase<S, Ix2>,
    value: A,
) -> Result<(), NoMemory>
    requires clones { ClonesAreEqual A.is_clone value }
    ensures shape { shape_of image.new ≡ shape_of image.old }
    ensures drawn { OnOk result (FillsWhere (is_border (shape_of image.old)) value (element_at image.new)) }
    ensures kept { KeepsOthers (is_border (shape_of image.old)) (element_at image.old) (element_at image.new) }
{
    let (rows, columns) = rows_and_columns(image);
    if rows == 0 || columns == 0 {
        return Ok(());
    }
    fill_row(image, 0, &value)?;
    fill_row(image, -1, &value)?;
    fill_column(image, 0, &value)?;
    fill_column(image, -1, &value)
}
