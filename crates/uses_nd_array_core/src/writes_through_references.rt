//! Functions that write one element through a reference. The shape stays, the element at the index becomes the new
//! value, and every other element stays as it was.
#![tactic(auto, using(nd_array_core::proofs::AxesOfDimensionTypes::known_axes))]

ghost use Rattle.std.specs.Prelude.{◌≡◌, ◌<◌, IsTrue};
ghost use Rattle.nd_array_core.specs.Prelude.{shape_of, rows_of, columns_of, table_of, in_box, with_cell, ShowsTable};
ghost use Rattle.uses_nd_array_core.specs.WritesAndFills.{WritesAt, WritesIfInside, WritesFirst};

use nd_array_core::prelude::*;

/// Writes `value` at `index`. The index must lie within the shape.
pub fn put<S: DataMut, D: Dimension, I: NdIndex<D>>(
    array: &mut ArrayBase<S, D>,
    index: I,
    value: S::Elem,
)
where
    S::Elem: Drop,
    requires { IsTrue (in_box (shape_of array.old) (I.coordinates_of index)) }
    ensures shape { shape_of array.new ≡ shape_of array.old }
    ensures elements { WritesAt (I.coordinates_of index) value array.old array.new }
{
    *array.uget_mut(index) = value;
}

/// Writes `value` at `index` if the index lies within the shape. Otherwise the array doesn't change.
pub fn try_put<S: DataMut, D: Dimension, I: NdIndex<D>>(
    array: &mut ArrayBase<S, D>,
    index: I,
    value: S::Elem,
)
where
    S::Elem: Drop,
    ensures shape { shape_of array.new ≡ shape_of array.old }
    ensures elements { WritesIfInside (I.coordinates_of index) value array.old array.new }
{
    match array.get_mut(index) {
        Some(element) => *element = value,
        None => (),
    }
}

/// Writes `value` at the index whose coordinates are all 0, if the array has elements.
pub fn try_put_first<S: DataMut, D: Dimension>(array: &mut ArrayBase<S, D>, value: S::Elem)
where
    S::Elem: Drop,
    ensures shape { shape_of array.new ≡ shape_of array.old }
    ensures elements { WritesFirst value array.old array.new }
{
    match array.first_mut() {
        Some(element) => *element = value,
        None => (),
    }
}

/// Writes the pixel of `image` at `row` and `column`, which must lie within its shape.
#[tactic(auto, using(std::proofs::lemmas::Bool::Decides::nat_tests, nd_array_core::proofs::AxesOfDimensionTypes::known_axes))]
pub fn put_pixel<S: DataMut>(
    image: &mut ArrayBase<S, Ix2>,
    row: usize,
    column: usize,
    value: S::Elem,
)
where
    S::Elem: Drop,
    requires row { row < rows_of image.old }
    requires column { column < columns_of image.old }
    ensures { ShowsTable image.new (with_cell row column value (table_of image.old)) }
{
    try_put(image, [row, column], value);
}
