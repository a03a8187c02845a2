//! Writes parts of arrays through mutable views. Each index outside the view keeps its element.
#![tactic(auto, using(nd_array_core::proofs::AxesOfDimensionTypes::known_axes))]

ghost use Rattle.std.specs.Prelude.{◌≡◌, ◌<◌, ℕ, List, ◌∷◌, [], length, slice_index, IsTrue};
ghost use Rattle.nd_array_core.specs.Prelude.{shape_of, place_at, rows_of, table_of, SameOtherRows, in_box, fits_axis, fits_shape, indexed_shape, axis_part, sliced_part, coordinate_part, diagonal_part, IsRefilled, KeepsBut, ClonesAreEqual};

use nd_array_core::prelude::*;

/// Fills a mutable view and drops it. It has no clause on the elements, because the callers below get what they know of
/// the array afterwards from the call that lent the view.
pub(crate) fn fill_lent<A: Clone + Drop, D: Dimension>(
    view: ArrayViewMut<'_, A, D>,
    value: A,
) -> Result<(), NoMemory>
    requires clones { ClonesAreEqual A.is_clone value }
{
    let mut view = view;
    view.fill(value)
}

/// Fills the part that a list of slices names.
pub fn fill_named<S: DataMut, D: Dimension, I: SliceArg<D>>(
    array: &mut ArrayBase<S, D>,
    info: I,
    value: S::Elem,
) -> Result<(), NoMemory>
where
    S::Elem: Clone + Drop,
    requires fits { IsTrue (fits_shape (shape_of array.old) (I.elements_of info)) }
    requires clones { ClonesAreEqual S.Elem.is_clone value }
    ensures shape { shape_of array.new ≡ shape_of array.old }
    ensures places { (i : List ℕ) → place_at array.new i ≡ place_at array.old i }
    ensures refilled { IsRefilled S.frame array.old array.new }
    ensures kept { KeepsBut array.old array.new (sliced_part array.old (I.elements_of info)) }
{
    fill_lent(array.slice_mut(info), value)
}

/// Exchanges the elements at the columns `first` and `second` of a row.
pub fn swap_in_row<S: DataMut>(
    image: &mut ArrayBase<S, Ix2>,
    row: usize,
    first: usize,
    second: usize,
)
    requires row { row < rows_of image.old }
    requires first { IsTrue (in_box (indexed_shape (shape_of image.old) 0) (first ∷ [])) }
    requires second { IsTrue (in_box (indexed_shape (shape_of image.old) 0) (second ∷ [])) }
    ensures shape { shape_of image.new ≡ shape_of image.old }
    ensures kept { KeepsBut image.old image.new (coordinate_part image.old 0 row) }
    ensures other_rows { SameOtherRows row (table_of image.old) (table_of image.new) }
{
    image.row_mut(row).swap([first], [second]);
}

/// Takes the part that `slice` names along `axis`, and writes `value` at each of `indexes` in it. Indexes outside the
/// part's shape are skipped.
pub fn write_in_part<S: DataMut, D: Dimension, I: NdIndex<D> + Copy>(
    array: &mut ArrayBase<S, D>,
    axis: Axis,
    slice: Slice,
    indexes: &[I],
    value: S::Elem,
)
where
    S::Elem: Copy + Drop,
    requires axis { axis.0 < length (shape_of array.old) }
    requires fits { IsTrue (fits_axis (slice_index (shape_of array.old) axis.0) slice) }
    ensures shape { shape_of array.new ≡ shape_of array.old }
    ensures kept { KeepsBut array.old array.new (axis_part array.old axis.0 slice) }
{
    let mut part = array.slice_axis_mut(axis, slice);
    for k in 0..indexes.len() {
        match part.get_mut(indexes[k]) {
            Some(element) => *element = value,
            None => (),
        }
    }
}

/// Fills the diagonal of an array.
pub fn fill_diagonal<S: DataMut, D: Dimension>(
    grid: &mut ArrayBase<S, D>,
    value: S::Elem,
) -> Result<(), NoMemory>
where
    S::Elem: Clone + Drop,
    requires clones { ClonesAreEqual S.Elem.is_clone value }
    ensures shape { shape_of grid.new ≡ shape_of grid.old }
    ensures places { (i : List ℕ) → place_at grid.new i ≡ place_at grid.old i }
    ensures kept { KeepsBut grid.old grid.new (diagonal_part grid.old) }
{
    fill_lent(grid.diag_mut(), value)
}

/// Fills the elements of an image whose coordinate along `axis` is `index`: a row or a column.
pub fn fill_line_at<S: DataMut<Elem = i64>>(
    image: &mut ArrayBase<S, Ix2>,
    axis: Axis,
    index: usize,
    value: i64,
) -> Result<(), NoMemory>
    requires axis { axis.0 < length (shape_of image.old) }
    requires index { index < slice_index (shape_of image.old) axis.0 }
    ensures shape { shape_of image.new ≡ shape_of image.old }
    ensures kept { KeepsBut image.old image.new (coordinate_part image.old axis.0 index) }
{
    fill_lent(image.index_axis_mut(axis, index), value)
}
