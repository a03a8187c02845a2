//! Reads, looks up, writes and exchanges elements at tuples of coordinates, as in `a[(i, j)]`.
#![tactic(auto, using(std::proofs::lemmas::Bool::Decides::nat_tests, nd_array_core::proofs::AxesOfDimensionTypes::known_axes))]

ghost use Rattle.std.specs.Prelude.{◌≡◌, ◌<◌, ◌∷◌, [], Some, option_copied};
ghost use Rattle.nd_array_core.specs.Prelude.{shape_of, rows_of, columns_of, element_at, element_of_2, element_of_3};
ghost use Rattle.uses_nd_array_core.specs.WritesAndFills.{WritesAt, SwapsAcross};

use nd_array_core::prelude::*;

/// Returns the element of a table at `row` and `column`, which must lie within its shape.
pub fn cell<A: Copy, S: Data<Elem = A>>(table: &ArrayBase<S, Ix2>, row: usize, column: usize) -> A
    requires row { row < rows_of table.now }
    requires column { column < columns_of table.now }
    ensures { element_of_2 table.now row column ≡ Some result }
{
    table[(row, column)]
}

/// Returns the element of an image at `row`, `column` and `channel`, or `None` if that index lies outside the shape.
pub fn sample<S: Data>(
    image: &ArrayBase<S, Ix3>,
    row: usize,
    column: usize,
    channel: usize,
) -> Option<&S::Elem>
    ensures { option_copied result ≡ element_of_3 image.now row column channel }
{
    image.get((row, column, channel))
}

/// Returns the only element of an array without axes.
pub fn only<S: Data>(array: &ArrayBase<S, Ix0>) -> Option<&S::Elem>
    ensures { option_copied result ≡ element_at array.now [] }
{
    array.get(())
}

/// Writes `value` at `row` and `column` of a table, which must lie within its shape. Every other element stays as it
/// was.
pub fn put_cell<A: Drop, S: DataMut<Elem = A>>(
    table: &mut ArrayBase<S, Ix2>,
    row: usize,
    column: usize,
    value: A,
)
    requires row { row < rows_of table.old }
    requires column { column < columns_of table.old }
    ensures shape { shape_of table.new ≡ shape_of table.old }
    ensures elements { WritesAt (row ∷ column ∷ []) value table.old table.new }
{
    table[(row, column)] = value;
}

/// Exchanges the element of a square table at `row` and `column` with the element at row `column` and column `row`.
pub fn exchange_across<S: DataMut>(table: &mut ArrayBase<S, Ix2>, row: usize, column: usize)
    requires row { row < rows_of table.old }
    requires column { column < columns_of table.old }
    requires square { rows_of table.old ≡ columns_of table.old }
    ensures shape { shape_of table.new ≡ shape_of table.old }
    ensures elements { SwapsAcross row column table.old table.new }
{
    table.swap((row, column), (column, row));
}
