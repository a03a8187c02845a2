//! Adds a column to each column of a table, by inserting an axis and broadcasting along it.
#![tactic(auto, using(std::proofs::lemmas::Bool::Decides::nat_tests, nd_array_core::proofs::AxesOfDimensionTypes::known_axes))]

ghost use Rattle.std.specs.Prelude.{◌≡◌, IsTrue};
ghost use Rattle.nd_array_core.specs.Prelude.{broadcasts, meaning_of, shape_of, rows_of, table_of, line_of, HasLength, ShowsTable};
ghost use Rattle.uses_nd_array_core_numbers.specs.RowAndColumnReductions.{IsBroadcastAdded, plus_column};

use nd_array_core::laws::shape_is_checked;
use nd_array_core::prelude::*;

/// Adds to each element of `table` the element of `other` at the same index, modulo 2 to the 64th. `other` is broadcast
/// to the shape of `table`.
fn add_broadcast<S: DataMut<Elem = u64>, Z: Data<Elem = u64>>(
    table: &mut ArrayBase<S, Ix2>,
    other: &ArrayBase<Z, Ix2>,
)
    requires { IsTrue (broadcasts (shape_of other.now) (shape_of table.old)) }
    ensures shape { shape_of table.new ≡ shape_of table.old }
    ensures elements { IsBroadcastAdded (meaning_of other.now) (meaning_of table.old) (meaning_of table.new) }
{
    table.zip_mut_with(other, |x, y| *x = x.wrapping_add(*y));
}

/// Adds to each number of `table` the element of `column` in the same row, modulo 2 to the 64th.
pub fn add_column<S: DataMut<Elem = u64>, Z: Data<Elem = u64>>(
    table: &mut ArrayBase<S, Ix2>,
    column: &ArrayBase<Z, Ix1>,
)
    requires { HasLength column.now (rows_of table.old) }
    ensures { ShowsTable table.new (plus_column (line_of column.now) (table_of table.old)) }
{
    shape_is_checked(table);
    let column = column.view().insert_axis(Axis(1));
    add_broadcast(table, &column);
}
