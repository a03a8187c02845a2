//! Changes the elements of an array in place by a closure that gets the index too.
#![tactic(auto, using(nd_array_core::proofs::AxesOfDimensionTypes::known_axes))]

ghost use Rattle.std.specs.Prelude.{◌≡◌};
ghost use Rattle.nd_array_core.specs.Prelude.{shape_of, element_at, IsMappedByIndex};
ghost use Rattle.uses_nd_array_core_numbers.specs.TimesTableAndClamping.{one_higher, times_table};

use nd_array_core::IntoPattern;
use nd_array_core::prelude::*;

/// Writes the multiplication table: each element becomes the product of its row and its column, modulo 2 to the 64th.
pub fn write_times_table<S: DataMut<Elem = u64>>(table: &mut ArrayBase<S, Ix2>)
    ensures shape { shape_of table.new ≡ shape_of table.old }
    ensures products { IsMappedByIndex times_table (element_at table.old) (element_at table.new) }
{
    table.indexed_map_inplace(|(row, column), x| *x = (row as u64).wrapping_mul(column as u64));
}

/// Adds 1 to each number, modulo 2 to the 64th, whatever its index.
pub fn raise_all<S: DataMut<Elem = u64>, D: IntoPattern>(array: &mut ArrayBase<S, D>)
where
    D::Pattern: Drop,
    ensures shape { shape_of array.new ≡ shape_of array.old }
    ensures elements { IsMappedByIndex (λ _. one_higher) (element_at array.old) (element_at array.new) }
{
    array.indexed_map_inplace(|_, x| *x = x.wrapping_add(1));
}
