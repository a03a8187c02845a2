//! Reserves capacity in arrays before elements are appended.
#![tactic(auto, using(std::proofs::lemmas::Bool::Decides::nat_tests, nd_array_core::proofs::AxesOfDimensionTypes::known_axes))]

ghost use Rattle.std.specs.Prelude.{◌≡◌, ◌*◌, ◌<◌, ℕ, IsTrue, Err, OnOk, slice_index};
ghost use Rattle.nd_array_core.specs.Prelude.{shape_of, columns_of, storage_of, element_of_1, element_of_2};
ghost use Rattle.nd_array_core.specs.growth.ReservedAlongAxis.{HasRoomFor};

use nd_array_core::prelude::*;

/// Tries to reserve capacity for `more` further elements of a list, and returns whether that succeeded.
pub fn has_room<A>(list: &mut Array1<A>, more: usize) -> bool
    ensures room { IsTrue result → HasRoomFor more (storage_of list.new) }
    ensures same { (i : ℕ) → element_of_1 list.new i ≡ element_of_1 list.old i }
{
    list.reserve(Axis(0), more).is_ok()
}

/// Reserves capacity for `rows` further rows of a table.
pub fn room_for_rows<A>(table: &mut Array2<A>, rows: usize) -> Result<(), ArrayError>
    ensures room { OnOk result (HasRoomFor (rows * columns_of table.old) (storage_of table.new)) }
    ensures same { (row column : ℕ) → element_of_2 table.new row column ≡ element_of_2 table.old row column }
{
    table.reserve_rows(rows)
}

/// Tries to reserve capacity for `usize::MAX` further elements of a list. Fails with `Overflow` if the list has
/// elements. An empty list is left as it is.
pub fn room_for_too_many<A>(list: &mut Array1<A>) -> Result<(), ArrayError>
    ensures refused { 0 < slice_index (shape_of list.old) 0 → result ≡ Err (ArrayError.Shape ErrorKind.Overflow) }
    ensures same { (i : ℕ) → element_of_1 list.new i ≡ element_of_1 list.old i }
{
    if list.dim() == 0 {
        return Ok(());
    }
    list.reserve(Axis(0), usize::MAX)
}
