//! Borrows all elements of an array as one slice, if the layout allows it, and states what the array then holds. No
//! function of this file has a proof file.
#![tactic(auto)]

ghost use Rattle.std.specs.Prelude.{◌↔◌, ◌≡◌, ◌<◌, false, IsTrue};
ghost use Rattle.nd_array_core.specs.Prelude.{shape_of, element_at, size_of, KeepsFrame, IsStandardArray, IsRunArray};
ghost use Rattle.uses_nd_array_core.specs.WritesAndFills.{FillsBox, SameElements, FillsRank, SameOffRank};

use nd_array_core::laws::elements_by_rank;
use nd_array_core::prelude::*;

/// Writes `value` at each index if the array is in the standard layout. Otherwise nothing changes. Returns whether the
/// array is in the standard layout.
pub fn fill_standard<S: DataMut<Elem = u64>, D: Dimension>(
    array: &mut ArrayBase<S, D>,
    value: u64,
) -> bool
    ensures standard { IsTrue result ↔ IsStandardArray array.old }
    ensures frame { KeepsFrame S.frame array.old array.new }
    ensures shape { shape_of array.new ≡ shape_of array.old }
    ensures filled { IsTrue result → FillsBox (shape_of array.old) value (element_at array.new) }
    ensures unchanged { result ≡ false → SameElements (element_at array.old) (element_at array.new) }
{
    elements_by_rank(array);
    let (numbers, standard) = array.lend_slice();
    if !standard {
        return false;
    }
    numbers.fill(value);
    true
}

/// Writes `value` at each index if the places of the elements are contiguous, whatever the order of the axes. Otherwise
/// nothing changes. Returns whether the places are contiguous.
pub fn fill_run_lent<S: DataMut<Elem = u64>, D: Dimension>(
    array: &mut ArrayBase<S, D>,
    value: u64,
) -> bool
    ensures run { IsTrue result ↔ IsRunArray array.old }
    ensures shape { shape_of array.new ≡ shape_of array.old }
    ensures filled { IsTrue result → FillsBox (shape_of array.old) value (element_at array.new) }
    ensures unchanged { result ≡ false → SameElements (element_at array.old) (element_at array.new) }
{
    let (numbers, run) = array.lend_slice_memory_order();
    numbers.fill(value);
    run
}

/// Writes `value` to the element of number `rank` in row-major order, if the array is in the standard layout. Otherwise
/// nothing changes. Returns whether the array is in the standard layout.
pub fn put_at_rank<S: DataMut<Elem = u64>, D: Dimension>(
    array: &mut ArrayBase<S, D>,
    rank: usize,
    value: u64,
) -> bool
    requires { rank < size_of (shape_of array.old) }
    ensures standard { IsTrue result ↔ IsStandardArray array.old }
    ensures shape { shape_of array.new ≡ shape_of array.old }
    ensures named { IsTrue result → FillsRank (shape_of array.old) rank value (element_at array.new) }
    ensures others { SameOffRank (shape_of array.old) rank (element_at array.old) (element_at array.new) }
    ensures unchanged { result ≡ false → SameElements (element_at array.old) (element_at array.new) }
{
    elements_by_rank(array);
    let (numbers, standard) = array.lend_slice();
    if !standard {
        return false;
    }
    numbers[rank] = value;
    true
}
