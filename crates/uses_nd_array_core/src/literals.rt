//! Arrays whose numbers are written out in the source, and views of built-in arrays. The contracts state elements by
//! their coordinates.
#![tactic(auto, using(nd_array_core::proofs::AxesOfDimensionTypes::known_axes))]

ghost use Rattle.std.specs.Prelude.{◌≡◌, ◌∷◌, [], IfOk, Some, pos, slice_get, flat_map};
ghost use Rattle.nd_array_core.specs.Prelude.{shape_of, element_at, element_of_1, element_of_2, element_of_3, HasLength, HasRowsAndColumns};

use nd_array_core::prelude::*;
use std::alloc::Global;

/// Returns the squares of 1, 2 and 3.
pub fn squares(alloc: Global) -> Result<Array1<u8>, NoMemory>
    ensures shape { IfOk result (λ list. HasLength list 3) }
    ensures last { IfOk result (λ list. element_of_1 list 2 ≡ Some 9) }
{
    array![in alloc; 1, 4, 9]
}

/// Returns a table of two rows and three columns.
pub fn two_rows(alloc: Global) -> Result<Array2<i32>, NoMemory>
    ensures shape { IfOk result (λ table. HasRowsAndColumns table 2 3) }
    ensures last { IfOk result (λ table. element_of_2 table 1 2 ≡ Some (pos 6)) }
{
    array![in alloc; [1, 2, 3], [4, 5, 6]]
}

/// Returns an array of two blocks of two rows and two columns each.
pub fn two_blocks(alloc: Global) -> Result<Array3<u64>, NoMemory>
    ensures shape { IfOk result (λ blocks. shape_of blocks ≡ 2 ∷ 2 ∷ 2 ∷ []) }
    ensures first { IfOk result (λ blocks. element_of_3 blocks 0 0 1 ≡ Some 2) }
    ensures last { IfOk result (λ blocks. element_of_3 blocks 1 1 0 ≡ Some 7) }
{
    array![in alloc; [[1, 2], [3, 4]], [[5, 6], [7, 8]]]
}

/// Returns an array without axes whose only element is `number`.
pub fn one_number(alloc: Global, number: u64) -> Result<Array0<u64>, NoMemory>
    ensures { IfOk result (λ one. element_at one [] ≡ Some number) }
{
    arr0(alloc, number)
}

/// Returns the element in the middle of three rows of three.
pub fn middle(cells: &[[u8; 3]; 3]) -> u8
    ensures { slice_get (flat_map (λ row. row) cells.now) 4 ≡ Some result }
{
    aview2(cells)[[1, 1]]
}
