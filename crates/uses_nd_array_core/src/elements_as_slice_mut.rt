//! Writes the elements of arrays as one slice, without indexes.
#![tactic(auto)]

ghost use Rattle.std.specs.Prelude.{◌↔◌, ◌≡◌, ◌<◌, ◌∷◌, [], ⊤, ℕ, false, length, slice_get, IsTrue, option_map};
ghost use Rattle.nd_array_core.specs.Prelude.{shape_of, element_at, place_at, element_of_2, rows_of, columns_of, table_of, coordinate_part, KeepsBut, view_frame, lent_frame, CanBeSeen, IsStandardArray, IsRunArray, LiesByRank};
ghost use Rattle.uses_nd_array_core.specs.FilledAndCopiedParts.{IsViewByRank, IsBoxFilled, IsViewUnchanged};
ghost use Rattle.uses_nd_array_core.specs.NumberSums.{twice};
ghost use Rattle.uses_nd_array_core.specs.WritesAndFills.{FillsBox, MapsBox, FillsWhereByRank, FillsRow, SameRow};

use crate::slice_if_contiguous::fill_standard;
use nd_array_core::ViewMutRepr;
use nd_array_core::laws::{elements_by_rank, standard_by_places};
use nd_array_core::prelude::*;
use nd_array_core::scoped::{LentView, ViewTask};

/// Doubles each number of a slice, modulo 2 to the 64th.
fn double_all(numbers: &mut [u64])
    ensures long { length numbers.new ≡ length numbers.old }
    ensures doubled { (k : ℕ) → slice_get numbers.new k ≡ option_map twice (slice_get numbers.old k) }
{
    for k in 0..numbers.len() {
        numbers[k] = numbers[k].wrapping_mul(2);
    }
}

/// Doubles each number of an array, modulo 2 to the 64th. The array must be in the standard layout.
pub fn double_each<S: DataMut<Elem = u64>, D: Dimension>(array: &mut ArrayBase<S, D>)
    requires { IsStandardArray array.old }
    ensures shape { shape_of array.new ≡ shape_of array.old }
    ensures elements { MapsBox (shape_of array.old) twice (element_at array.old) (element_at array.new) }
{
    elements_by_rank(array);
    double_all(array.elements_mut());
}

/// Writes `value` at each index. The places of the elements must be contiguous, in whatever order of the axes.
pub fn fill_run<S: DataMut<Elem = u64>, D: Dimension>(array: &mut ArrayBase<S, D>, value: u64)
    requires { IsRunArray array.old }
    ensures shape { shape_of array.new ≡ shape_of array.old }
    ensures elements { FillsBox (shape_of array.old) value (element_at array.new) }
{
    array.elements_memory_order_mut().fill(value);
}

/// A task that writes `value` at each index of a view as one slice, if the view is in the standard layout. Otherwise
/// nothing changes. Its answer is whether the view is in the standard layout.
#[derive(Drop)]
struct FillAsSlice {
    value: u64,
}

impl<D: Dimension> ViewTask<u64, D> for FillAsSlice {
    type Answer = bool;

    ghost pre = { λ _ _. ⊤ };

    ghost post = { λ task v w lies. FillsWhereByRank v task.value w lies };

    fn run(self, lent: LentView<'_, u64, D, D::Strides>) -> (ViewMutRepr<'_, u64>, bool)
        requires sound { CanBeSeen D.lengths D.Strides.strides_of lent }
        ensures frame { view_frame result.0 ≡ lent_frame lent.entry }
        ensures lies { IsTrue result.1 ↔ IsViewByRank D.lengths D.Strides.strides_of lent.entry }
        ensures filled { IsTrue result.1 → IsBoxFilled D.lengths D.Strides.strides_of lent.entry result.0 self.value }
        ensures unchanged { result.1 ≡ false → IsViewUnchanged D.lengths D.Strides.strides_of lent.entry result.0 }
    {
        let mut view = lent.into_view();
        standard_by_places(&view);
        let lies = fill_standard(&mut view, self.value);
        (view.into_storage(), lies)
    }
}

/// Writes `value` to each element of a row as one slice, if the row is contiguous in the order of its columns.
/// Otherwise nothing changes. Returns whether the row is so.
pub fn fill_row_as_slice<S: DataMut<Elem = u64>>(
    image: &mut ArrayBase<S, Ix2>,
    row: usize,
    value: u64,
) -> bool
    requires { row < rows_of image.old }
    ensures lies { IsTrue result ↔ LiesByRank (columns_of image.old ∷ []) (λ i. place_at image.old (row ∷ i)) }
    ensures shape { shape_of image.new ≡ shape_of image.old }
    ensures filled { IsTrue result → FillsRow row value (table_of image.old) (element_of_2 image.new) }
    ensures unchanged { result ≡ false → SameRow row (table_of image.old) (element_of_2 image.new) }
    ensures kept { KeepsBut image.old image.new (coordinate_part image.old 0 row) }
{
    image.with_index_axis_mut(Axis(0), row, FillAsSlice { value })
}
