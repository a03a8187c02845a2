//! Calls along an axis: selecting rows by their numbers, removing a row, and folding or accumulating lanes.
#![tactic(auto, using(std::proofs::lemmas::Bool::Decides::nat_tests, nd_array_core::proofs::AxesOfDimensionTypes::known_axes))]

ghost use Rattle.std.specs.Prelude.{◌≡◌, ◌<◌, ℕ, List, IfOk, length};
ghost use Rattle.nd_array_core.specs.Prelude.{meaning_of, shape_of, element_at, rows_of, table_of, ShowsTable, chosen_rows, without_row, HasCheckedSize, indexed_shape, EachCloneIsEqual, selected_shape, AreCoordinates, AreAccumulatedBy, lane_seen, lane_held, held_at, IsSameLane, AreLeftBy};
ghost use Rattle.uses_nd_array_core.specs.BroadcastAddition.{SameAtFirst};
ghost use Rattle.uses_nd_array_core.specs.LaneSumsAndFirsts.{zero_first, first_or_0, ShowsOfLanes, SumsLanes};
ghost use Rattle.uses_nd_array_core.specs.NumberSums.{sum_of_elements, added_to};

use crate::fold_and_map_inplace::wrapping_sum;
use nd_array_core::laws::lanes_are_folded;
use nd_array_core::prelude::*;
use nd_array_core::{LaneMut, LaneView};
use std::alloc::Global;

/// Returns a new table of the rows that have the given `numbers`, in the order of `numbers`.
pub fn rows_chosen<A: Clone + Drop, S: Data<Elem = A>>(
    alloc: Global,
    table: &ArrayBase<S, Ix2>,
    numbers: &[usize],
) -> Result<Array2<A>, NoMemory>
    requires clones { EachCloneIsEqual A.is_clone }
    requires numbers { AreCoordinates (shape_of table.now) 0 numbers.now }
    requires checked { HasCheckedSize (selected_shape (shape_of table.now) 0 numbers.now) }
    ensures { IfOk result (λ chosen. ShowsTable chosen (chosen_rows numbers.now (table_of table.now))) }
{
    table.select(alloc, Axis(0), numbers)
}

/// Removes a row from a table. The rows after it move up by one.
pub fn take_row_out<A, S: DataMut<Elem = A>>(table: &mut ArrayBase<S, Ix2>, row: usize)
    requires { row < rows_of table.old }
    ensures { ShowsTable table.new (without_row row (table_of table.old)) }
{
    table.remove_index(Axis(0), row);
}

/// Replaces each element by the sum of it and all elements before it in its lane of `axis`, modulo 2 to the 64th.
pub fn running_sums<S: DataMut<Elem = u64>, D: Dimension>(array: &mut ArrayBase<S, D>, axis: Axis)
    requires { axis.0 < length (shape_of array.old) }
    ensures shape { shape_of array.new ≡ shape_of array.old }
    ensures first { SameAtFirst axis.0 (element_at array.old) (element_at array.new) }
    ensures sums { AreAccumulatedBy added_to axis.0 (element_at array.old) (element_at array.new) }
{
    array.accumulate_axis_inplace(axis, |sum, x| *x = x.wrapping_add(*sum));
}

/// Returns the sum of each lane of `axis`, modulo 2 to the 64th, by `fold_axis`. The result has the shape of `array`
/// without that axis.
pub fn sums_along<S: Data<Elem = u64>, D: RemoveAxis>(
    alloc: Global,
    array: &ArrayBase<S, D>,
    axis: Axis,
) -> Result<Array<u64, D::Smaller>, NoMemory>
    requires { axis.0 < length (shape_of array.now) }
    ensures sums { IfOk result (λ a. SumsLanes (shape_of array.now) (element_at array.now) axis.0 (element_at a)) }
{
    array.fold_axis(alloc, axis, 0, |sum: &u64, x: &u64| sum.wrapping_add(*x))
}

/// Returns the sum of a lane, modulo 2 to the 64th.
fn lane_sum(lane: LaneView<'_, u64>) -> u64
    ensures { result ≡ sum_of_elements (lane_seen lane.entry) }
{
    wrapping_sum(&lane.into_view())
}

/// Returns the sum of each lane of `axis`, modulo 2 to the 64th, by `map_axis`. The result has the shape of `array`
/// without that axis.
pub fn sums_of_lanes<S: Data<Elem = u64>, D: RemoveAxis>(
    alloc: Global,
    array: &ArrayBase<S, D>,
    axis: Axis,
) -> Result<Array<u64, D::Smaller>, NoMemory>
    requires { axis.0 < length (shape_of array.now) }
    ensures shape { IfOk result (λ a. shape_of a ≡ indexed_shape (shape_of array.now) axis.0) }
    ensures sums { IfOk result (λ a. ShowsOfLanes sum_of_elements (meaning_of array.now) axis.0 (element_at a)) }
{
    array.map_axis(alloc, axis, lane_sum)
}

/// Returns the sums of the rows of `table`, modulo 2 to the 64th, computed by `sums_of_lanes` and by `sums_along`. Both
/// results are the same.
pub fn row_sums_twice<S: Data<Elem = u64>>(
    alloc: Global,
    table: &ArrayBase<S, Ix2>,
) -> Result<(Array1<u64>, Array1<u64>), NoMemory>
    ensures same { IfOk result (λ both. (i : List ℕ) → element_at both.0 i ≡ element_at both.1 i) }
{
    let shown = sums_of_lanes(alloc, table, Axis(1))?;
    let folded = sums_along(alloc, table, Axis(1))?;
    lanes_are_folded::<u64>();
    Ok((shown, folded))
}

/// Replaces the first element of a lane by 0 and returns its old value. Returns 0 if the lane is empty.
fn first_out(lane: &mut LaneMut<'_, u64>) -> u64
    ensures same { IsSameLane lane.old lane.new }
    ensures left { (k : ℕ) → held_at lane.new k ≡ zero_first (lane_held lane.old) k }
    ensures first { result ≡ first_or_0 (lane_held lane.old) }
{
    if lane.len() > 0 {
        lane.replace(0, 0)
    } else {
        0
    }
}

/// Replaces the first element of each lane of `axis` by 0, and returns an array of the old values, which has the shape
/// of `array` without that axis.
pub fn firsts_out<S: DataMut<Elem = u64>, D: RemoveAxis>(
    alloc: Global,
    array: &mut ArrayBase<S, D>,
    axis: Axis,
) -> Result<Array<u64, D::Smaller>, NoMemory>
    requires { axis.0 < length (shape_of array.old) }
    ensures left { IfOk result (λ _. AreLeftBy zero_first (meaning_of array.old) axis.0 (element_at array.new)) }
    ensures firsts { IfOk result (λ a. ShowsOfLanes first_or_0 (meaning_of array.old) axis.0 (element_at a)) }
{
    let firsts = array.map_axis_mut(alloc, axis, first_out)?;
    Ok(firsts)
}
