//! Concatenating arrays that are contiguous in row-major order, run by run. A run is what one array contributes to the
//! result for one index of the axes before the joined one: its elements there lie side by side. A row is the runs of
//! all arrays for that index, one after another.

ghost use Rattle.std.specs.Prelude.{◌≡◌, ◌+◌, ◌*◌, ◌++◌, ◌<◌, ◌≤◌, ℕ, IfOk, IfSome, length, vec_len, vec_capacity, IsTrue};
ghost use Rattle.nd_array_core.specs.ArrayMeaning.{meaning_of};
ghost use Rattle.nd_array_core.specs.growth.AppendEach.{lengths_along, meanings_of, ClonesOfEachAreEqual};
ghost use Rattle.nd_array_core.specs.reshape.ElementsAsSlice.{IsStandardArray};
ghost use Rattle.nd_stacking.specs.ConcatenationByRuns.{joined_row, run_length, given_to_row, size_before, size_after, woven, AreElementsOf, EachIs, HasWholeRun, IsByRank};
ghost use Rattle.nd_array_core.specs.base.NewArrays.{ClonesAreEqual};

use crate::joined_shapes::length_at;
use nd_array_core::ArrayView;
use nd_array_core::laws::elements_by_rank;
use nd_shape_and_slice::{Dimension, NoMemory, size_of_shape_checked};
use std::alloc::Global;

/// The number of elements that a run must have, on average, for this way to be taken. Not measured by itself.
const SHORTEST_JOINED_RUN: usize = 4;

/// Returns whether each of the arrays is contiguous in row-major order.
pub(crate) fn are_standard<A, D: Dimension>(arrays: &[ArrayView<'_, A, D>]) -> bool
    ensures standard { IsTrue result → EachIs (λ a. IsStandardArray a) arrays.now }
    ensures ranks { IsTrue result → EachIs IsByRank (meanings_of arrays.now) }
{
    for nth in 0..arrays.len() {
        elements_by_rank(&arrays[nth]);
        if !arrays[nth].is_standard_layout() {
            return false;
        }
    }
    true
}

/// Returns how many indexes the axes before `axis` have, and how many those after it. Returns `None` if one of these
/// numbers overflows.
pub(crate) fn sizes_around(shape: &[usize], axis: usize) -> Option<(usize, usize)>
    requires { axis < length shape.now }
    ensures before { IfSome result (λ sizes. sizes.0 ≡ size_before axis shape.now) }
    ensures after { IfSome result (λ sizes. sizes.1 ≡ size_after axis shape.now) }
{
    let (before, rest) = shape.split_at(axis);
    let (_one, after) = rest.split_at(1);
    let rows = size_of_shape_checked(before).ok()?;
    let inner = size_of_shape_checked(after).ok()?;
    Some((rows, inner))
}

/// Returns whether `count` elements, in `rows` rows of a run from each of `arrays` arrays, make long runs. With short
/// runs it is faster to work array by array.
pub(crate) fn are_long(count: usize, rows: usize, arrays: usize) -> bool {
    rows.saturating_mul(arrays)
        .saturating_mul(SHORTEST_JOINED_RUN)
        <= count
}

/// Returns `items` with clones of the elements of `run` appended, for which it has room. The vector is passed by value
/// and returned, so that it is a local variable that needn't be read again from memory for each element.
#[inline(always)]
fn with_clones<A: Clone + Drop>(items: Vec<A>, run: &[A]) -> Result<Vec<A>, NoMemory>
    requires clones { EachIs (λ x. ClonesAreEqual A.is_clone x) run.now }
    requires room { vec_len items + length run.now ≤ vec_capacity items }
    ensures items { IfOk result (λ v. v.items ≡ items.items ++ run.now) }
    ensures len { IfOk result (λ v. vec_len v ≡ vec_len items + length run.now) }
    ensures room { IfOk result (λ v. vec_capacity v ≡ vec_capacity items) }
{
    let mut longer = items;
    for nth in 0..run.len() {
        let copy = run[nth].clone()?;
        longer.push_reserved(copy);
    }
    Ok(longer)
}

/// Returns the run of `array` in the row `row`, where `after` is the number of indexes of the axes after `axis`.
fn run_of<'a, A, D: Dimension>(
    array: &ArrayView<'a, A, D>,
    axis: usize,
    after: usize,
    row: usize,
) -> &'a [A]
    requires standard { IsStandardArray array.now }
    requires within { HasWholeRun axis after row (meaning_of array.now) }
    ensures items { result.now ≡ given_to_row axis after row (meaning_of array.now) }
    ensures len { length result.now ≡ run_length axis after (meaning_of array.now) }
    ensures elements { AreElementsOf (meaning_of array.now) result.now }
{
    elements_by_rank(array);
    match array.to_slice() {
        Some(all) => {
            let len = length_at(array.shape(), axis) * after;
            let (_before, from) = all.split_at(row * len);
            let (run, _after) = from.split_at(len);
            run
        }
        None => unreachable!(),
    }
}

/// Returns `items` with clones of the elements of the row `row` appended, for which it has room.
fn with_row<A: Clone + Drop, D: Dimension>(
    items: Vec<A>,
    arrays: &[ArrayView<'_, A, D>],
    axis: usize,
    after: usize,
    row: usize,
) -> Result<Vec<A>, NoMemory>
    requires standard { EachIs (λ a. IsStandardArray a) arrays.now }
    requires runs { EachIs (HasWholeRun axis after row) (meanings_of arrays.now) }
    requires room { vec_len items + lengths_along axis (meanings_of arrays.now) * after ≤ vec_capacity items }
    requires clones { ClonesOfEachAreEqual A.is_clone (meanings_of arrays.now) }
    ensures items { IfOk result (λ v. v.items ≡ items.items ++ joined_row axis after row (meanings_of arrays.now)) }
    ensures len { IfOk result (λ v. vec_len v ≡ vec_len items + lengths_along axis (meanings_of arrays.now) * after) }
    ensures room { IfOk result (λ v. vec_capacity v ≡ vec_capacity items) }
{
    let mut longer = items;
    for nth in 0..arrays.len() {
        longer = with_clones(longer, run_of(&arrays[nth], axis, after, row))?;
    }
    Ok(longer)
}

/// Returns the clones of the elements of `rows` rows of the arrays, which are `count` elements together.
pub(crate) fn woven<A: Clone + Drop, D: Dimension>(
    alloc: Global,
    arrays: &[ArrayView<'_, A, D>],
    axis: usize,
    after: usize,
    rows: usize,
    count: usize,
) -> Result<Vec<A>, NoMemory>
    requires standard { EachIs (λ a. IsStandardArray a) arrays.now }
    requires runs { (row : ℕ) → row < rows → EachIs (HasWholeRun axis after row) (meanings_of arrays.now) }
    requires count { count ≡ rows * (lengths_along axis (meanings_of arrays.now) * after) }
    requires clones { ClonesOfEachAreEqual A.is_clone (meanings_of arrays.now) }
    ensures items { IfOk result (λ v. v.items ≡ woven axis after rows (meanings_of arrays.now)) }
    ensures len { IfOk result (λ v. vec_len v ≡ count) }
{
    let mut items = Vec::with_capacity(alloc, count)?;
    for row in 0..rows {
        items = with_row(items, arrays, axis, after, row)?;
    }
    Ok(items)
}
