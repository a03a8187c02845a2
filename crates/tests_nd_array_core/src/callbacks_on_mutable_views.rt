//! Tasks that run on mutable views, and callers that know what the array holds afterwards.

ghost use Rattle.std.specs.Prelude.{◌≡◌, ◌<◌, ℕ, List, [], ◌∷◌, Some, length, slice_index, IsTrue};
ghost use Rattle.nd_shape_and_slice.specs.ShapesAndIndexOrders.{in_box};
ghost use Rattle.nd_shape_and_slice.specs.Slice.{fits_axis, sliced_shape, sliced_index};
ghost use Rattle.nd_shape_and_slice.specs.LayoutIndexMaps.{indexed_shape, indexed_index, diagonal_length, diagonal_index};
ghost use Rattle.nd_array_core.specs.ArrayMeaning.{shape_of, element_at};
ghost use Rattle.nd_array_core.specs.ArrayInStorage.{element_placed};
ghost use Rattle.nd_array_core.specs.scoped.ViewTasks.{view_frame, lent_frame, lent_view, view_left, CanBeSeen};
ghost use Rattle.nd_array_core.specs.scoped.TasksOnParts.{KeepsBut};
ghost use Rattle.nd_array_core.specs.PartsOfArrays.{axis_part, coordinate_part, diagonal_part};
ghost use Rattle.nd_array_core.specs.base.ArrayWrites.{with_element_at};

use nd_array_core::scoped::{LentView, ViewTask};
use nd_array_core::{Array2, ArrayBase, DataMut, ViewMutRepr};
use nd_shape_and_slice::{Axis, Dimension, Ix1, NdIndex, RemoveAxis, Slice, slice_fits};
use nd_test_arrays::{is_table, table};
use std::alloc::Global;

// A task that writes a value at an index of a view.
#[derive(Drop)]
pub(crate) struct Put<I: Drop, A: Drop> {
    pub(crate) index: I,
    pub(crate) value: A,
}

impl<A: Drop, D: Dimension, I: NdIndex<D>> ViewTask<A, D> for Put<I, A> {
    type Answer = A;

    ghost pre = { λ task v. IsTrue (in_box v.placed_shape (I.coordinates_of task.index)) };

    ghost post = { λ task v w answer. (element_placed v (I.coordinates_of task.index) ≡ Some answer) × ((i : List ℕ) → element_placed w i ≡ with_element_at (element_placed v) (I.coordinates_of task.index) task.value i) };

    fn run(self, lent: LentView<'_, A, D, D::Strides>) -> (ViewMutRepr<'_, A>, A)
        requires sound { CanBeSeen D.lengths D.Strides.strides_of lent }
        requires pre { IsTrue (in_box (lent_view D.lengths D.Strides.strides_of lent).placed_shape (I.coordinates_of self.index)) }
        ensures frame { view_frame result.0 ≡ lent_frame lent.entry }
        ensures old { element_placed (lent_view D.lengths D.Strides.strides_of lent.entry) (I.coordinates_of self.index) ≡ Some result.1 }
        ensures elements { (i : List ℕ) → element_placed (view_left D.lengths D.Strides.strides_of lent.entry result.0) i ≡ with_element_at (element_placed (lent_view D.lengths D.Strides.strides_of lent.entry)) (I.coordinates_of self.index) self.value i }
    {
        let mut view = lent.into_view();
        let old = view.replace(self.index, self.value);
        (view.into_storage(), old)
    }
}

fn put_along_axis<A: Drop, S: DataMut<Elem = A>, D: Dimension, X: NdIndex<D>>(
    array: &mut ArrayBase<S, D>,
    axis: Axis,
    slice: Slice,
    task: Put<X, A>,
) -> A
    requires axis { axis.0 < length (shape_of array.old) }
    requires fits { IsTrue (fits_axis (slice_index (shape_of array.old) axis.0) slice) }
    requires within { IsTrue (in_box (sliced_shape (shape_of array.old) axis.0 slice) (X.coordinates_of task.index)) }
    ensures shape { shape_of array.new ≡ shape_of array.old }
    ensures old { element_at array.old (sliced_index (shape_of array.old) axis.0 slice (X.coordinates_of task.index)) ≡ Some result }
    ensures new { element_at array.new (sliced_index (shape_of array.old) axis.0 slice (X.coordinates_of task.index)) ≡ Some task.value }
    ensures kept { KeepsBut array.old array.new (axis_part array.old axis.0 slice) }
{
    array.with_slice_axis_mut(axis, slice, task)
}

fn put_at_coordinate<A: Drop, S: DataMut<Elem = A>, D: RemoveAxis, X: NdIndex<D::Smaller>>(
    array: &mut ArrayBase<S, D>,
    axis: Axis,
    index: usize,
    task: Put<X, A>,
) -> A
    requires axis { axis.0 < length (shape_of array.old) }
    requires below { index < slice_index (shape_of array.old) axis.0 }
    requires within { IsTrue (in_box (indexed_shape (shape_of array.old) axis.0) (X.coordinates_of task.index)) }
    ensures shape { shape_of array.new ≡ shape_of array.old }
    ensures old { element_at array.old (indexed_index axis.0 index (X.coordinates_of task.index)) ≡ Some result }
    ensures new { element_at array.new (indexed_index axis.0 index (X.coordinates_of task.index)) ≡ Some task.value }
    ensures kept { KeepsBut array.old array.new (coordinate_part array.old axis.0 index) }
{
    array.with_index_axis_mut(axis, index, task)
}

fn put_on_diagonal<A: Drop, S: DataMut<Elem = A>, D: Dimension, X: NdIndex<Ix1>>(
    array: &mut ArrayBase<S, D>,
    task: Put<X, A>,
) -> A
    requires within { IsTrue (in_box (diagonal_length (shape_of array.old) ∷ []) (X.coordinates_of task.index)) }
    ensures shape { shape_of array.new ≡ shape_of array.old }
    ensures old { element_at array.old (diagonal_index (shape_of array.old) (X.coordinates_of task.index)) ≡ Some result }
    ensures new { element_at array.new (diagonal_index (shape_of array.old) (X.coordinates_of task.index)) ≡ Some task.value }
    ensures kept { KeepsBut array.old array.new (diagonal_part array.old) }
{
    array.with_diag_mut(task)
}

// Writes a number in every second column, at an index of that part, and returns what was there. Returns `None` if there
// is no such element.
fn put_in_odd_columns(grid: &mut Array2<u64>, index: [usize; 2], value: u64) -> Option<u64> {
    let odd = Slice::new(0, None, 2);
    if grid.ndim() != 2 || !slice_fits(grid.len_of(Axis(1)), odd) {
        return None;
    }
    if grid.slice_axis(Axis(1), odd).get(index).is_none() {
        return None;
    }
    Some(put_along_axis(grid, Axis(1), odd, Put { index, value }))
}

// Writes a number in a row, and returns what was there. Returns `None` if there is no such element.
fn put_in_row(grid: &mut Array2<u64>, row: usize, index: usize, value: u64) -> Option<u64> {
    if grid.ndim() != 2 || row >= grid.len_of(Axis(0)) {
        return None;
    }
    if grid.index_axis(Axis(0), row).get(index).is_none() {
        return None;
    }
    Some(put_at_coordinate(grid, Axis(0), row, Put { index, value }))
}

// Writes a number on the diagonal, and returns what was there. Returns `None` if there is no such element.
fn put_on_its_diagonal(grid: &mut Array2<u64>, index: usize, value: u64) -> Option<u64> {
    if grid.diag().get(index).is_none() {
        return None;
    }
    Some(put_on_diagonal(grid, Put { index, value }))
}

fn parts_of_a_grid(alloc: Global) -> bool {
    let Some(mut grid) = table(alloc, (2, 3), &[1, 2, 3, 4, 5, 6]) else {
        return false;
    };
    put_in_odd_columns(&mut grid, [0, 1], 10) == Some(3)
        && put_in_row(&mut grid, 1, 1, 20) == Some(5)
        && put_on_its_diagonal(&mut grid, 1, 30) == Some(20)
        && is_table(&grid, [2, 3], &[1, 2, 10, 4, 30, 6])
}

#[test]
fn puts_in_parts_of_a_grid(rt: HostRuntime) {
    assert!(rt; parts_of_a_grid(rt.alloc()));
}
