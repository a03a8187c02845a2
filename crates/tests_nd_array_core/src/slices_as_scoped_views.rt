//! Slices that are lent as views to a task.

ghost use Rattle.std.specs.Prelude.{◌≡◌, Some, IfOk, IfErr, IsTrue};
ghost use Rattle.nd_shape_and_slice.specs.ShapesAndIndexOrders.{in_box};
ghost use Rattle.nd_array_core.specs.scoped.SlicesLentAsViews.{meant_by, element_in_slice, KeepsUnseen};

use crate::callbacks_on_mutable_views::Put;
use nd_array_core::scoped::with_view_of;
use nd_shape_and_slice::{
    Dimension, ErrorKind, IntoStrideShape, NdIndex, ShapeBuilder, ShapeError,
};

fn put_seen<A: Drop, D: Dimension, Sh: IntoStrideShape<Dim = D>, I: NdIndex<D>>(
    slice: &mut [A],
    shape: Sh,
    task: Put<I, A>,
) -> Result<A, ShapeError>
    requires { IsTrue (in_box (Sh.lengths_meant shape) (I.coordinates_of task.index)) }
    ensures unchanged { IfErr result (λ _. slice.new ≡ slice.old) }
    ensures old { IfOk result (λ x. element_in_slice slice.old (meant_by Sh.IntoStrideShape shape) (I.coordinates_of task.index) ≡ Some x) }
    ensures new { IfOk result (λ _. element_in_slice slice.new (meant_by Sh.IntoStrideShape shape) (I.coordinates_of task.index) ≡ Some task.value) }
    ensures kept { KeepsUnseen slice.old slice.new (meant_by Sh.IntoStrideShape shape) }
{
    with_view_of(slice, shape, task)
}

// How a call ended: with the element that it found, or with an error.
type End = Result<u64, ErrorKind>;

fn end_of(old: Result<u64, ShapeError>) -> End {
    match old {
        Ok(old) => Ok(old),
        Err(error) => Err(error.kind()),
    }
}

// Writes a number in a slice seen as a table in row-major order. Returns `None` if the table has no such index.
fn put_in_rows(
    items: &mut [u64],
    shape: (usize, usize),
    (row, column): (usize, usize),
    value: u64,
) -> Option<End> {
    if row >= shape.0 || column >= shape.1 {
        return None;
    }
    let index = [row, column];
    Some(end_of(put_seen(items, shape, Put { index, value })))
}

// Writes a number in a slice seen as a table with strides. Returns `None` if the table has no such index.
fn put_by_strides(
    items: &mut [u64],
    shape: (usize, usize),
    strides: [isize; 2],
    (row, column): (usize, usize),
    value: u64,
) -> Option<End> {
    if row >= shape.0 || column >= shape.1 {
        return None;
    }
    let index = [row, column];
    Some(end_of(put_seen(items, shape.strides(&strides), Put { index, value })))
}

// Returns whether a call found this element.
fn found(end: Option<End>, wanted: u64) -> bool {
    match end {
        Some(Ok(element)) => element == wanted,
        _ => false,
    }
}

// Returns whether a call ended with this error.
fn refused(end: Option<End>, wanted: ErrorKind) -> bool {
    match end {
        Some(Err(error)) => error == wanted,
        _ => false,
    }
}

fn elements_under_a_shape() -> bool {
    let mut items = [1u64, 2, 3, 4, 5, 6];
    found(put_by_strides(&mut items, (2, 3), [1, 2], (1, 0), 20), 2)
        && items == [1, 20, 3, 4, 5, 6]
        && found(put_by_strides(&mut items, (2, 2), [3, 1], (1, 1), 50), 5)
        && items == [1, 20, 3, 4, 50, 6]
        && found(put_by_strides(&mut items, (1, 3), [1, -2], (0, 0), 51), 50)
        && items == [1, 20, 3, 4, 51, 6]
}

fn elements_beyond_the_shape_and_refused_shapes() -> bool {
    let mut items = [1u64, 2, 3, 4, 5, 6];
    refused(
        put_in_rows(&mut items, (2, 4), (0, 0), 9),
        ErrorKind::OutOfBounds,
    ) && refused(
        put_by_strides(&mut items, (2, 2), [1, 1], (0, 0), 9),
        ErrorKind::Unsupported,
    ) && items == [1, 2, 3, 4, 5, 6]
        && found(put_in_rows(&mut items, (2, 2), (1, 1), 40), 4)
        && items == [1, 2, 3, 40, 5, 6]
}

#[test]
fn slices_lent(rt: HostRuntime) {
    assert!(rt; elements_under_a_shape());
    assert!(rt; elements_beyond_the_shape_and_refused_shapes());
}
