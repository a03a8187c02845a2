//! Tables and lists of numbers, made and compared by functions of fixed types: a test that calls these is cheaper to
//! prove than one with generic calls. Each function that makes an array returns `None` if memory is refused, or the
//! numbers don't fit the shape.

ghost use Rattle.std.specs.Prelude.{◌≡◌, ◌∷◌, [], IfSome};
ghost use Rattle.nd_array_core.specs.ArrayMeaning.{shape_of};

use crate::array_comparisons::{lists, made, shows, stores};
use crate::clone_refusing_numbers::{Refusing, Tally};
use nd_array_core::{Array1, Array2, ArrayD, ArrayView1, ArrayView2};
use nd_shape_and_slice::{IxDyn, MAX_AXES, ShapeBuilder};
use std::alloc::Global;

/// Returns `count` consecutive numbers, from `first` on.
pub fn consecutive(alloc: Global, first: u64, count: u64) -> Option<Vec<u64>> {
    let mut items = Vec::new(alloc);
    for number in 0..count {
        items.push(first.saturating_add(number)).ok()?;
    }
    Some(items)
}

/// Returns the table of this shape with these numbers in row-major order.
pub fn table(alloc: Global, shape: (usize, usize), items: &[u64]) -> Option<Array2<u64>>
    ensures { IfSome result (λ table. shape_of table ≡ shape.0 ∷ shape.1 ∷ []) }
{
    made(alloc, shape, items)
}

/// Returns the table of this shape that has these strides and is stored as these numbers.
pub fn table_by(
    alloc: Global,
    shape: (usize, usize),
    strides: [isize; 2],
    items: &[u64],
) -> Option<Array2<u64>>
    ensures { IfSome result (λ table. shape_of table ≡ shape.0 ∷ shape.1 ∷ []) }
{
    made(alloc, shape.strides(&strides), items)
}

/// Returns the list of these numbers.
pub fn list(alloc: Global, items: &[u64]) -> Option<Array1<u64>> {
    made(alloc, items.len(), items)
}

/// Returns the list of this length that goes by this stride and is stored as these numbers.
pub fn list_by(alloc: Global, length: usize, stride: isize, items: &[u64]) -> Option<Array1<u64>> {
    made(alloc, length.strides(&[stride]), items)
}

/// Returns the array with these lengths, one for each axis, and these numbers in row-major order.
pub fn any_axes(alloc: Global, lengths: &[usize], items: &[u64]) -> Option<ArrayD<u64>> {
    if lengths.len() > MAX_AXES {
        return None;
    }
    made(alloc, IxDyn::new(lengths), items)
}

/// Returns the table of this shape that has these strides and is stored as these numbers, which a tally counts.
pub fn counted_table<'a>(
    alloc: Global,
    shape: (usize, usize),
    strides: [isize; 2],
    items: &[u64],
    tally: &'a Tally,
) -> Option<Array2<Refusing<'a>>>
    ensures { IfSome result (λ table. shape_of table ≡ shape.0 ∷ shape.1 ∷ []) }
{
    let numbers = counted(alloc, items, tally)?;
    match Array2::from_shape_vec(shape.strides(&strides), numbers) {
        Ok(table) => Some(table),
        Err(_) => None,
    }
}

/// Returns the list of these numbers, which a tally counts.
pub fn counted_list<'a>(
    alloc: Global,
    items: &[u64],
    tally: &'a Tally,
) -> Option<Array1<Refusing<'a>>> {
    match Array1::from_shape_vec(items.len(), counted(alloc, items, tally)?) {
        Ok(list) => Some(list),
        Err(_) => None,
    }
}

// Returns these numbers, each counted by a tally.
fn counted<'a>(alloc: Global, items: &[u64], tally: &'a Tally) -> Option<Vec<Refusing<'a>>> {
    let mut numbers = Vec::new(alloc);
    for item in items {
        numbers.push(Refusing::new(*item, tally)).ok()?;
    }
    Some(numbers)
}

/// Returns whether a table has this shape, and these numbers in row-major order.
pub fn is_table(table: &Array2<u64>, shape: [usize; 2], wanted: &[u64]) -> bool {
    shows(table, shape, wanted)
}

/// Returns whether a view of a table has this shape, and these numbers in row-major order.
pub fn is_table_seen(table: &ArrayView2<'_, u64>, shape: [usize; 2], wanted: &[u64]) -> bool {
    shows(table, shape, wanted)
}

/// Returns whether a table of counted numbers has this shape, and these numbers in row-major order.
pub fn is_counted(table: &Array2<Refusing<'_>>, shape: [usize; 2], wanted: &[u64]) -> bool {
    shows(table, shape, wanted)
}

/// Returns whether a list has these numbers and no others.
pub fn is_list(list: &Array1<u64>, wanted: &[u64]) -> bool {
    lists(list, wanted)
}

/// Returns whether a view of a list has these numbers and no others.
pub fn is_list_seen(list: &ArrayView1<'_, u64>, wanted: &[u64]) -> bool {
    lists(list, wanted)
}

/// Returns whether a table is stored as these numbers.
pub fn table_stores(table: Array2<u64>, wanted: &[u64]) -> bool {
    stores(table, wanted)
}

/// Returns whether a list is stored as these numbers.
pub fn list_stores(list: Array1<u64>, wanted: &[u64]) -> bool {
    stores(list, wanted)
}

/// Returns whether a table has these strides.
pub fn goes_by(table: &Array2<u64>, strides: [isize; 2]) -> bool {
    table.strides() == strides.as_slice()
}
