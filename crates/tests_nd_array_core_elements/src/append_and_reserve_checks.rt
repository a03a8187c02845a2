//! What these tests share beside `nd_test_arrays`: calls that make arrays longer, and comparing them. Nearly all
//! functions here have fixed types and no contract: a test that calls them is cheaper to prove than one that calls the
//! arrays' own methods.

ghost use Rattle.std.specs.Prelude.{◌≡◌};
ghost use Rattle.nd_array_core.specs.base.NewArrays.{EachCloneIsEqual};

use nd_array_core::{Array, Array1, Array2, ArrayError};
use nd_shape_and_slice::{Axis, Dimension, ErrorKind, Slice, slice_fits};
use nd_test_arrays::{
    Refusing, Tally, counted_table, goes_by, is_counted, is_list, is_table, list, list_stores,
    table, table_by, table_stores,
};
use std::alloc::Global;

/// How a call ended.
#[derive(Clone, Copy, PartialEq, Eq)]
pub enum End {
    Done,
    Unfit,
    Overflow,
    NoMemory,
    Other,
}

/// Returns how a call with this result ended.
pub fn end_of(outcome: &Result<(), ArrayError>) -> End {
    match outcome {
        Ok(()) => End::Done,
        Err(ArrayError::NoMemory) => End::NoMemory,
        Err(ArrayError::Shape(error)) => {
            let kind = error.kind();
            if kind == ErrorKind::Overflow {
                End::Overflow
            } else if kind == ErrorKind::IncompatibleShape {
                End::Unfit
            } else {
                End::Other
            }
        }
    }
}

/// The lengths and strides of a table, and the numbers that it is stored as.
pub type Laid<'a> = ((usize, usize), [isize; 2], &'a [u64]);

/// Returns how appending `more` along `axis` ended. It isn't tried if the array has axes and this isn't one of them.
pub fn end_after<A: Clone + Drop, D: Dimension>(
    array: &mut Array<A, D>,
    axis: usize,
    more: &Array<A, D>,
) -> End
    requires clones { EachCloneIsEqual A.is_clone }
{
    let axes = array.ndim();
    if axes == 0 || axis < axes {
        end_of(&array.append(Axis(axis), more.view()))
    } else {
        End::Other
    }
}

/// Returns whether the steps end as listed on the longest table without elements, and whether it has its lengths
/// afterwards.
pub fn longest_stays(alloc: Global, steps: &[(usize, Step, End)]) -> bool {
    let Some(mut longest) = table(alloc, (9223372036854775807, 0), &[]) else {
        return false;
    };
    let right = end_so(alloc, &mut longest, steps);
    let (rows, columns) = longest.dim();
    right && rows == 9223372036854775807 && columns == 0
}

/// Returns whether a table has these lengths and, in row-major order, these numbers, and is stored as `stored`.
pub fn is_stored(table: Array2<u64>, lengths: [usize; 2], numbers: &[u64], stored: &[u64]) -> bool {
    is_table(&table, lengths, numbers) && table_stores(table, stored)
}

/// What is done to a table: a table with these lengths and numbers is appended; a row or column is pushed; room is
/// reserved for more rows or columns; or the table is cut down to its first rows.
pub enum Step {
    Append((usize, usize), &'static [u64]),
    Push(&'static [u64]),
    RoomForRows(usize),
    RoomForColumns(usize),
    Cut(isize),
}

/// A table, steps along its axes and how each of them ends, and then the table's strides, lengths and numbers in
/// row-major order, and what is stored.
pub struct Case {
    pub table: Laid<'static>,
    pub steps: &'static [(usize, Step, End)],
    pub strides: [isize; 2],
    pub lengths: [usize; 2],
    pub shown: &'static [u64],
    pub stored: &'static [u64],
}

/// Appends a table with these lengths and numbers, and returns how this ended.
fn end_of_append(
    alloc: Global,
    first: &mut Array2<u64>,
    axis: usize,
    lengths: (usize, usize),
    items: &[u64],
) -> End {
    match table(alloc, lengths, items) {
        Some(more) => end_after(first, axis, &more),
        None => End::Other,
    }
}

/// Does a step along an axis of a table, and returns how it ended.
pub fn end_of_step(alloc: Global, table: &mut Array2<u64>, axis: usize, step: &Step) -> End {
    match step {
        Step::Append(lengths, items) => end_of_append(alloc, table, axis, *lengths, items),
        Step::Push(items) => match list(alloc, items) {
            Some(line) => end_of_push(table, axis, &line),
            None => End::Other,
        },
        Step::RoomForRows(more) => end_of(&table.reserve_rows(*more)),
        Step::RoomForColumns(more) => end_of(&table.reserve_columns(*more)),
        Step::Cut(rows) => cut(table, *rows),
    }
}

/// Cuts a table down to its first `rows` rows, if it has that many.
#[tactic(auto, using(nd_array_core::proofs::AxesOfDimensionTypes::known_axes))]
fn cut(table: &mut Array2<u64>, rows: isize) -> End {
    let first = Slice::new(0, Some(rows), 1);
    let (count, _columns) = table.dim();
    if slice_fits(count, first) {
        table.slice_axis_inplace(Axis(0), first);
        End::Done
    } else {
        End::Other
    }
}

/// Returns whether the steps on a table end as listed.
pub fn end_so(alloc: Global, table: &mut Array2<u64>, steps: &[(usize, Step, End)]) -> bool {
    for (axis, step, end) in steps {
        if end_of_step(alloc, table, *axis, step) != *end {
            return false;
        }
    }
    true
}

/// Returns whether a case ends as it says.
fn holds(alloc: Global, case: &Case) -> bool {
    let (lengths, strides, items) = case.table;
    let Some(mut table) = table_by(alloc, lengths, strides, items) else {
        return false;
    };
    end_so(alloc, &mut table, case.steps)
        && goes_by(&table, case.strides)
        && is_stored(table, case.lengths, case.shown, case.stored)
}

/// Returns whether appending the columns `more` to `first` ends with `end` if `allowed` clones are allowed, whether
/// then `living` numbers exist and the table has these lengths and numbers, and whether each number is dropped once.
pub fn widens(
    alloc: Global,
    allowed: u64,
    first: &Laid<'_>,
    more: &Laid<'_>,
    end: End,
    lengths: [usize; 2],
    numbers: &[u64],
    living: u32,
) -> bool {
    let tally = Tally::allowing(allowed);
    widens_counted(alloc, &tally, first, more, end, lengths, numbers, living) && tally.has(0)
}

fn widens_counted(
    alloc: Global,
    tally: &Tally,
    first: &Laid<'_>,
    more: &Laid<'_>,
    end: End,
    lengths: [usize; 2],
    numbers: &[u64],
    living: u32,
) -> bool {
    let Some(mut table) = counted_table(alloc, first.0, first.1, first.2, tally) else {
        return false;
    };
    let Some(more) = counted_table(alloc, more.0, more.1, more.2, tally) else {
        return false;
    };
    counted_after(&mut table, &more) == end
        && tally.has(living)
        && is_counted(&table, lengths, numbers)
}

/// Returns how appending the columns `more` to a table of counted numbers ended.
pub fn counted_after<'a>(table: &mut Array2<Refusing<'a>>, more: &Array2<Refusing<'a>>) -> End {
    end_after(table, 1, more)
}

/// Returns whether all cases end as they say.
pub fn all_hold(alloc: Global, cases: &[Case]) -> bool {
    for case in cases {
        if !holds(alloc, case) {
            return false;
        }
    }
    true
}

/// Reserves room for `more` numbers in a list, and returns how this ended.
#[tactic(auto, using(nd_array_core::proofs::AxesOfDimensionTypes::known_axes))]
pub fn list_room(list: &mut Array1<u64>, more: usize) -> End {
    end_of(&list.reserve(Axis(0), more))
}

/// Returns whether the lists in `more` can all be appended to `first`, and whether it then has the numbers `shown` and
/// is stored as `stored`.
pub fn joined(
    alloc: Global,
    mut first: Array1<u64>,
    more: &[&[u64]],
    shown: &[u64],
    stored: &[u64],
) -> bool {
    for numbers in more {
        if list_after(alloc, &mut first, numbers) != End::Done {
            return false;
        }
    }
    is_list(&first, shown) && list_stores(first, stored)
}

/// Appends a list of these numbers to a list, and returns how this ended.
pub fn list_after(alloc: Global, first: &mut Array1<u64>, numbers: &[u64]) -> End {
    match list(alloc, numbers) {
        Some(more) => end_after(first, 0, &more),
        None => End::Other,
    }
}

/// Removes the number at `index` from a list. Returns false if there is none.
#[tactic(auto, using(nd_array_core::proofs::AxesOfDimensionTypes::known_axes))]
pub fn taken_out(list: &mut Array1<u64>, index: usize) -> bool {
    if index < list.dim() {
        list.remove_index(Axis(0), index);
        true
    } else {
        false
    }
}

/// Pushes a line to a table, as a row if `axis` is 0 and otherwise as a column, and returns how this ended.
fn end_of_push(table: &mut Array2<u64>, axis: usize, line: &Array1<u64>) -> End {
    let outcome = if axis == 0 {
        table.push_row(line.view())
    } else {
        table.push_column(line.view())
    };
    end_of(&outcome)
}

/// Returns how many arrays were appended before one was refused, and how that ended. If none was refused it is 0.
pub fn refused_at(outcome: &Result<(), (usize, ArrayError)>) -> (usize, End) {
    match outcome {
        Ok(()) => (0, End::Done),
        Err((count, error)) => (*count, end_of(&Err(*error))),
    }
}

/// Appends `first`, `second` and `first` again as rows to `table`, and returns how this ended.
#[tactic(auto, using(nd_array_core::proofs::AxesOfDimensionTypes::known_axes))]
pub fn three_after(
    table: &mut Array2<u64>,
    first: &Array2<u64>,
    second: &Array2<u64>,
) -> (usize, End) {
    let three = [first.view(), second.view(), first.view()];
    refused_at(&table.append_each(Axis(0), &three))
}
