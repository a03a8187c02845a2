//! What is written of an array with `{}`, `{:?}` and format options.

ghost use Rattle.std.specs.Prelude.{◌≡◌, ◌∷◌, []};
ghost use Rattle.nd_array_core.specs.ArrayMeaning.{shape_of};

use crate::arrays_by_strides::one_to_six;
use nd_array_core::{Array1, Array2, Array3, ArrayD, ArrayView1, ArrayView2};
use nd_shape_and_slice::{Axis, Slice};
use nd_test_arrays::any_axes;
use std::alloc::{AllocError, Global};

const NUMBERS: [u64; 8] = [1, 2, 3, 4, 5, 6, 7, 8];

// What is written of an array with the numbers from 1 on in each shape.
const SHAPES: [(&[usize], &str); 13] = [
    (&[], "1"),
    (&[0], "[]"),
    (&[1], "[1]"),
    (&[3], "[1, 2, 3]"),
    (&[2, 0], "[[]]"),
    (&[0, 2], "[[]]"),
    (&[3, 0, 4], "[[[]]]"),
    (&[1, 3], "[[1, 2, 3]]"),
    (&[3, 1], "[[1],\n [2],\n [3]]"),
    (&[2, 3], "[[1, 2, 3],\n [4, 5, 6]]"),
    (&[4, 1, 1], "[[[1]],\n\n [[2]],\n\n [[3]],\n\n [[4]]]"),
    (&[2, 2, 2], "[[[1, 2],\n  [3, 4]],\n\n [[5, 6],\n  [7, 8]]]"),
    (&[2, 1, 2, 1], "[[[[1],\n   [2]]],\n\n\n [[[3],\n   [4]]]]"),
];

// What is written of a long row of ones: its ends alone.
const ROW: &str = "[1, 1, 1, 1, 1, ..., 1, 1, 1, 1, 1]";

// What is written of more than eleven such rows: the ends of the table, and of each row.
const TABLE: &str =
    "[[1, 1, 1, 1, 1, ..., 1, 1, 1, 1, 1],\n [1, 1, 1, 1, 1, ..., 1, 1, 1, 1, 1],\n [1, 1, 1, 1, 1, ..., 1, 1, 1, 1, 1],\n [1, 1, 1, 1, 1, ..., 1, 1, 1, 1, 1],\n [1, 1, 1, 1, 1, ..., 1, 1, 1, 1, 1],\n ...,\n [1, 1, 1, 1, 1, ..., 1, 1, 1, 1, 1],\n [1, 1, 1, 1, 1, ..., 1, 1, 1, 1, 1],\n [1, 1, 1, 1, 1, ..., 1, 1, 1, 1, 1],\n [1, 1, 1, 1, 1, ..., 1, 1, 1, 1, 1],\n [1, 1, 1, 1, 1, ..., 1, 1, 1, 1, 1]]";

// What is written of seven blocks of eleven such rows: the blocks at either end, and all of their rows.
const BLOCKS: &str =
    "[[[1, 1, 1, 1, 1, ..., 1, 1, 1, 1, 1],\n  [1, 1, 1, 1, 1, ..., 1, 1, 1, 1, 1],\n  [1, 1, 1, 1, 1, ..., 1, 1, 1, 1, 1],\n  [1, 1, 1, 1, 1, ..., 1, 1, 1, 1, 1],\n  [1, 1, 1, 1, 1, ..., 1, 1, 1, 1, 1],\n  [1, 1, 1, 1, 1, ..., 1, 1, 1, 1, 1],\n  [1, 1, 1, 1, 1, ..., 1, 1, 1, 1, 1],\n  [1, 1, 1, 1, 1, ..., 1, 1, 1, 1, 1],\n  [1, 1, 1, 1, 1, ..., 1, 1, 1, 1, 1],\n  [1, 1, 1, 1, 1, ..., 1, 1, 1, 1, 1],\n  [1, 1, 1, 1, 1, ..., 1, 1, 1, 1, 1]],\n\n [[1, 1, 1, 1, 1, ..., 1, 1, 1, 1, 1],\n  [1, 1, 1, 1, 1, ..., 1, 1, 1, 1, 1],\n  [1, 1, 1, 1, 1, ..., 1, 1, 1, 1, 1],\n  [1, 1, 1, 1, 1, ..., 1, 1, 1, 1, 1],\n  [1, 1, 1, 1, 1, ..., 1, 1, 1, 1, 1],\n  [1, 1, 1, 1, 1, ..., 1, 1, 1, 1, 1],\n  [1, 1, 1, 1, 1, ..., 1, 1, 1, 1, 1],\n  [1, 1, 1, 1, 1, ..., 1, 1, 1, 1, 1],\n  [1, 1, 1, 1, 1, ..., 1, 1, 1, 1, 1],\n  [1, 1, 1, 1, 1, ..., 1, 1, 1, 1, 1],\n  [1, 1, 1, 1, 1, ..., 1, 1, 1, 1, 1]],\n\n [[1, 1, 1, 1, 1, ..., 1, 1, 1, 1, 1],\n  [1, 1, 1, 1, 1, ..., 1, 1, 1, 1, 1],\n  [1, 1, 1, 1, 1, ..., 1, 1, 1, 1, 1],\n  [1, 1, 1, 1, 1, ..., 1, 1, 1, 1, 1],\n  [1, 1, 1, 1, 1, ..., 1, 1, 1, 1, 1],\n  [1, 1, 1, 1, 1, ..., 1, 1, 1, 1, 1],\n  [1, 1, 1, 1, 1, ..., 1, 1, 1, 1, 1],\n  [1, 1, 1, 1, 1, ..., 1, 1, 1, 1, 1],\n  [1, 1, 1, 1, 1, ..., 1, 1, 1, 1, 1],\n  [1, 1, 1, 1, 1, ..., 1, 1, 1, 1, 1],\n  [1, 1, 1, 1, 1, ..., 1, 1, 1, 1, 1]],\n\n ...,\n\n [[1, 1, 1, 1, 1, ..., 1, 1, 1, 1, 1],\n  [1, 1, 1, 1, 1, ..., 1, 1, 1, 1, 1],\n  [1, 1, 1, 1, 1, ..., 1, 1, 1, 1, 1],\n  [1, 1, 1, 1, 1, ..., 1, 1, 1, 1, 1],\n  [1, 1, 1, 1, 1, ..., 1, 1, 1, 1, 1],\n  [1, 1, 1, 1, 1, ..., 1, 1, 1, 1, 1],\n  [1, 1, 1, 1, 1, ..., 1, 1, 1, 1, 1],\n  [1, 1, 1, 1, 1, ..., 1, 1, 1, 1, 1],\n  [1, 1, 1, 1, 1, ..., 1, 1, 1, 1, 1],\n  [1, 1, 1, 1, 1, ..., 1, 1, 1, 1, 1],\n  [1, 1, 1, 1, 1, ..., 1, 1, 1, 1, 1]],\n\n [[1, 1, 1, 1, 1, ..., 1, 1, 1, 1, 1],\n  [1, 1, 1, 1, 1, ..., 1, 1, 1, 1, 1],\n  [1, 1, 1, 1, 1, ..., 1, 1, 1, 1, 1],\n  [1, 1, 1, 1, 1, ..., 1, 1, 1, 1, 1],\n  [1, 1, 1, 1, 1, ..., 1, 1, 1, 1, 1],\n  [1, 1, 1, 1, 1, ..., 1, 1, 1, 1, 1],\n  [1, 1, 1, 1, 1, ..., 1, 1, 1, 1, 1],\n  [1, 1, 1, 1, 1, ..., 1, 1, 1, 1, 1],\n  [1, 1, 1, 1, 1, ..., 1, 1, 1, 1, 1],\n  [1, 1, 1, 1, 1, ..., 1, 1, 1, 1, 1],\n  [1, 1, 1, 1, 1, ..., 1, 1, 1, 1, 1]],\n\n [[1, 1, 1, 1, 1, ..., 1, 1, 1, 1, 1],\n  [1, 1, 1, 1, 1, ..., 1, 1, 1, 1, 1],\n  [1, 1, 1, 1, 1, ..., 1, 1, 1, 1, 1],\n  [1, 1, 1, 1, 1, ..., 1, 1, 1, 1, 1],\n  [1, 1, 1, 1, 1, ..., 1, 1, 1, 1, 1],\n  [1, 1, 1, 1, 1, ..., 1, 1, 1, 1, 1],\n  [1, 1, 1, 1, 1, ..., 1, 1, 1, 1, 1],\n  [1, 1, 1, 1, 1, ..., 1, 1, 1, 1, 1],\n  [1, 1, 1, 1, 1, ..., 1, 1, 1, 1, 1],\n  [1, 1, 1, 1, 1, ..., 1, 1, 1, 1, 1],\n  [1, 1, 1, 1, 1, ..., 1, 1, 1, 1, 1]]]";

// What `{:?}` writes of an array with the numbers from 1 on in each shape, in row-major order.
const DEBUGGED: [(&[usize], &str); 5] = [
    (
        &[],
        "1, shape=[], strides=[], layout=CFcf (0xf), dynamic ndim=0",
    ),
    (
        &[3],
        "[1, 2, 3], shape=[3], strides=[1], layout=CFcf (0xf), dynamic ndim=1",
    ),
    (
        &[2, 3],
        "[[1, 2, 3],\n [4, 5, 6]], shape=[2, 3], strides=[3, 1], layout=Cc (0x5), dynamic ndim=2",
    ),
    (
        &[1, 3],
        "[[1, 2, 3]], shape=[1, 3], strides=[3, 1], layout=CFcf (0xf), dynamic ndim=2",
    ),
    (
        &[0, 2],
        "[[]], shape=[0, 2], strides=[0, 0], layout=CFcf (0xf), dynamic ndim=2",
    ),
];

// Returns whether the written text is `text`.
fn is_text(written: Result<String, AllocError>, text: &str) -> bool {
    match written {
        Ok(written) => written.as_str() == text,
        Err(_) => false,
    }
}

// Returns the array of this shape with the numbers from 1 on.
fn numbered(alloc: Global, shape: &[usize]) -> Option<ArrayD<u64>> {
    let mut size = 1usize;
    for length in shape {
        size = size.saturating_mul(*length);
    }
    any_axes(alloc, shape, NUMBERS.get(..size)?)
}

// Returns whether each array of `SHAPES` writes its text with `{}`.
fn write_in_shapes(alloc: Global) -> bool {
    for (shape, text) in &SHAPES {
        let Some(array) = numbered(alloc, *shape) else {
            return false;
        };
        if !is_text(format!(in alloc; "{array}"), *text) {
            return false;
        }
    }
    true
}

// Returns whether each array of `DEBUGGED` writes its text with `{:?}`.
fn write_debugged(alloc: Global) -> bool {
    for (shape, text) in &DEBUGGED {
        let Some(array) = numbered(alloc, *shape) else {
            return false;
        };
        if !is_text(format!(in alloc; "{array:?}"), *text) {
            return false;
        }
    }
    true
}

// Returns whether a view writes these texts, the first with `{}` and the second with `{:?}`.
fn writes(alloc: Global, view: &ArrayView2<'_, u64>, text: &str, debugged: &str) -> bool {
    is_text(format!(in alloc; "{view}"), text) && is_text(format!(in alloc; "{view:?}"), debugged)
}

// Returns whether the table of 1 to 6 writes the right texts: transposed, with its rows in the opposite order, in part,
// and with one row of the transpose left. The first axis of that row has stride 1, and is too short to tell an order.
// What `{:?}` writes tells the layout too.
fn write_as_seen(alloc: Global, table: &Array2<u64>) -> bool
    requires { shape_of table.now ≡ 2 ∷ 3 ∷ [] }
{
    let columns = table.t();
    let mut upward = table.view();
    upward.invert_axis(Axis(0));
    let part = table.slice_axis(Axis(1), Slice::new(0, None, 2));
    let mut one_row = table.t();
    one_row.collapse_axis(Axis(0), 0);
    writes(
        alloc,
        &columns,
        "[[1, 4],\n [2, 5],\n [3, 6]]",
        "[[1, 4],\n [2, 5],\n [3, 6]], shape=[3, 2], strides=[1, 3], layout=Ff (0xa), const ndim=2",
    ) && writes(
        alloc,
        &upward,
        "[[4, 5, 6],\n [1, 2, 3]]",
        "[[4, 5, 6],\n [1, 2, 3]], shape=[2, 3], strides=[-3, 1], layout=c (0x4), const ndim=2",
    ) && writes(
        alloc,
        &part,
        "[[1, 3],\n [4, 6]]",
        "[[1, 3],\n [4, 6]], shape=[2, 2], strides=[3, 2], layout=Custom (0x0), const ndim=2",
    ) && writes(
        alloc,
        &one_row,
        "[[1, 4]]",
        "[[1, 4]], shape=[1, 2], strides=[1, 3], layout=Custom (0x0), const ndim=2",
    )
}

// Returns whether the table of 1 to 6 writes the right text with a width, and the table and a column of it with `{:?}`.
fn write_as_lies(alloc: Global, table: &Array2<u64>) -> bool
    requires { shape_of table.now ≡ 2 ∷ 3 ∷ [] }
{
    let column = table.column(1);
    is_text(
        format!(in alloc; "{table:4}"),
        "[[   1,    2,    3],\n [   4,    5,    6]]",
    ) && is_text(
        format!(in alloc; "{table:?}"),
        "[[1, 2, 3],\n [4, 5, 6]], shape=[2, 3], strides=[3, 1], layout=Cc (0x5), const ndim=2",
    ) && is_text(
        format!(in alloc; "{column:?}"),
        "[2, 5], shape=[2], strides=[3], layout=Custom (0x0), const ndim=1",
    )
}

fn write_views(alloc: Global) -> bool {
    match one_to_six(alloc) {
        Some(table) => write_as_seen(alloc, &table) && write_as_lies(alloc, &table),
        None => false,
    }
}

// Returns whether fractions are written with two digits.
fn write_fractions(alloc: Global) -> bool {
    let cells = [1.5f64, 2.25, -3.0];
    let list = ArrayView1::from(cells.as_slice());
    is_text(format!(in alloc; "{list:.2}"), "[1.50, 2.25, -3.00]")
}

// Returns the text of `first`, `count` times `part`, and `last`.
fn repeated(alloc: Global, first: &str, part: &str, count: usize, last: &str) -> Option<String> {
    let mut text = String::new(alloc);
    text.push_str(first).ok()?;
    for _ in 0..count {
        text.push_str(part).ok()?;
    }
    text.push_str(last).ok()?;
    Some(text)
}

// Returns whether lists of 499 and 500 ones write the right text: all ones of the first list, and those of the second
// only with `#`.
fn write_long_lists(alloc: Global) -> bool {
    let Ok(fewer) = Array1::from_elem(alloc, 499, 1u64) else {
        return false;
    };
    let Ok(many) = Array1::from_elem(alloc, 500, 1u64) else {
        return false;
    };
    let Some(short) = repeated(alloc, "[", "1, ", 498, "1]") else {
        return false;
    };
    let Some(long) = repeated(alloc, "[", "1, ", 499, "1]") else {
        return false;
    };
    is_text(format!(in alloc; "{fewer}"), short.as_str())
        && is_text(format!(in alloc; "{many}"), ROW)
        && is_text(format!(in alloc; "{many:#}"), long.as_str())
}

// Returns whether tables of ones write the right text: 22 rows of 24 ones, and 7 blocks of 11 rows of 12.
fn write_large_tables(alloc: Global) -> bool {
    let Ok(table) = Array2::from_elem(alloc, (22, 24), 1u64) else {
        return false;
    };
    let Ok(blocks) = Array3::from_elem(alloc, (7, 11, 12), 1u64) else {
        return false;
    };
    is_text(format!(in alloc; "{table}"), TABLE) && is_text(format!(in alloc; "{blocks}"), BLOCKS)
}

#[test]
fn texts(rt: HostRuntime) {
    assert!(rt; write_in_shapes(rt.alloc()));
    assert!(rt; write_debugged(rt.alloc()));
    assert!(rt; write_views(rt.alloc()));
    assert!(rt; write_fractions(rt.alloc()));
    assert!(rt; write_long_lists(rt.alloc()));
    assert!(rt; write_large_tables(rt.alloc()));
}
