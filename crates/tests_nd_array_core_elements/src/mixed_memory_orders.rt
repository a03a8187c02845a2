//! Two arrays in two different orders: a table of 20 rows and 700 columns, whose lanes are so long that they are
//! processed in parts, and tables with rows so short that the lanes go along the columns, or all elements are one lane.

ghost use Rattle.std.specs.Prelude.{◌≡◌, ◌∷◌, []};
ghost use Rattle.nd_array_core.specs.ArrayMeaning.{shape_of};

use nd_array_core::{Array2, Array3, GetMut};
use nd_shape_and_slice::ShapeBuilder;
use nd_test_arrays::{array_of, numbers};
use std::process::Abort;
use std::test::Fail;

/// Returns a table of 20 rows and 700 columns that is stored as the numbers from 1 on.
fn wide(rt: &(impl Abort + AllocGlobal), strides: &[isize; 2]) -> Array2<u64>
    ensures { shape_of result ≡ 20 ∷ 700 ∷ [] }
{
    match numbers(rt.alloc(), 1, 14_000) {
        Ok(items) => Array2::from_shape_vec((20, 700).strides(strides), items).expect(rt, "shape"),
        Err(_) => rt.panic("memory"),
    }
}

/// Returns a table of 1200 rows and 4 columns that is stored as the numbers from `first` on.
fn tall(rt: &(impl Abort + AllocGlobal), strides: &[isize; 2], first: u64) -> Array2<u64>
    ensures { shape_of result ≡ 1200 ∷ 4 ∷ [] }
{
    match numbers(rt.alloc(), first, 4_800) {
        Ok(items) => Array2::from_shape_vec((1200, 4).strides(strides), items).expect(rt, "shape"),
        Err(_) => rt.panic("memory"),
    }
}

/// Returns whether a table is stored as `runs` runs of `length` numbers. Each run begins with its own number, counted
/// from 1, and goes on by steps of `step`.
fn stored_in_runs(table: Array2<u64>, runs: u64, length: u64, step: u64) -> bool {
    let stored = table.into_raw_vec();
    let mut rank = 0usize;
    for run in 0..runs {
        for k in 0..length {
            let wanted = step.wrapping_mul(k).wrapping_add(run).wrapping_add(1);
            if stored.get(rank).copied() != Some(wanted) {
                return false;
            }
            rank = rank.saturating_add(1);
        }
    }
    stored.len() == rank
}

/// Assigns a table's elements to another table, and returns whether both are equal then.
fn assigns(from: &Array2<u64>, to: &mut Array2<u64>) -> bool
    requires { shape_of from.now ≡ shape_of to.old }
{
    from.assign_to(to).is_ok() && *to == *from
}

#[test]
fn assigned_from_the_other_order(rt: HostRuntime) {
    let mut rows = wide(&rt, &[700, 1]);
    assert!(rt; assigns(&wide(&rt, &[1, 20]), &mut rows) && stored_in_runs(rows, 20, 700, 20));
    let mut columns = wide(&rt, &[1, 20]);
    assert!(rt;
        assigns(&wide(&rt, &[700, 1]), &mut columns) && stored_in_runs(columns, 700, 20, 700)
    );
}

#[test]
fn one_element_differs(rt: HostRuntime) {
    let columns = wide(&rt, &[1, 20]);
    let mut rows = wide(&rt, &[700, 1]);
    assert!(rt; assigns(&columns, &mut rows));
    match rows.get_mut([19, 699]) {
        Some(last) => *last = 0,
        None => rt.panic("no such element"),
    }
    assert!(rt; rows != columns);
}

/// Returns whether each number that a wide table is stored as is its position plus 1, plus a hundred thousand times the
/// number that the table in column-major order has there.
fn has_both(rows: Array2<u64>) -> bool {
    let stored = rows.into_raw_vec();
    for rank in 0..stored.len() {
        let column = rank / 700 + 20 * (rank % 700) + 1;
        let number = stored[rank];
        if number / 100_000 != column as u64 || number % 100_000 != rank as u64 + 1 {
            return false;
        }
    }
    true
}

#[test]
fn rows_zipped_with_columns(rt: HostRuntime) {
    let columns = wide(&rt, &[1, 20]);
    let mut rows = wide(&rt, &[700, 1]);
    let mut calls = 0u64;
    rows.zip_mut_with(&columns, |x, y| {
        calls = calls.saturating_add(1);
        *x = x.wrapping_add(y.wrapping_mul(100_000));
    });
    assert!(rt; calls == 14_000 && has_both(rows));
}

#[test]
fn columns_moved_into_rows(rt: HostRuntime) {
    let mut rows = wide(&rt, &[700, 1]);
    wide(&rt, &[1, 20]).move_into(&mut rows);
    assert!(rt; stored_in_runs(rows, 20, 700, 20));
}

/// Returns whether three planes of 20 rows of 700 numbers are stored as the numbers that an array in column-major order
/// has at the same indexes.
fn has_planes(rows: Array3<u64>) -> bool {
    let stored = rows.into_raw_vec();
    for rank in 0..stored.len() {
        let (plane, row, column) = (rank / 14_000, rank / 700 % 20, rank % 700);
        if stored[rank] != (plane + 3 * row + 60 * column + 1) as u64 {
            return false;
        }
    }
    true
}

#[test]
fn planes_assigned(rt: HostRuntime) -> Result<(), Fail> {
    // Three planes of 20 rows of 700 numbers are stored in column-major order.
    let columns: Array3<u64> = array_of((3, 20, 700).f(), numbers(rt.alloc(), 1, 42_000)?)?;
    let mut rows: Array3<u64> = array_of((3, 20, 700), numbers(rt.alloc(), 1, 42_000)?)?;
    assert!(rt; columns.assign_to(&mut rows).is_ok() && rows == columns);
    assert!(rt; has_planes(rows));
    Ok(())
}

#[test]
fn short_rows_assigned(rt: HostRuntime) {
    let mut rows = tall(&rt, &[4, 1], 5);
    assert!(rt;
        assigns(&tall(&rt, &[1, 1200], 1), &mut rows) && stored_in_runs(rows, 1200, 4, 1200)
    );
    let mut rows = tall(&rt, &[4, 1], 5);
    assert!(rt; assigns(&tall(&rt, &[4, 1], 1), &mut rows) && stored_in_runs(rows, 1, 4_800, 1));
}
