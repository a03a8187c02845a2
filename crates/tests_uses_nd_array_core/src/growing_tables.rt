//! Tables that grow: rows and columns that are appended, a log of the last rows, and room that is reserved.

use crate::tables_made_and_compared::{is_shown, made_table};
use nd_array_core::Array2;
use uses_nd_array_core::growing_tables::{
    both_after, columns_after, push_out, row_lent_after, rows_after, rows_read,
};

// Appends a row of `source` to `log`, which gives up its first row.
fn pushes_out(log: &mut Array2<u64>, source: &Array2<u64>, row: usize) -> bool {
    let (rows, columns) = source.dim();
    let (lines, length) = log.dim();
    row < rows && 0 < lines && columns == length && push_out(log, source.row(row)).is_ok()
}

// Appends the two rows of `source` to `table`.
fn takes_both(table: &mut Array2<u64>, source: &Array2<u64>) -> bool {
    let (rows, columns) = source.dim();
    let (_rows, length) = table.dim();
    rows == 2 && columns == length && rows_after(table, &[source.row(0), source.row(1)]).is_ok()
}

// Appends the first row of `source` to `table`.
fn takes_first(table: &mut Array2<u64>, source: &Array2<u64>) -> bool {
    let (rows, columns) = source.dim();
    let (_rows, length) = table.dim();
    0 < rows && columns == length && row_lent_after(table, &source.row(0)).is_ok()
}

// The rows 3 4 and 5 6 are appended to 1 2, and then 3 4 again.
#[test]
fn rows(rt: HostRuntime) {
    let mut table = made_table(&rt, 1, 2, &[1, 2]);
    let source = made_table(&rt, 2, 2, &[3, 4, 5, 6]);
    assert!(rt; takes_both(&mut table, &source));
    assert!(rt; is_shown(&table, [3, 2], &[1, 2, 3, 4, 5, 6]));
    assert!(rt; takes_first(&mut table, &source));
    assert!(rt; is_shown(&table, [4, 2], &[1, 2, 3, 4, 5, 6, 3, 4]));
}

#[test]
fn rows_by_number(rt: HostRuntime) {
    let source = made_table(&rt, 3, 2, &[1, 2, 3, 4, 5, 6]);
    match rows_read(rt.alloc(), &source, &[2, 0, 2]) {
        Ok(table) => assert!(rt; is_shown(&table, [3, 2], &[5, 6, 1, 2, 5, 6])),
        Err(_) => assert!(rt; false),
    }
}

#[test]
fn the_last_rows(rt: HostRuntime) {
    let mut log = made_table(&rt, 2, 2, &[1, 2, 3, 4]);
    let source = made_table(&rt, 2, 2, &[5, 6, 7, 8]);
    assert!(rt; pushes_out(&mut log, &source, 0));
    assert!(rt; is_shown(&log, [2, 2], &[3, 4, 5, 6]));
    assert!(rt; pushes_out(&mut log, &source, 1));
    assert!(rt; is_shown(&log, [2, 2], &[5, 6, 7, 8]));
}

// The columns of 3 4 / 5 6 are appended to 1 / 2, the second one first, and then the second one twice.
#[test]
fn columns(rt: HostRuntime) {
    let mut table = made_table(&rt, 2, 1, &[1, 2]);
    let source = made_table(&rt, 2, 2, &[3, 4, 5, 6]);
    assert!(rt; columns_after(&mut table, &source, &[1, 0]).is_ok());
    assert!(rt; is_shown(&table, [2, 3], &[1, 4, 3, 2, 6, 5]));
    assert!(rt; columns_after(&mut table, &source, &[1, 1]).is_ok());
    assert!(rt; is_shown(&table, [2, 5], &[1, 4, 3, 4, 4, 2, 6, 5, 6, 6]));
}

#[test]
fn both_at_once(rt: HostRuntime) {
    let mut table = made_table(&rt, 2, 1, &[1, 2]);
    let first = made_table(&rt, 2, 2, &[3, 4, 5, 6]);
    let second = made_table(&rt, 2, 1, &[7, 8]);
    assert!(rt; both_after(&mut table, first.view(), second.view()).is_ok());
    assert!(rt; is_shown(&table, [2, 4], &[1, 3, 4, 7, 2, 5, 6, 8]));
}
