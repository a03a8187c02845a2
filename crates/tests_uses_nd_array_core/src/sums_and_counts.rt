//! Sums, greatest numbers and counts, in coordinates; lists that are made by the index; and a column that is added.

use nd_array_core::{Array1, Array2, array};
use nd_test_arrays::{lists, made, shows};
use uses_nd_array_core_numbers::broadcast_columns::add_column;
use uses_nd_array_core_numbers::by_fold::{
    column_maxima, column_sums, signed_total, sum_of_column, table_total, total,
};
use uses_nd_array_core_numbers::products_windows_and_counts::{
    counts_by_column, matrix_times_vector, sliding_maximum,
};

// The table is 1 7 3 / 4 5 and the greatest number.
#[test]
fn columns_summed(rt: HostRuntime) {
    let table: Array2<u64> = made(rt.alloc(), (2, 3), &[1, 7, 3, 4, 5, u64::MAX]).expect(
        &rt, "made",
    );
    let sums = column_sums(rt.alloc(), &table).expect(&rt, "memory");
    assert!(rt; lists(&sums, &[5, 12, 2]));
    let sum = sum_of_column(rt.alloc(), &table, 2).expect(&rt, "memory");
    assert!(rt; sum == Some(2));
    let greatest = column_maxima(rt.alloc(), &table).expect(&rt, "memory");
    assert!(rt; lists(&greatest, &[4, 7, u64::MAX]));
    assert!(rt; table_total(&table) == 19);
    assert!(rt; total(&greatest) == 10);
}

// The list is -1, the greatest number and 3.
#[test]
fn signed_numbers_summed(rt: HostRuntime) {
    let list: Array1<i64> = array![in rt.alloc(); -1, i64::MAX, 3].expect(&rt, "memory");
    assert!(rt; signed_total(&list) == i64::MIN + 1);
}

// The product of 1 2 / 3 4 and 5 6; windows of two numbers of 3 1 4 1 5; and how often 1 stands in each column of 1 1 /
// 0 1.
#[test]
fn lists_by_the_index(rt: HostRuntime) {
    let matrix: Array2<u64> = made(rt.alloc(), (2, 2), &[1, 2, 3, 4]).expect(&rt, "made");
    let vector: Array1<u64> = made(rt.alloc(), 2, &[5, 6]).expect(&rt, "made");
    let image = matrix_times_vector(rt.alloc(), &matrix, &vector).expect(&rt, "memory");
    assert!(rt; lists(&image, &[17, 39]));
    let list: Array1<u64> = made(rt.alloc(), 5, &[3, 1, 4, 1, 5]).expect(&rt, "made");
    let windows = sliding_maximum(rt.alloc(), &list, 2).expect(&rt, "memory");
    assert!(rt; lists(&windows, &[3, 4, 4, 5]));
    let table: Array2<u64> = made(rt.alloc(), (2, 2), &[1, 1, 0, 1]).expect(&rt, "made");
    let counts = counts_by_column(rt.alloc(), &table, 1).expect(&rt, "memory");
    assert!(rt;
        counts.len() == 2 && counts.get(0).copied() == Some(1) && counts.get(1).copied() == Some(2)
    );
}

// The column 10 20 is added to 1 2 / 3 4.
#[test]
fn a_column_added(rt: HostRuntime) {
    let mut table: Array2<u64> = made(rt.alloc(), (2, 2), &[1, 2, 3, 4]).expect(&rt, "made");
    let column: Array1<u64> = made(rt.alloc(), 2, &[10, 20]).expect(&rt, "made");
    add_column(&mut table, &column);
    assert!(rt; shows(&table, [2, 2], &[11, 12, 23, 24]));
}
