//! Parts of an array: reading them, moving them out, and writing to them.

use nd_array_core::{ArrayBase, GetMut};
use nd_shape_and_slice::{Axis, Slice, slices, slices_fit};
use nd_test_arrays::{is_list, is_table, table};
use std::alloc::Global;

/// Every second coordinate, from the first one on.
const EVERY_SECOND: Slice = Slice {
    start: 0,
    end: None,
    step: 2,
};

fn one_row_moved_out(alloc: Global) -> bool {
    match table(alloc, (2, 2), &[1, 2, 3, 4]) {
        Some(table) => is_list(&table.index_axis_move(Axis(0), 1), &[3, 4]),
        None => false,
    }
}

fn one_column_changed(alloc: Global) -> bool {
    let Some(mut table) = table(alloc, (2, 2), &[1, 2, 3, 4]) else {
        return false;
    };
    {
        let mut column = table.index_axis_mut(Axis(1), 1);
        column.map_inplace(|x| *x = x.wrapping_add(10));
    }
    is_table(&table, [2, 2], &[1, 12, 3, 14])
}

fn one_element_of_a_row_changed(alloc: Global) -> bool {
    let Some(mut table) = table(alloc, (2, 2), &[1, 2, 3, 4]) else {
        return false;
    };
    if table.nrows() != 2 {
        return false;
    }
    {
        let mut row = table.row_mut(0);
        match row.get_mut(1) {
            Some(element) => *element = 5,
            None => return false,
        }
    }
    is_table(&table, [2, 2], &[1, 5, 3, 4])
}

fn every_second_of_each_axis_kept(alloc: Global) -> bool {
    let Some(mut table) = table(alloc, (3, 4), &[0, 1, 2, 3, 4, 5, 6, 7, 8, 9, 10, 11]) else {
        return false;
    };
    table.slice_each_axis_inplace(|_axis| EVERY_SECOND);
    is_table(&table, [2, 2], &[0, 2, 8, 10])
}

fn every_second_of_each_axis_written(alloc: Global) -> bool {
    let Some(mut table) = table(alloc, (3, 2), &[1, 2, 3, 4, 5, 6]) else {
        return false;
    };
    let filled = table
        .slice_each_axis_mut(|_axis| EVERY_SECOND)
        .fill(0)
        .is_ok();
    filled && is_table(&table, [3, 2], &[0, 2, 3, 4, 0, 6])
}

fn a_part_filled(alloc: Global) -> bool {
    let Some(mut table) = table(alloc, (2, 3), &[1, 2, 3, 4, 5, 6]) else {
        return false;
    };
    let list = slices![1usize, 1usize..];
    slices_fit(table.shape(), &list)
        && table.fill_slice(list, 0).is_ok()
        && is_table(&table, [2, 3], &[1, 2, 3, 4, 0, 0])
}

#[test]
fn parts_read_and_written(rt: HostRuntime) {
    assert!(rt; one_row_moved_out(rt.alloc()));
    assert!(rt; one_column_changed(rt.alloc()));
    assert!(rt; one_element_of_a_row_changed(rt.alloc()));
    assert!(rt; every_second_of_each_axis_kept(rt.alloc()));
    assert!(rt; every_second_of_each_axis_written(rt.alloc()));
    assert!(rt; a_part_filled(rt.alloc()));
}
