//! Slices and views that are lent, as values or for a call, and written.

use crate::tables_made_and_compared::{is_shown, made_table};
use nd_array_core::Array2;
use nd_shape_and_slice::{Axis, ShapeBuilder};
use nd_test_arrays::stores;
use uses_nd_array_core::elements_as_slice_mut::{double_each, fill_row_as_slice, fill_run};
use uses_nd_array_core::slice_if_contiguous::{fill_run_lent, fill_standard, put_at_rank};
use uses_nd_array_core::{fill_diagonal, fill_front, fill_seen, fill_view};

#[test]
fn the_front_of_a_slice(rt: HostRuntime) {
    let mut items = [1, 2, 3, 4];
    assert!(rt; matches!(fill_front(&mut items, 3, 7), Ok(Ok(()))));
    assert_eq!(rt; items, [7, 7, 7, 4]);
    assert!(rt; fill_front(&mut items, 5, 9).is_err());
    assert_eq!(rt; items, [7, 7, 7, 4]);
}

#[test]
fn every_second_element(rt: HostRuntime) {
    let mut items = [1, 2, 3, 4, 5, 6];
    assert!(rt; matches!(fill_seen(&mut items, 3.strides(&[2]), 0), Ok(Ok(()))));
    assert_eq!(rt; items, [0, 2, 0, 4, 0, 6]);
}

// Fills an array twice through one mutable view.
fn fills_twice(square: &mut Array2<u64>) -> bool {
    let mut view = square.view_mut();
    fill_view(&mut view, 6).is_ok() && fill_view(&mut view, 5).is_ok()
}

#[test]
fn a_diagonal_and_all(rt: HostRuntime) {
    let mut square = made_table(&rt, 2, 2, &[1, 2, 3, 4]);
    assert!(rt; fill_diagonal(&mut square, 7).is_ok());
    assert!(rt; is_shown(&square, [2, 2], &[7, 2, 3, 7]));
    assert!(rt; fills_twice(&mut square));
    assert!(rt; is_shown(&square, [2, 2], &[5; 4]));
    assert!(rt; fill_view(&mut square, 4).is_ok());
    assert!(rt; is_shown(&square, [2, 2], &[4; 4]));
}

#[test]
fn an_image_of_doubles(rt: HostRuntime) {
    let mut image = made_table(&rt, 2, 3, &[1, 2, 3, 4, 5, 6]);
    assert!(rt; image.is_standard_layout());
    double_each(&mut image);
    assert!(rt; stores(image, &[2, 4, 6, 8, 10, 12]));
}

#[test]
fn rows_and_columns(rt: HostRuntime) {
    let mut image = made_table(&rt, 2, 3, &[1, 2, 3, 4, 5, 6]);
    assert!(rt; fill_row_as_slice(&mut image, 1, 9));
    let mut turned = image.reversed_axes();
    assert!(rt; turned.nrows() == 3);
    assert!(rt; !fill_row_as_slice(&mut turned, 1, 7));
    assert!(rt; stores(turned, &[1, 2, 3, 9, 9, 9]));
}

#[test]
fn a_run_in_column_major_order(rt: HostRuntime) {
    let mut image = made_table(&rt, 2, 3, &[1, 2, 3, 4, 5, 6]);
    assert!(rt; image.nrows() == 2);
    image.invert_axis(Axis(0));
    let mut turned = image.reversed_axes();
    assert!(rt; turned.as_slice_memory_order().is_some());
    fill_run(&mut turned, 5);
    assert!(rt; stores(turned, &[5; 6]));
}

#[test]
fn a_table_by_ranks(rt: HostRuntime) {
    let mut table = made_table(&rt, 2, 3, &[1, 2, 3, 4, 5, 6]);
    assert!(rt; table.len() == 6 && put_at_rank(&mut table, 4, 9));
    assert!(rt; is_shown(&table, [2, 3], &[1, 2, 3, 4, 9, 6]));
    assert!(rt; fill_standard(&mut table, 4));
    let mut turned = table.reversed_axes();
    assert!(rt; turned.len() == 6);
    assert!(rt; !fill_standard(&mut turned, 6) && !put_at_rank(&mut turned, 0, 6));
    assert!(rt; is_shown(&turned, [3, 2], &[4; 6]));
    assert!(rt; fill_run_lent(&mut turned, 6));
    assert!(rt; stores(turned, &[6; 6]));
}
