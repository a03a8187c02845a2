//! Other views of images: turned, cut, with one element or row repeated, by the positions in row-major order, and with
//! their leading axes joined.

ghost use Rattle.std.specs.Prelude.{◌≡◌, ◌∷◌, []};
ghost use Rattle.nd_array_core.specs.ArrayMeaning.{shape_of};

use crate::tables_made_and_compared::{is_shown, made_table};
use nd_array_core::{Array2, Array3, ArrayView1, arr0, aview0};
use nd_shape_and_slice::{Axis, Slice};
use nd_test_arrays::{made, shows};
use std::process::Abort;
use uses_nd_array_core::flatten_and_to_shape::{number_in_line, pixels_seen, row_sum_of_slice};
use uses_nd_array_core::tuple_indexes::{cell, exchange_across, only, put_cell, sample};
use uses_nd_array_core::{
    corner, diagonal_seen, in_row, neighbourhood, row_repeated, table_of, try_slice_axis,
    turn_half, turned_at_the_least_stride, turned_table,
};
use uses_nd_array_core_numbers::joined_axes::{TableError, leading_axes_joined};

const TO_12: [u64; 12] = [1, 2, 3, 4, 5, 6, 7, 8, 9, 10, 11, 12];

#[test]
fn a_turned_table(rt: HostRuntime) {
    let cells = Vec::from_slice(rt.alloc(), &TO_12[..6]).expect(&rt, "memory");
    let table: Array2<u64> = turned_table(2, 3, cells).expect(&rt, "shape");
    assert_eq!(rt; table.get([2, 0]).copied(), Some(3));
    let part = try_slice_axis(&table, Axis(0), Slice::new(-2, None, -1)).expect(&rt, "slice");
    assert!(rt; shows(&part, [2, 2], &[3, 6, 2, 5]));
}

// Views one element as each element of a table, if there is such a table.
fn as_tables(rt: &impl Abort, one: &ArrayView1<'_, u64>)
    requires { shape_of one.now ≡ 1 ∷ [] }
{
    assert_eq!(rt; one.strides(), [0].as_slice());
    assert!(rt; table_of(one, 1 << 40, 1 << 40).is_none());
    match table_of(one, 2, 3) {
        Some(table) => assert!(rt; shows(&table, [2, 3], &[5; 6])),
        None => assert!(rt; false),
    }
}

#[test]
fn one_element_as_a_table(rt: HostRuntime) {
    let items = [5];
    match turned_at_the_least_stride(&items) {
        Ok(one) => as_tables(&rt, &one),
        Err(_) => assert!(rt; false),
    }
}

#[test]
fn a_row_repeated(rt: HostRuntime) {
    let items = [1, 2, 3];
    match row_repeated(2, &items) {
        Ok(table) => assert!(rt; shows(&table, [2, 3], &[1, 2, 3, 1, 2, 3])),
        Err(_) => assert!(rt; false),
    }
}

// The image is 1 2 3 4 / 5 6 7 8 / 9 10 11 12.
#[test]
fn parts_of_an_image(rt: HostRuntime) {
    let mut image = made_table(&rt, 3, 4, &TO_12);
    assert_eq!(rt; corner(&image).copied(), Some(1));
    assert!(rt; image.nrows() == 3);
    assert_eq!(rt;
        (in_row(&image, 1, 2), in_row(&image, 1, 4)),
        (Some(7), None)
    );
    assert!(rt; neighbourhood(&image, 0, 1).is_none() && neighbourhood(&image, 1, 3).is_none());
    let around = neighbourhood(&image, 1, 2).expect(&rt, "border");
    assert!(rt; shows(&around, [3, 3], &[2, 3, 4, 6, 7, 8, 10, 11, 12]));
    turn_half(&mut image);
    assert_eq!(rt; image.get([0, 1]).copied(), Some(11));
}

// The diagonal of 1 2 3 4 / 5 6 7 8 / 9 10 11 12.
#[test]
fn a_diagonal(rt: HostRuntime) {
    let image = made_table(&rt, 3, 4, &TO_12);
    let line = diagonal_seen(&image);
    assert_eq!(rt;
        (
            line.get(0).copied(),
            line.get(2).copied(),
            line.get(3).copied()
        ),
        (Some(1), Some(11), None)
    );
}

const FROM_0: [u64; 24] = [
    0, 1, 2, 3, 4, 5, 6, 7, 8, 9, 10, 11, 12, 13, 14, 15, 16, 17, 18, 19, 20, 21, 22, 23,
];

#[test]
fn a_buffer_turned(rt: HostRuntime) {
    let cube: Array3<u64> = made(rt.alloc(), (2, 3, 4), &FROM_0).expect(&rt, "made");
    for (rank, wanted) in [(5, (true, Some(5))), (24, (true, None))] {
        assert_eq!(rt; number_in_line(rt.alloc(), &cube, rank).ok(), Some(wanted));
    }
    let turned = number_in_line(rt.alloc(), &cube.t(), 5).ok();
    assert_eq!(rt; turned, Some((false, Some(20))));
}

#[test]
fn pixels_and_rows(rt: HostRuntime) {
    let image: Array3<u64> = made(rt.alloc(), (2, 2, 3), &FROM_0[..12]).expect(&rt, "made");
    assert!(rt; image.is_standard_layout());
    let pixels = pixels_seen(rt.alloc(), &image);
    assert!(rt; shows(&pixels, [4, 3], &FROM_0[..12]));
    assert_eq!(rt; pixels.get([4, 0]).copied(), None);
    let table = made_table(&rt, 2, 3, &FROM_0[..6]);
    assert!(rt; table.is_standard_layout());
    assert_eq!(rt; row_sum_of_slice(&table, 1), 12);
}

// There are two blocks, each of one row of two numbers.
#[test]
fn blocks_as_rows(rt: HostRuntime) {
    let blocks: Array3<u64> = made(rt.alloc(), (2, 1, 2), &[1, 2, 3, 4]).expect(&rt, "made");
    let table = leading_axes_joined(blocks.into_dyn()).expect(&rt, "a shape");
    assert!(rt; shows(&table, [2, 2], &[1, 2, 3, 4]));
    let one = arr0(rt.alloc(), 7u64).expect(&rt, "memory");
    let refused = matches!(leading_axes_joined(one.into_dyn()), Err(TableError::NoAxis));
    assert!(rt; refused);
}

// Cells are read, sought and written at tuples of coordinates.
#[test]
fn tuples_as_indexes(rt: HostRuntime) {
    let mut table = made_table(&rt, 2, 2, &FROM_0[..4]);
    assert_eq!(rt; cell(&table, 1, 0), 2);
    put_cell(&mut table, 0, 1, 9);
    exchange_across(&mut table, 0, 1);
    assert!(rt; is_shown(&table, [2, 2], &[0, 2, 9, 3]));
    let cube: Array3<u64> = made(rt.alloc(), (2, 3, 4), &FROM_0).expect(&rt, "made");
    let samples = [(1, 2, 3), (0, 1, 2), (1, 3, 0), (2, 0, 0)];
    let wanted = [Some(23), Some(6), None, None];
    for (sought, wanted) in samples.iter().zip(&wanted) {
        let (row, column, channel) = *sought;
        assert_eq!(rt; sample(&cube, row, column, channel).copied(), *wanted);
    }
    assert_eq!(rt; only(&aview0(&7u64)).copied(), Some(7));
}
