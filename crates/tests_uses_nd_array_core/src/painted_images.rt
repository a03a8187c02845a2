//! Images that are painted: blocks, borders, columns, rows, checkerboards and the parts of an axis.

use crate::tables_made_and_compared::{is_shown, made_table};
use nd_array_core::{Array2, ArrayD};
use nd_shape_and_slice::{Axis, IxDyn, SliceInfoElem};
use nd_test_arrays::{made, part, shows};
use uses_nd_array_core::assigned_parts::{patch_rectangle, put_inside};
use uses_nd_array_core::{
    checkerboard, draw_border, fill_diagonal_blocks, fill_halves, interleave_rows,
    paint_every_second_column, try_fill_slices,
};

#[test]
fn blocks_down_the_diagonal(rt: HostRuntime) {
    let mut matrix = made_table(&rt, 5, 3, &[0; 15]);
    fill_diagonal_blocks(&mut matrix, 2, 9);
    assert!(rt;
        is_shown(
            &matrix,
            [5, 3],
            &[9, 9, 0, 9, 9, 0, 0, 0, 9, 0, 0, 9, 0, 0, 0]
        )
    );
    fill_diagonal_blocks(&mut matrix, usize::MAX, 7);
    assert_eq!(rt; matrix.get([4, 2]).copied(), Some(7));
}

#[test]
fn borders(rt: HostRuntime) {
    let given: [([usize; 2], &[u64], &[u64]); 4] = [
        ([3, 4], &[0; 12], &[1, 1, 1, 1, 1, 0, 0, 1, 1, 1, 1, 1]),
        ([1, 3], &[0; 3], &[1, 1, 1]),
        ([3, 1], &[0; 3], &[1, 1, 1]),
        ([0, 3], &[], &[]),
    ];
    for (shape, before, wanted) in given {
        let [rows, columns] = shape;
        let mut image = made_table(&rt, rows, columns, before);
        assert!(rt; draw_border(&mut image, 1).is_ok());
        assert!(rt; is_shown(&image, shape, wanted));
    }
}

#[test]
fn columns_of_a_grid(rt: HostRuntime) {
    let mut grid: ArrayD<u64> = made(rt.alloc(), IxDyn::new(&[2, 3]), &[1, 2, 3, 4, 5, 6]).expect(
        &rt, "made",
    );
    assert!(rt; grid.ndim() == 2);
    assert!(rt; paint_every_second_column(&mut grid, 9).is_ok());
    assert!(rt; shows(&grid, [2, 3], &[9, 2, 9, 9, 5, 9]));
}

#[test]
fn rows_in_turn(rt: HostRuntime) {
    let given: [(usize, &[u64], &[u64]); 3] = [
        (
            5,
            &[1, 2, 3, 4, 5, 6, 7, 8, 9, 10],
            &[0, 0, 7, 7, 0, 0, 7, 7, 0, 0],
        ),
        (1, &[1, 2], &[0, 0]),
        (0, &[], &[]),
    ];
    for (rows, before, wanted) in given {
        let mut grid = made_table(&rt, rows, 2, before);
        assert!(rt; interleave_rows(&mut grid, 0, 7).is_ok());
        assert!(rt; is_shown(&grid, [rows, 2], wanted));
    }
}

#[test]
fn a_row_and_the_rest(rt: HostRuntime) {
    let mut grid: ArrayD<u64> = made(rt.alloc(), IxDyn::new(&[3, 2]), &[1, 2, 3, 4, 5, 6]).expect(
        &rt, "made",
    );
    let all = part(0, None, 1);
    let row = [SliceInfoElem::Index(1), all];
    let others = [part(0, None, 2), all];
    let done = try_fill_slices(&mut grid, (row.as_slice(), others.as_slice()), 8, 9);
    assert!(rt; matches!(done, Some(Ok(()))));
    let refused = try_fill_slices(&mut grid, (row.as_slice(), [all, all].as_slice()), 8, 9);
    assert!(rt; refused.is_none());
    assert!(rt; shows(&grid, [3, 2], &[9, 9, 8, 8, 9, 9]));
}

#[test]
fn checkerboards(rt: HostRuntime) {
    let items = Vec::from_slice(rt.alloc(), &[0; 6]).expect(&rt, "memory");
    let mut image: Array2<u8> = Array2::from_shape_vec((2, 3), items).expect(&rt, "shape");
    checkerboard(&mut image, 4, 7);
    let seen = (image.get([1, 0]).copied(), image.get([1, 1]).copied());
    assert_eq!(rt; seen, (Some(7), Some(4)));
    checkerboard(&mut image, 0, 1);
    let seen = (image.get([0, 1]).copied(), image.get([0, 2]).copied());
    assert_eq!(rt; seen, (Some(1), Some(0)));
}

#[test]
fn both_parts_of_an_axis(rt: HostRuntime) {
    let mut grid = made_table(&rt, 2, 4, &[1, 2, 3, 4, 5, 6, 7, 8]);
    assert!(rt; grid.ndim() == 2 && grid.len_of(Axis(1)) == 4);
    assert!(rt; fill_halves(&mut grid, Axis(1), 1, 0, 9).is_ok());
    assert!(rt; is_shown(&grid, [2, 4], &[0, 9, 9, 9, 0, 9, 9, 9]));
}

// The patch 1 2 / 3 4 is put over a corner of zeros, and 1 3 / 2 4 over another corner.
#[test]
fn patches(rt: HostRuntime) {
    let mut image = made_table(&rt, 3, 4, &[0; 12]);
    let patch = made_table(&rt, 2, 2, &[1, 2, 3, 4]);
    assert!(rt; patch_rectangle(&mut image, &patch, 1, 2).is_ok());
    assert!(rt; is_shown(&image, [3, 4], &[0, 0, 0, 0, 0, 0, 1, 2, 0, 0, 3, 4]));
    assert!(rt; patch_rectangle(&mut image, &patch.t(), 0, 1).is_ok());
    assert!(rt; is_shown(&image, [3, 4], &[0, 1, 3, 0, 0, 2, 4, 2, 0, 0, 3, 4]));
}

// The image 1 2 3 / 4 5 6 is put within a border of nines.
#[test]
fn a_board(rt: HostRuntime) {
    let mut board = made_table(&rt, 4, 5, &[9; 20]);
    let image = made_table(&rt, 2, 3, &[1, 2, 3, 4, 5, 6]);
    assert!(rt; put_inside(&mut board, &image).is_ok());
    assert!(rt;
        is_shown(
            &board,
            [4, 5],
            &[9, 9, 9, 9, 9, 9, 1, 2, 3, 9, 9, 4, 5, 6, 9, 9, 9, 9, 9, 9]
        )
    );
}
