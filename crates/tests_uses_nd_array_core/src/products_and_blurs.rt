//! Matrices that are made cell by cell: products, an upper triangle and a blur; and a histogram.

use crate::tables_made_and_compared::{is_shown, made_table};
use nd_array_core::{Array1, Array2, ArrayBase, Data};
use nd_shape_and_slice::Ix2;
use nd_test_arrays::{made, shows};
use uses_nd_array_core::pixel_value_counts::histogram;
use uses_nd_array_core::products_and_blurs::{blurred, product};
use uses_nd_array_core_numbers::outer_products_and_triangles::{
    clear_below_diagonal, outer_product, upper_triangle,
};

// Returns whether a matrix of three columns has these cells, row by row.
fn has_cells<A: Copy + PartialEq, S: Data<Elem = A>>(
    array: &ArrayBase<S, Ix2>,
    cells: &[[A; 3]],
) -> bool {
    for row in 0..cells.len() {
        for column in 0..3 {
            if array.get([row, column]).copied() != Some(cells[row][column]) {
                return false;
            }
        }
    }
    array.shape() == [cells.len(), 3].as_slice()
}

// The product of 1 2 / 3 4 and 5 6 0 / 7 8 and the greatest number. Twice that number wraps to -2.
#[test]
fn a_product(rt: HostRuntime) {
    let one = made_table(&rt, 2, 2, &[1, 2, 3, 4]);
    let other = made_table(&rt, 2, 3, &[5, 6, 0, 7, 8, u64::MAX]);
    let c = product(rt.alloc(), &one, &other).expect(&rt, "memory");
    assert!(rt; is_shown(&c, [2, 3], &[19, 22, u64::MAX - 1, 43, 50, u64::MAX - 3]));
}

// The products of 1 2 and 3 4 5, and their upper triangle.
#[test]
fn products_by_the_index(rt: HostRuntime) {
    let down: Array1<u64> = made(rt.alloc(), 2, &[1, 2]).expect(&rt, "made");
    let across: Array1<u64> = made(rt.alloc(), 3, &[3, 4, 5]).expect(&rt, "made");
    let mut products = outer_product(rt.alloc(), &down, &across).expect(&rt, "memory");
    assert!(rt; shows(&products, [2, 3], &[3, 4, 5, 6, 8, 10]));
    let upper = upper_triangle(rt.alloc(), &products).expect(&rt, "memory");
    assert!(rt; shows(&upper, [2, 3], &[3, 4, 5, 0, 8, 10]));
    clear_below_diagonal(&mut products);
    assert!(rt; products == upper);
}

#[test]
fn a_blur(rt: HostRuntime) {
    let pixels = Vec::from_slice(rt.alloc(), &[0, 0, 0, 0, 90, 0, 0, 0, 9]).expect(&rt, "memory");
    let image: Array2<u8> = Array2::from_shape_vec((3, 3), pixels).expect(&rt, "shape");
    let seen = blurred(rt.alloc(), &image).expect(&rt, "memory");
    assert!(rt; has_cells(&seen, &[[10, 10, 10], [10, 11, 12], [10, 12, 14]]));
}

#[test]
fn a_histogram(rt: HostRuntime) {
    let pixels = Vec::from_slice(rt.alloc(), &[7, 0, 7, 255, 7, 0]).expect(&rt, "memory");
    let image: Array2<u8> = Array2::from_shape_vec((2, 3), pixels).expect(&rt, "shape");
    let counts = histogram(&image);
    assert_eq!(rt;
        (counts[0], counts[1], counts[7], counts[255]),
        (2, 0, 3, 1)
    );
}
