//! Images that are built from others, and images that are compared.

use crate::tables_made_and_compared::{is_shown, made_table};
use nd_array_core::Array2;
use nd_shape_and_slice::ShapeBuilder;
use nd_test_arrays::made;
use uses_nd_array_core::mapped_elements::thresholded;
use uses_nd_array_core::{
    crop_transposed, cropped_and_mirrored, flipped_copy, is_transpose, push_rows_reversed,
    transposed_copy,
};

#[test]
fn rows_of_a_matrix(rt: HostRuntime) {
    let matrix = made_table(&rt, 2, 3, &[1, 2, 3, 4, 5, 6]);
    let pushed = push_rows_reversed(rt.alloc(), &matrix).expect(&rt, "memory");
    assert!(rt; is_shown(&pushed, [2, 3], &[4, 5, 6, 1, 2, 3]));
}

#[test]
fn a_copy_of_a_transpose(rt: HostRuntime) {
    let matrix = made_table(&rt, 2, 3, &[1, 2, 3, 4, 5, 6]);
    let copy = transposed_copy(rt.alloc(), &matrix).expect(&rt, "memory");
    assert!(rt; is_shown(&copy, [3, 2], &[1, 4, 2, 5, 3, 6]));
}

// Of 1 2 3 4 / 5 6 7 8 / 9 10 11 12, the first three columns of the last two rows are copied in the opposite order, and
// then all rows from the last one to the first. The second and third columns become rows.
#[test]
fn copies_mirrored_and_flipped(rt: HostRuntime) {
    let image = made_table(&rt, 3, 4, &[1, 2, 3, 4, 5, 6, 7, 8, 9, 10, 11, 12]);
    let copy = cropped_and_mirrored(rt.alloc(), &image, 1, 0, 2, 3).expect(&rt, "memory");
    assert!(rt; is_shown(&copy, [2, 3], &[7, 6, 5, 11, 10, 9]));
    let copy = flipped_copy(rt.alloc(), &image).expect(&rt, "memory");
    assert!(rt; is_shown(&copy, [3, 4], &[9, 10, 11, 12, 5, 6, 7, 8, 1, 2, 3, 4]));
    let turned = crop_transposed(rt.alloc(), &image, 0, 1, 3, 2).expect(&rt, "memory");
    assert!(rt; is_shown(&turned, [2, 3], &[2, 6, 10, 3, 7, 11]));
}

#[test]
fn a_threshold(rt: HostRuntime) {
    let items = Vec::from_slice(rt.alloc(), &[10, 20, 30, 30, 20, 10]).expect(&rt, "memory");
    let image: Array2<u8> = Array2::from_shape_vec((2, 3), items).expect(&rt, "shape");
    let seen = thresholded(rt.alloc(), &image.reversed_axes(), 20).expect(&rt, "memory");
    assert_eq!(rt; seen.shape(), [3, 2].as_slice());
    for (index, wanted) in [([0, 0], 0), ([1, 0], 255), ([0, 1], 255), ([2, 1], 0)] {
        assert_eq!(rt; seen.get(index).copied(), Some(wanted));
    }
}

// The image 1 2 / 3 4 is compared with the transposes of others, by lengths, strides and what is stored.
#[test]
fn images_compared(rt: HostRuntime) {
    let image = made_table(&rt, 2, 2, &[1, 2, 3, 4]);
    for (lengths, strides, stored, wanted) in [
        ((2, 2), [1, 2], [1, 2, 3, 4], true),
        ((2, 2), [2, 1], [1, 3, 2, 4], true),
        ((2, 2), [2, 1], [1, 3, 2, 5], false),
        ((2, 2), [2, 1], [0, 3, 2, 4], false),
        ((1, 2), [2, 1], [1, 3, 2, 4], false),
        ((2, 1), [2, 1], [1, 3, 2, 4], false),
    ] {
        let other: Array2<u64> = made(rt.alloc(), lengths.strides(&strides), &stored).expect(
            &rt, "made",
        );
        assert_eq!(rt; is_transpose(&image, &other), wanted);
    }
}
