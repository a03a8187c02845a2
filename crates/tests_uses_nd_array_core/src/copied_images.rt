//! Halves of images that are exchanged, tables of lists, and pixels that are mapped.

use nd_array_core::{Array2, array};
use nd_test_arrays::{made, shows};
use uses_nd_array_core::tables_of_rows::{RowsError, table_of_rows};
use uses_nd_array_core_numbers::exchanged_halves::swap_halves;
use uses_nd_array_core_numbers::mapped_pixels::{inverted, inverted_and_transposed};

// The image is 1 2 3 4 / 5 6 7 8.
#[test]
fn halves_exchanged(rt: HostRuntime) {
    let mut image: Array2<u64> = made(rt.alloc(), (2, 4), &[1, 2, 3, 4, 5, 6, 7, 8]).expect(
        &rt, "made",
    );
    swap_halves(rt.alloc(), &mut image, 2).expect(&rt, "memory");
    assert!(rt; shows(&image, [2, 4], &[3, 4, 1, 2, 7, 8, 5, 6]));
}

// There are two lists of two numbers, and then one after them of a single number.
#[test]
fn lists_as_rows(rt: HostRuntime) {
    let table = table_of_rows(rt.alloc(), &[&[1u64, 2], &[3, 4]], 2).expect(&rt, "memory");
    assert!(rt; shows(&table, [2, 2], &[1, 2, 3, 4]));
    let refused = matches!(
        table_of_rows(rt.alloc(), &[&[1u64, 2], &[3]], 2),
        Err(RowsError::Width(1))
    );
    assert!(rt; refused);
}

// The pixels are 0 and 200.
#[test]
fn dark_and_light_exchanged(rt: HostRuntime) {
    let image: Array2<u8> = array![in rt.alloc(); [0, 200]].expect(&rt, "memory");
    let light = inverted(rt.alloc(), &image).expect(&rt, "memory");
    assert!(rt; light.get([0, 0]).copied() == Some(255) && light.get([0, 1]).copied() == Some(55));
    let turned = inverted_and_transposed(rt.alloc(), &image).expect(&rt, "memory");
    assert!(rt; turned.get([1, 0]).copied() == Some(55));
}
