//! The callers of `nd_stacking` in `uses_nd_iter_stacking_and_numeric`, on small images: side by side, one below another, and as planes.

ghost use Rattle.std.specs.Prelude.{◌≡◌, ◌<◌};
ghost use Rattle.nd_array_core.specs.Prelude.{shape_of, rows_of, columns_of};

use crate::concatenate_and_stack::{is_table, shows};
use nd_array_core::{Array2, Array3, ArrayError};
use nd_test_arrays::table;
use std::alloc::Global;
use uses_nd_iter_stacking_and_numeric::joined_images::{three_joined, two_below, two_joined};
use uses_nd_iter_stacking_and_numeric::stacked_planes::{pixel_of, three_planes};

/// Returns two images side by side.
fn both_joined<'a>(
    alloc: Global,
    left: &'a Array2<u64>,
    right: &'a Array2<u64>,
) -> Result<Array2<u64>, ArrayError>
    requires rows { rows_of right.now ≡ rows_of left.now }
{
    two_joined(alloc, left.view(), right.view())
}

/// Returns three images side by side.
fn all_joined<'a>(
    alloc: Global,
    left: &'a Array2<u64>,
    middle: &'a Array2<u64>,
    right: &'a Array2<u64>,
) -> Result<Array2<u64>, ArrayError>
    requires middle { rows_of middle.now ≡ rows_of left.now }
    requires right { rows_of right.now ≡ rows_of left.now }
{
    three_joined(alloc, left.view(), middle.view(), right.view())
}

/// Returns two images, one below the other.
fn both_below<'a>(
    alloc: Global,
    upper: &'a Array2<u64>,
    lower: &'a Array2<u64>,
) -> Result<Array2<u64>, ArrayError>
    requires columns { columns_of lower.now ≡ columns_of upper.now }
{
    two_below(alloc, upper.view(), lower.view())
}

/// Returns three images as planes.
fn as_planes<'a>(
    alloc: Global,
    red: &'a Array2<u64>,
    green: &'a Array2<u64>,
    blue: &'a Array2<u64>,
) -> Result<Array3<u64>, ArrayError>
    requires green { shape_of green.now ≡ shape_of red.now }
    requires blue { shape_of blue.now ≡ shape_of red.now }
{
    three_planes(alloc, red.view(), green.view(), blue.view())
}

/// Returns the pixel at a row and a column of three images that are stacked as its colours. Returns `None` if memory is
/// refused.
fn pixel<'a>(
    alloc: Global,
    red: &'a Array2<u64>,
    green: &'a Array2<u64>,
    blue: &'a Array2<u64>,
    row: usize,
    column: usize,
) -> Option<(u64, u64, u64)>
    requires green { shape_of green.now ≡ shape_of red.now }
    requires blue { shape_of blue.now ≡ shape_of red.now }
    requires row { row < rows_of red.now }
    requires column { column < columns_of red.now }
{
    match pixel_of(alloc, red.view(), green.view(), blue.view(), row, column) {
        Ok(pixel) => Some(pixel),
        Err(_) => None,
    }
}

// The image 1 2 / 3 4 has 5 / 6 on its right, and then 7 8 9 / 10 11 12 is put between them.
fn images_left_to_right(alloc: Global) -> bool {
    let Some(left) = table(alloc, (2, 2), &[1, 2, 3, 4]) else {
        return false;
    };
    let Some(right) = table(alloc, (2, 1), &[5, 6]) else {
        return false;
    };
    let Some(middle) = table(alloc, (2, 3), &[7, 8, 9, 10, 11, 12]) else {
        return false;
    };
    let two = both_joined(alloc, &left, &right);
    let three = all_joined(alloc, &left, &middle, &right);
    is_table(alloc, &two, [2, 3], &[1, 2, 5, 3, 4, 6])
        && is_table(
            alloc,
            &three,
            [2, 6],
            &[1, 2, 7, 8, 9, 5, 3, 4, 10, 11, 12, 6],
        )
}

// The image 1 2 stands above 3 4 / 5 6.
fn images_below(alloc: Global) -> bool {
    let Some(upper) = table(alloc, (1, 2), &[1, 2]) else {
        return false;
    };
    let Some(lower) = table(alloc, (2, 2), &[3, 4, 5, 6]) else {
        return false;
    };
    is_table(
        alloc,
        &both_below(alloc, &upper, &lower),
        [3, 2],
        &[1, 2, 3, 4, 5, 6],
    )
}

// The red plane is 1 2, the green plane 3 4 and the blue plane 5 6.
fn images_as_planes(alloc: Global) -> bool {
    let Some(red) = table(alloc, (1, 2), &[1, 2]) else {
        return false;
    };
    let Some(green) = table(alloc, (1, 2), &[3, 4]) else {
        return false;
    };
    let Some(blue) = table(alloc, (1, 2), &[5, 6]) else {
        return false;
    };
    let planes = as_planes(alloc, &red, &green, &blue);
    shows(alloc, &planes, &[3, 1, 2], &[1, 2, 3, 4, 5, 6])
        && pixel(alloc, &red, &green, &blue, 0, 1) == Some((2, 4, 6))
}

#[test]
fn images_joined(rt: HostRuntime) {
    assert!(rt; images_left_to_right(rt.alloc()));
    assert!(rt; images_below(rt.alloc()));
    assert!(rt; images_as_planes(rt.alloc()));
}
