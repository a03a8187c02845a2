//! Sizes of shapes that may overflow, and orders of axes.

use crate::slices::LONGEST;
use nd_shape_and_slice::{ErrorKind, axes_fit, is_empty_shape, size_of_shape_checked};

// Returns whether each shape has this size, or none if it overflows.
fn have_sizes(rows: &[(&[usize], Option<usize>)]) -> bool {
    for (lengths, size) in rows {
        if size_of_shape_checked(*lengths).ok() != *size {
            return false;
        }
    }
    true
}

// Returns the error of a shape whose size overflows.
fn cause(lengths: &[usize]) -> Option<ErrorKind> {
    match size_of_shape_checked(lengths) {
        Ok(_) => None,
        Err(error) => Some(error.kind()),
    }
}

#[test]
fn checked_sizes(rt: HostRuntime) {
    const ROWS: [(&[usize], Option<usize>); 7] = [
        (&[], Some(1)),
        (&[3, 2, 4], Some(24)),
        (&[1099511627776, 1099511627776, 0], None),
        (&[1099511627776, 0, 3], Some(0)),
        (&[LONGEST], Some(LONGEST)),
        (&[LONGEST, 1, 0], Some(0)),
        (&[4611686018427387904, 2], None),
    ];
    assert!(rt;
        have_sizes(&ROWS)
            && cause(&[LONGEST, 2]) == Some(ErrorKind::Overflow)
            && is_empty_shape(&[2, 0])
            && !is_empty_shape(&[])
    );
}

// Returns whether each list is an order of `ndim` axes or not, as its row says.
fn fit_where(rows: &[(&[usize], usize, bool)]) -> bool {
    for (axes, ndim, fits) in rows {
        if axes_fit(*axes, *ndim) != *fits {
            return false;
        }
    }
    true
}

#[test]
fn orders_of_axes(rt: HostRuntime) {
    const ROWS: [(&[usize], usize, bool); 5] = [
        (&[3, 0, 1, 2], 4, true),
        (&[], 0, true),
        (&[0, 0], 2, false),
        (&[0, 1], 1, false),
        (&[0, 2], 2, false),
    ];
    assert!(rt; fit_where(&ROWS));
}
