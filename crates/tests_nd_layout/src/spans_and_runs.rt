//! How far layouts reach, and which of them have separated strides or are contiguous.

ghost use Rattle.std.specs.Prelude.{◌↔◌, ◌≡◌, ◌<◌, ◌≤◌, ◌^◌, length, IsTrue};
ghost use Rattle.nd_shape_and_slice.specs.PlacesAndOverlaps.{span_of, IsSeparated};

use crate::reshapes::is_layout;
use nd_layout::{is_run, is_standard, separated, span};
use nd_shape_and_slice::size_of_shape_checked;

/// Returns whether a vector of `count` elements can hold an array of this layout in which no two indexes share an
/// element.
fn can_own(lengths: &[usize], strides: &[isize], count: usize) -> bool
    requires as_many { length strides.now ≡ length lengths.now }
    requires few { length lengths.now ≤ 32 }
    requires small { count < 2 ^ 63 }
    ensures { IsTrue result ↔ (span_of lengths.now strides.now < count) × IsSeparated lengths.now strides.now }
{
    match span(lengths, strides) {
        Some(reach) => reach < count && separated(lengths, strides),
        None => false,
    }
}

// The lengths and strides of layouts, and their spans.
const SPANS: [(&[usize], &[isize], Option<usize>); 5] = [
    (&[2, 0, 3], &[3, 6, -1], Some(5)),
    (&[1 << 40, 1 << 40], &[1 << 40, 1], None),
    (&[2], &[isize::MIN], None),
    (&[2], &[isize::MAX], Some(isize::MAX as usize)),
    (&[], &[], Some(0)),
];

#[test]
fn spans(rt: HostRuntime) {
    for (lengths, strides, wanted) in &SPANS {
        assert!(rt; is_layout(lengths, strides) && span(lengths, strides) == *wanted);
    }
}

// The lengths and strides of layouts, and whether their strides are separated.
const SEPARATED: [(&[usize], &[isize], bool); 7] = [
    (&[2, 3], &[3, 1], true),
    (&[2, 3], &[1, -2], true),
    (&[2, 2], &[1, 1], false),
    (&[3, 2], &[1, 2], false),
    (&[2], &[0], false),
    (&[1, 2], &[0, 1], true),
    (&[usize::MAX, usize::MAX], &[isize::MIN, isize::MAX], false),
];

#[test]
fn separation(rt: HostRuntime) {
    for (lengths, strides, wanted) in &SEPARATED {
        assert!(rt; is_layout(lengths, strides) && separated(lengths, strides) == *wanted);
    }
}

// The lengths and strides of layouts, a number of elements, and whether a vector of so many elements can hold an array.
// Two rows of two lie four places apart, with enough elements and with too few. Then rows share an element.
const OWNED: [(&[usize], &[isize], usize, bool); 3] = [
    (&[2, 2], &[4, 1], 8, true),
    (&[2, 2], &[4, 1], 5, false),
    (&[2, 2], &[1, 1], 3, false),
];

#[test]
fn vectors_that_can_own(rt: HostRuntime) {
    for (lengths, strides, count, wanted) in &OWNED {
        assert!(rt;
            is_layout(lengths, strides)
                && *count < 9
                && can_own(lengths, strides, *count) == *wanted
        );
    }
}

/// Returns whether a layout is contiguous, in row-major order if `standard` is true. Returns `None` if these are no layout
/// whose size and span are below 2 ^ 63.
fn lies_in_run(lengths: &[usize], strides: &[isize], standard: bool) -> Option<bool> {
    if !is_layout(lengths, strides) {
        return None;
    }
    span(lengths, strides)?;
    match size_of_shape_checked(lengths) {
        Ok(_) => {}
        Err(_) => return None,
    }
    if standard {
        Some(is_standard(lengths, strides))
    } else {
        Some(is_run(lengths, strides))
    }
}

// The lengths and strides of layouts, and whether they are contiguous in row-major order.
const STANDARD: [(&[usize], &[isize], bool); 3] = [
    (&[2, 3], &[3, 1], true),
    (&[2, 1, 3], &[3, 7, 1], true),
    (&[3, 2], &[1, 3], false),
];

// The lengths and strides of layouts, and whether they are contiguous.
const RUNS: [(&[usize], &[isize], bool); 6] = [
    (&[3, 2], &[1, 3], true),
    (&[3, 2], &[-1, 3], true),
    (&[2, 2], &[3, 1], false),
    (&[2, 2], &[1, 1], false),
    (&[0, 2], &[7, 7], true),
    (&[], &[], true),
];

#[test]
fn runs(rt: HostRuntime) {
    for (lengths, strides, wanted) in &STANDARD {
        assert!(rt; lies_in_run(lengths, strides, true) == Some(*wanted));
    }
    for (lengths, strides, wanted) in &RUNS {
        assert!(rt; lies_in_run(lengths, strides, false) == Some(*wanted));
    }
}
