//! Strides for another shape of small layouts: of parts, repeated elements, both orders, and merged axes.

ghost use Rattle.std.specs.Prelude.{◌≡◌, ◌<◌, ◌≤◌, ◌^◌, length, IfSome, IsTrue};
ghost use Rattle.nd_shape_and_slice.specs.ShapesAndIndexOrders.{size_of};

use nd_layout::{reshape_strides, span};
use nd_shape_and_slice::Order;

/// Returns the number of elements of a shape, or `None` if it isn't below 2 ^ 63.
pub fn count(lengths: &[usize]) -> Option<usize>
    ensures { IfSome result (λ n. (n ≡ size_of lengths.now) × (n < 2 ^ 63)) }
{
    let mut product: usize = 1;
    for length in lengths {
        product = product.checked_mul(*length)?;
    }
    if product <= isize::MAX as usize {
        Some(product)
    } else {
        None
    }
}

/// Returns whether there are as many strides as lengths, and at most 32.
pub fn is_layout(lengths: &[usize], strides: &[isize]) -> bool
    ensures as_many { IsTrue result → length strides.now ≡ length lengths.now }
    ensures few { IsTrue result → length lengths.now ≤ 32 }
{
    strides.len() == lengths.len() && lengths.len() <= 32
}

/// Calls the search for strides if each of its conditions holds. Returns `None` if one doesn't hold.
pub fn reshaped(
    lengths: &[usize],
    strides: &[isize],
    new: &[usize],
    order: Order,
    out: &mut [isize],
) -> Option<bool> {
    if !is_layout(lengths, strides) || !is_layout(new, out) {
        return None;
    }
    span(lengths, strides)?;
    if count(lengths)? != count(new)? {
        return None;
    }
    Some(reshape_strides(lengths, strides, new, order, out))
}

/// What a layout needs to get a new shape: a shape with another number of elements is refused; it may need a copy; or
/// it is a view with these strides (0 beyond its axes).
#[derive(Clone, Copy, Debug, PartialEq, Eq)]
enum Need {
    Refused,
    Copied,
    Viewed([isize; 3]),
}

/// Returns what a layout needs to get the shape `new`.
fn reshape(lengths: &[usize], strides: &[isize], new: &[usize], order: Order) -> Need {
    let mut out = [0; 3];
    if new.len() > 3 {
        return Need::Refused;
    }
    match reshaped(lengths, strides, new, order, &mut out[..new.len()]) {
        None => Need::Refused,
        Some(false) => Need::Copied,
        Some(true) => Need::Viewed(out),
    }
}

/// The lengths and strides of a layout, a new shape, an order, and what the layout needs to get this shape in this order.
type Row = (
    &'static [usize],
    &'static [isize],
    &'static [usize],
    Order,
    Need,
);

const PARTS_AND_REPEATS: [Row; 6] = [
    // Of rows of three, two columns are left. A new axis of length 1 has stride 0.
    (&[2, 2], &[3, 1], &[4], Order::RowMajor, Need::Copied),
    (
        &[2, 2],
        &[3, 1],
        &[2, 1, 2],
        Order::RowMajor,
        Need::Viewed([3, 0, 1]),
    ),
    // One element, or one row, is repeated.
    (
        &[2, 3],
        &[0, 0],
        &[6],
        Order::RowMajor,
        Need::Viewed([0, 0, 0]),
    ),
    (&[3, 2], &[0, 1], &[6], Order::RowMajor, Need::Copied),
    // An axis is inverted.
    (
        &[4],
        &[-1],
        &[2, 2],
        Order::RowMajor,
        Need::Viewed([-2, -1, 0]),
    ),
    // There are no elements.
    (
        &[0, 3],
        &[5, -7],
        &[2, 0],
        Order::RowMajor,
        Need::Viewed([0, 0, 0]),
    ),
];

#[test]
fn views_of_a_part_or_of_repeats(rt: HostRuntime) {
    for (lengths, strides, new, order, need) in &PARTS_AND_REPEATS {
        assert!(rt; reshape(lengths, strides, new, *order) == *need);
    }
}

const IN_BOTH_ORDERS: [Row; 11] = [
    // The layout is that of two rows of three, transposed.
    (
        &[3, 2],
        &[1, 3],
        &[6],
        Order::ColumnMajor,
        Need::Viewed([1, 0, 0]),
    ),
    (&[3, 2], &[1, 3], &[6], Order::RowMajor, Need::Copied),
    (&[3, 2], &[1, 3], &[2, 3], Order::RowMajor, Need::Copied),
    (
        &[3, 2],
        &[1, 3],
        &[2, 3],
        Order::ColumnMajor,
        Need::Viewed([1, 2, 0]),
    ),
    (&[3, 2], &[1, 3], &[5], Order::RowMajor, Need::Refused),
    // Two rows of two are transposed and made flat.
    (&[2, 2], &[1, 2], &[4], Order::RowMajor, Need::Copied),
    // Four rows of two are made flat in both orders.
    (
        &[4, 2],
        &[2, 1],
        &[8],
        Order::RowMajor,
        Need::Viewed([1, 0, 0]),
    ),
    (&[4, 2], &[2, 1], &[8], Order::ColumnMajor, Need::Copied),
    // Every second element along the last axis of the shape (2, 3, 8) is left.
    (
        &[2, 3, 4],
        &[24, 8, 2],
        &[24],
        Order::RowMajor,
        Need::Viewed([2, 0, 0]),
    ),
    (
        &[2, 3, 4],
        &[24, 8, 2],
        &[6, 2, 2],
        Order::RowMajor,
        Need::Viewed([8, 4, 2]),
    ),
    (
        &[2, 3, 4],
        &[24, 8, 2],
        &[24],
        Order::ColumnMajor,
        Need::Copied,
    ),
];

#[test]
fn views_in_both_orders(rt: HostRuntime) {
    for (lengths, strides, new, order, need) in &IN_BOTH_ORDERS {
        assert!(rt; reshape(lengths, strides, new, *order) == *need);
    }
}

/// Returns what the axis `into` needs so that the axis `take` is merged into it: its new index t times its old length
/// plus i is then the element at the old indexes t and i. Each axis is given by its length and its stride.
fn merged(take: (usize, isize), into: (usize, isize)) -> Need {
    reshape(
        &[take.0, into.0],
        &[take.1, into.1],
        &[take.0.saturating_mul(into.0)],
        Order::RowMajor,
    )
}

// An axis, the axis that it is merged into, and what this needs.
const MERGED: [((usize, isize), (usize, isize), Need); 9] = [
    // In a contiguous table of two rows of three, the rows are merged into the columns, and the columns into the rows.
    ((2, 3), (3, 1), Need::Viewed([1, 0, 0])),
    ((3, 1), (2, 3), Need::Copied),
    // Both axes are inverted, then only the rows are, and then the rows have a gap between them.
    ((2, -3), (3, -1), Need::Viewed([-1, 0, 0])),
    ((2, -3), (3, 1), Need::Copied),
    ((2, 4), (3, 1), Need::Copied),
    // An axis of length 1, whatever its stride, and an axis of length 0 are merged.
    ((1, 7), (3, 2), Need::Viewed([2, 0, 0])),
    ((2, 5), (1, 9), Need::Viewed([5, 0, 0])),
    ((0, 5), (3, 9), Need::Viewed([0, 0, 0])),
    // One element is repeated. Strides of 0 merge, so that `merge_axes` doesn't merge an axis with itself is a rule of
    // its own.
    ((3, 0), (3, 0), Need::Viewed([0, 0, 0])),
];

#[test]
fn merged_axes(rt: HostRuntime) {
    for (take, into, need) in &MERGED {
        assert!(rt; merged(*take, *into) == *need);
    }
}
