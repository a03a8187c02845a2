//! The search for strides, on every small layout.

ghost use Rattle.std.specs.Prelude.{◌≤◌};

use crate::reshapes::{count, is_layout, reshaped};
use nd_layout::{separated, span};
use nd_shape_and_slice::Order;

/// Returns the displacement, which is the place less the offset, of the element at position `rank` in the given order.
fn displacement_at(lengths: &[usize], strides: &[isize], order: Order, rank: usize) -> isize {
    let mut rest = rank;
    let mut displacement: isize = 0;
    for nth in 0..lengths.len() {
        let axis = match order {
            Order::RowMajor => lengths.len() - 1 - nth,
            Order::ColumnMajor => nth,
        };
        let length = lengths[axis];
        if length == 0 || axis >= strides.len() {
            return 0;
        }
        let coordinate = isize::try_from(rest % length).unwrap_or(0);
        displacement = displacement.wrapping_add(strides[axis].wrapping_mul(coordinate));
        rest /= length;
    }
    displacement
}

/// Returns whether two layouts have the same displacement at each position below `size` in the given order.
fn same_displacements(
    old: (&[usize], &[isize]),
    new: (&[usize], &[isize]),
    order: Order,
    size: usize,
) -> bool {
    for rank in 0..size {
        if displacement_at(old.0, old.1, order, rank)
            != displacement_at(new.0, new.1, order, rank)
        {
            return false;
        }
    }
    true
}

/// Returns the only strides that can be right: along each axis, the displacement at the position of the index that is 1
/// along this axis and 0 along the others.
fn forced(lengths: &[usize], strides: &[isize], new: &[usize], order: Order) -> [isize; 3] {
    let mut result = [0; 3];
    let mut rank: usize = 1;
    for nth in 0..new.len() {
        let axis = match order {
            Order::RowMajor => new.len() - 1 - nth,
            Order::ColumnMajor => nth,
        };
        if new[axis] > 1 && axis < 3 {
            result[axis] = displacement_at(lengths, strides, order, rank);
        }
        rank = rank.saturating_mul(new[axis]);
    }
    result
}

/// The lengths of a layout with its strides.
type Axes<'a> = (&'a [usize], &'a [isize]);

/// Returns the span of a layout, which is how far it reaches, or `None` if these are no layout.
fn reach(axes: Axes<'_>) -> Option<usize> {
    if is_layout(axes.0, axes.1) {
        span(axes.0, axes.1)
    } else {
        None
    }
}

/// Returns whether these are a layout with separated strides.
fn is_apart(axes: Axes<'_>) -> bool {
    is_layout(axes.0, axes.1) && separated(axes.0, axes.1)
}

/// Returns whether the new layout has the same places as the old one in the given order, reaches no further, and has
/// separated strides if the old one has. Without elements, returns whether all strides are 0.
fn is_as_good(old: Axes<'_>, new: Axes<'_>, order: Order, size: usize) -> bool {
    if size == 0 {
        return new.1.iter().all(|stride: &isize| -> bool { *stride == 0 });
    }
    same_displacements(old, new, order, size)
        && reach(new) <= reach(old)
        && (is_apart(new) || !is_apart(old))
}

/// Returns whether the search finds strides exactly if the only ones that can be right are, and whether those that it
/// finds are as good.
fn search_is_right(old: Axes<'_>, new: &[usize], order: Order, size: usize) -> bool {
    if new.len() > 3 {
        return false;
    }
    let candidate = forced(old.0, old.1, new, order);
    let serves = same_displacements(old, (new, &candidate), order, size);
    let mut found = [9; 3];
    let out = &mut found[..new.len()];
    reshaped(old.0, old.1, new, order, out) == Some(serves)
        && (!serves || is_as_good(old, (new, out), order, size))
}

/// Returns the number of searches, and the number of those that were wrong, after one more search.
fn after(tally: (u64, u64), right: bool) -> (u64, u64) {
    (
        tally.0.saturating_add(1),
        tally.1.saturating_add(if right { 0 } else { 1 }),
    )
}

/// Tries every new shape without elements of up to three axes with lengths 0 to 4. Returns how many searches were
/// tried, and how many were wrong.
fn tries_empty(old: Axes<'_>, order: Order) -> (u64, u64) {
    let mut tally = after((0, 0), search_is_right(old, &[0], order, 0));
    for first in 0..5 {
        for second in 0..5 {
            if first == 0 || second == 0 {
                let right = search_is_right(old, &[first, second], order, 0);
                tally = after(tally, right);
            }
            for third in 0..5 {
                if first == 0 || second == 0 || third == 0 {
                    let right = search_is_right(old, &[first, second, third], order, 0);
                    tally = after(tally, right);
                }
            }
        }
    }
    tally
}

/// Tries every new shape of up to three axes with this size. Returns how many searches were tried, and how many were
/// wrong.
fn tries_full(old: Axes<'_>, order: Order, size: usize) -> (u64, u64) {
    let mut tally = after((0, 0), search_is_right(old, &[size], order, size));
    if size == 1 {
        tally = after(tally, search_is_right(old, &[], order, size));
    }
    for first in 1..=size {
        if size % first == 0 {
            let rest = size / first;
            tally = after(tally, search_is_right(old, &[first, rest], order, size));
            for second in 1..=rest {
                if rest % second == 0 {
                    let new = [first, second, rest / second];
                    tally = after(tally, search_is_right(old, &new, order, size));
                }
            }
        }
    }
    tally
}

/// Returns a stride from -6 to 6.
fn stride_of(code: usize) -> isize {
    (code % 13) as isize - 6
}

/// Tries every layout of `axes` axes, with lengths 0 to 4 and strides -6 to 6. Returns how many searches were tried,
/// and how many were wrong.
fn tries_all(axes: usize, shapes: usize, codes: usize, order: Order) -> (u64, u64)
    requires { axes ≤ 3 }
{
    let mut tried = 0u64;
    let mut wrong = 0u64;
    for shape in 0..shapes {
        let lengths = [shape % 5, shape / 5 % 5, shape / 25 % 5];
        let size = count(&lengths[..axes]).unwrap_or(0);
        for code in 0..codes {
            let strides = [stride_of(code), stride_of(code / 13), stride_of(code / 169)];
            let old = (&lengths[..axes], &strides[..axes]);
            let more = if size == 0 {
                tries_empty(old, order)
            } else {
                tries_full(old, order, size)
            };
            tried = tried.saturating_add(more.0);
            wrong = wrong.saturating_add(more.1);
        }
    }
    (tried, wrong)
}

/// Tries every layout of up to three axes with lengths 0 to 4 and strides -6 to 6 (there are 278,916 of them), with
/// every new shape of up to three axes and the same size (with lengths up to 4 if the size is 0), in both orders.
#[test]
fn every_small_layout(rt: HostRuntime) {
    let mut tried = 0u64;
    for order in [Order::RowMajor, Order::ColumnMajor] {
        for (axes, shapes, codes) in [(0, 1, 1), (1, 5, 13), (2, 25, 169), (3, 125, 2197)] {
            let (more, wrong) = tries_all(axes, shapes, codes, order);
            assert!(rt; wrong == 0);
            tried = tried.saturating_add(more);
        }
    }
    assert!(rt; tried == 25_554_992);
}
