//! Walks over the places of layouts, and their lanes.

ghost use Rattle.std.specs.Prelude.{◌≡◌, ◌<◌, ◌≤◌, ℕ, length, pos, slice_index, IfSome};
ghost use Rattle.nd_shape_and_slice.specs.ShapesAndIndexOrders.{size_of, HasCheckedSize};
ghost use Rattle.nd_layout.specs.RanksAndReshapeStrides.{IsRun};
ghost use Rattle.nd_layout.specs.ValidMemoryPlaces.{ReachesUsizes};
ghost use Rattle.nd_layout.specs.RowMajorWalk.{place_at_rank};

use nd_layout::{Lane, Lanes, Layout, Walk};
use nd_shape_and_slice::{Dimension, IntoDimension, Order, StrideList};

/// Writes the place of each index, in row-major order.
fn list_places(first: usize, lengths: &[usize], strides: &[isize], out: &mut [usize])
    requires as_many { length strides.now ≡ length lengths.now }
    requires few { length lengths.now ≤ 32 }
    requires checked { HasCheckedSize lengths.now }
    requires reach { ReachesUsizes first lengths.now strides.now }
    requires long { length out.old ≡ size_of lengths.now }
    ensures { (rank : ℕ) → rank < size_of lengths.now → pos (slice_index out.new rank) ≡ place_at_rank first lengths.now strides.now rank }
{
    let mut walk = Walk::new(first, lengths, strides);
    for rank in 0..out.len() {
        match walk.place() {
            Some(place) => out[rank] = place,
            None => unreachable!(),
        }
        walk.advance();
    }
}

#[test]
fn walks(rt: HostRuntime) {
    let mut out = [0; 6];
    list_places(0, &[2, 3], &[3, 1], &mut out);
    assert!(rt; out == [0, 1, 2, 3, 4, 5]);
    // The columns of two rows, the rows from the last one on, and a row that is repeated.
    list_places(0, &[3, 2], &[1, 3], &mut out);
    assert!(rt; out == [0, 3, 1, 4, 2, 5]);
    list_places(3, &[2, 3], &[-3, 1], &mut out);
    assert!(rt; out == [3, 4, 5, 0, 1, 2]);
    list_places(2, &[2, 3], &[0, 2], &mut out);
    assert!(rt; out == [2, 4, 6, 2, 4, 6]);
    list_places(1, &[1, 3, 1, 2], &[9, 4, 9, 1], &mut out);
    assert!(rt; out == [1, 2, 5, 6, 9, 10]);
}

#[test]
fn walks_where_no_isize_reaches(rt: HostRuntime) {
    let far = 9_223_372_036_854_775_808;
    let mut walk = Walk::new(far, &[1], &[1]);
    assert!(rt; walk.place() == Some(far));
    walk.advance();
    assert!(rt; walk.place() == None);
    let last = 18_446_744_073_709_551_615;
    let mut out = [0; 6];
    list_places(last, &[2, 3], &[-3, -1], &mut out);
    assert!(rt; out == [last, last - 1, last - 2, last - 3, last - 4, last - 5]);
}

#[test]
fn walks_end(rt: HostRuntime) {
    let mut walk = Walk::new(7, &[], &[]);
    assert!(rt; walk.place() == Some(7));
    walk.advance();
    assert!(rt; walk.place() == None);
    walk.advance();
    assert!(rt; walk.place() == None);
    assert!(rt; Walk::new(7, &[2, 0], &[1, 1]).place() == None);
}

/// Returns the first place, the length and the stride of the next lane.
fn next_lane(lanes: &mut Lanes<'_>) -> Option<(usize, usize, isize)> {
    match lanes.next() {
        Some(lane) => Some((lane.place, lane.count, lane.stride)),
        None => None,
    }
}

/// Returns whether the lanes are those of this list, each with its first place, its length and its stride, and end there.
fn are_lanes(lanes: &mut Lanes<'_>, list: &[(usize, usize, isize)]) -> bool {
    for lane in list {
        if next_lane(lanes) != Some(*lane) {
            return false;
        }
    }
    next_lane(lanes).is_none() && next_lane(lanes).is_none()
}

#[test]
fn lanes(rt: HostRuntime) {
    let mut rows = Lanes::new(4, &[2, 3], &[-3, 1]);
    assert!(rt; are_lanes(&mut rows, &[(4, 3, 1), (1, 3, 1)]));
    assert!(rt; are_lanes(&mut Lanes::new(7, &[], &[]), &[(7, 1, 1)]));
    assert!(rt; are_lanes(&mut Lanes::new(7, &[2, 0], &[1, 1]), &[]));
    assert!(rt; are_lanes(&mut Lanes::new(7, &[0, 2], &[1, 1]), &[]));
}

#[test]
fn lanes_of_three_axes(rt: HostRuntime) {
    // The planes continue one another, so that the lanes begin a stride apart.
    let mut apart = Lanes::new(0, &[2, 2, 3], &[8, 4, 1]);
    assert!(rt; are_lanes(&mut apart, &[(0, 3, 1), (4, 3, 1), (8, 3, 1), (12, 3, 1)]));
    // The planes come from the last one on, and the rows of each don't.
    let mut walked = Lanes::new(20, &[2, 2, 3], &[-10, 4, 1]);
    assert!(rt;
        are_lanes(
            &mut walked,
            &[(20, 3, 1), (24, 3, 1), (10, 3, 1), (14, 3, 1)]
        )
    );
    // One row is repeated, in planes of their own.
    let mut repeated = Lanes::new(5, &[2, 2, 2], &[0, 0, 3]);
    assert!(rt; are_lanes(&mut repeated, &[(5, 2, 3), (5, 2, 3), (5, 2, 3), (5, 2, 3)]));
}

#[test]
fn lanes_of_four_axes(rt: HostRuntime) {
    // Eight columns of length 1 begin at the indexes of the three axes in front of them.
    let layout = Layout::in_order((2, 2, 2, 1).into_dimension(), Order::ColumnMajor);
    let mut lanes = Lanes::new(layout.offset, layout.dim.slice(), layout.strides.slice());
    for place in [0, 4, 2, 6, 1, 5, 3, 7] {
        assert!(rt; next_lane(&mut lanes) == Some((place, 1, 8)));
    }
    assert!(rt; next_lane(&mut lanes) == None);
    // An axis of length 1 stands in front, with the same stride as the axis after it.
    let front = Layout::in_order((1, 2, 3).into_dimension(), Order::ColumnMajor);
    let mut lanes = Lanes::new(front.offset, front.dim.slice(), front.strides.slice());
    assert!(rt; next_lane(&mut lanes) == Some((0, 3, 2)));
    assert!(rt; next_lane(&mut lanes) == Some((1, 3, 2)));
    assert!(rt; next_lane(&mut lanes) == None);
    // The second axis goes backward.
    let mut backward = Layout::in_order((2, 2, 2, 1).into_dimension(), Order::RowMajor);
    backward.invert_axis(1);
    let mut lanes = Lanes::new(
        backward.offset,
        backward.dim.slice(),
        backward.strides.slice(),
    );
    for place in [2, 3, 0, 1, 6, 7, 4, 5] {
        assert!(rt; next_lane(&mut lanes) == Some((place, 1, 1)));
    }
    assert!(rt; next_lane(&mut lanes) == None);
}

#[test]
fn orders_for_loops(rt: HostRuntime) {
    // Rows that continue one another stay as they are.
    let mut layout = Layout::in_order((2, 3).into_dimension(), Order::RowMajor);
    let order = layout.loop_order();
    assert!(rt; order.offset == 0);
    assert!(rt; order.dim.slice() == [2, 3].as_slice());
    assert!(rt; order.strides.slice() == [3, 1].as_slice());
    // Where they go downward, the places become one lane that goes upward.
    layout.invert_axis(0);
    layout.invert_axis(1);
    assert!(rt; layout.offset == 5);
    let order = layout.loop_order();
    assert!(rt;
        next_lane(&mut Lanes::new(order.offset, order.dim.slice(), order.strides.slice()))
            == Some((0, 6, 1))
    );
    // Columns that continue one another become rows.
    let columns = Layout::in_order((2, 3).into_dimension(), Order::ColumnMajor);
    let order = columns.loop_order();
    assert!(rt; order.offset == 0);
    assert!(rt; order.dim.slice() == [3, 2].as_slice());
    assert!(rt; order.strides.slice() == [2, 1].as_slice());
}

/// Returns the first lane of a layout, in an order that the layout chooses. If the layout is contiguous the lane has
/// all its places, with stride 1.
fn first_lane<D: Dimension, T: StrideList>(layout: &Layout<D, T>) -> Option<Lane>
    ensures { 0 < size_of (D.lengths layout.now.dim) → IsRun (D.lengths layout.now.dim) (T.strides_of layout.now.strides) → IfSome result (λ lane. (lane.count ≡ size_of (D.lengths layout.now.dim)) × (lane.stride ≡ pos 1)) }
{
    let order = layout.free_order();
    Lanes::new(order.offset, order.dim.slice(), order.strides.slice()).next()
}

/// Returns the first two lanes of a layout, in an order that the layout chooses.
fn two_lanes<D: Dimension, T: StrideList>(
    layout: &Layout<D, T>,
) -> (Option<(usize, usize, isize)>, Option<(usize, usize, isize)>) {
    let order = layout.free_order();
    let mut lanes = Lanes::new(order.offset, order.dim.slice(), order.strides.slice());
    let first = next_lane(&mut lanes);
    (first, next_lane(&mut lanes))
}

#[test]
fn a_run_is_one_lane(rt: HostRuntime) {
    let mut layout = Layout::in_order((2, 3, 4).into_dimension(), Order::ColumnMajor);
    assert!(rt; two_lanes(&layout) == (Some((0, 24, 1)), None));
    // The axes are inverted and exchanged.
    layout.invert_axis(1);
    layout.invert_axis(2);
    layout.swap_axes(0, 2);
    assert!(rt; layout.offset == 22);
    assert!(rt; two_lanes(&layout) == (Some((0, 24, 1)), None));
    assert!(rt;
        matches!(
            first_lane(&layout),
            Some(Lane {
                place: 0,
                count: 24,
                stride: 1,
                ..
            })
        )
    );
    // One plane of the layout isn't contiguous.
    layout.collapse_axis(1, 2);
    assert!(rt; two_lanes(&layout) == (Some((0, 2, 1)), Some((6, 2, 1))));
}

#[test]
fn a_run_without_axes_or_places(rt: HostRuntime) {
    assert!(rt;
        two_lanes(&Layout::in_order(().into_dimension(), Order::RowMajor))
            == (Some((0, 1, 1)), None)
    );
    assert!(rt;
        two_lanes(&Layout::in_order((2, 0).into_dimension(), Order::RowMajor)) == (None, None)
    );
    assert!(rt;
        two_lanes(&Layout::in_order((1, 1).into_dimension(), Order::RowMajor))
            == (Some((0, 1, 1)), None)
    );
}
