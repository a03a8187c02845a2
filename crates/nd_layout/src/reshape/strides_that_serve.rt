//! Computing strides with which another shape names the same places in the same order.

ghost use Rattle.std.specs.Prelude.{◌↔◌, ◌≡◌, ◌<◌, ◌≤◌, ◌^◌, ◌-◌, ◌*◌, ◌%◌, ◌*ℤ◌, ℤ, pos, List, length, drop, replicate, IsTrue, IfSome, MatchOption, nat_abs};
ghost use Rattle.nd_shape_and_slice.specs.ShapesAndIndexOrders.{size_of};
ghost use Rattle.nd_shape_and_slice.specs.PlacesAndOverlaps.{span_of};
ghost use Rattle.nd_layout.specs.RanksAndReshapeStrides.{fastest_first, Serves};
ghost use Rattle.nd_layout.specs.NonOverlappingStrides.{KeepsSeparation};
ghost use Rattle.nd_layout.specs.StridesAfterLayoutCalls.{RestsAtOnes};
ghost use Rattle.nd_layout.specs.ReshapeAxisGroups.{IsClosed, BeginsAnother, JoinsNext, SplitsOff, IsGroupFrom, RegroupsRest, NoneServes, IsTakenOff, size_from, span_from};

use crate::order::joined_axes::continues;
use crate::reshape::axes_from_fastest::{nth_length, nth_stride, put_nth_stride};
use nd_shape_and_slice::{MAX_AXES, Order, is_empty_shape};

/// Neighbouring axes merged into one axis of length `length` and stride `step`. `next` is the number of the next axis
/// that isn't in the group; axes are counted from the fastest one.
#[derive(Clone, Copy)]
struct Group {
    length: usize,
    step: isize,
    next: usize,
}

/// Returns `group` joined with the next axis, of length `len` and stride `stride`, or `None` if that doesn't continue
/// the group. An axis of length 1 always does.
fn joined(group: Group, len: usize, stride: isize) -> Option<Group>
    requires fits { group.length * len < 2 ^ 63 }
    requires some { 0 < group.length * len }
    requires few { group.next < MAX_AXES }
    ensures { MatchOption result
        (BeginsAnother group len stride)
        (λ more. JoinsNext group len stride more) }
{
    let next = group.next + 1;
    if len == 1 {
        Some(Group {
            length: group.length,
            step: group.step,
            next,
        })
    } else if group.length == 1 {
        Some(Group {
            length: len,
            step: stride,
            next,
        })
    } else if continues(stride, group.length, group.step) {
        Some(Group {
            length: group.length * len,
            step: group.step,
            next,
        })
    } else {
        None
    }
}

/// Returns the longest group of axes that begins with axis `from`, counted from the fastest axis.
fn next_group(lengths: &[usize], strides: &[isize], order: Order, from: usize) -> Group
    requires as_many { length strides.now ≡ length lengths.now }
    requires few { length lengths.now ≤ MAX_AXES }
    requires on { from ≤ length lengths.now }
    requires some { 0 < size_of (drop from (fastest_first order lengths.now)) }
    requires fits { size_of (drop from (fastest_first order lengths.now)) < 2 ^ 63 }
    ensures on { result.next ≤ length lengths.now }
    ensures regroups { IsGroupFrom order lengths.now strides.now from result }
    ensures closed { IsClosed result (fastest_first order lengths.now) (fastest_first order strides.now) }
    ensures wide { 1 < size_of (drop result.next (fastest_first order lengths.now)) → 1 < result.length }
{
    let mut group = Group {
        length: 1,
        step: 0,
        next: from,
    };
    for next in from..lengths.len() {
        match joined(
            group,
            nth_length(lengths, order, next),
            nth_stride(strides, order, next),
        ) {
            Some(more) => group = more,
            None => return group,
        }
    }
    group
}

/// Returns `count` times `stride`.
fn times(stride: isize, count: usize) -> isize
    requires small { count < 2 ^ 63 }
    requires fits { count * nat_abs stride < 2 ^ 63 }
    ensures { result ≡ pos count *ℤ stride }
{
    stride * count as isize
}

/// Returns the stride of the `left` elements of a group that are left after a new axis of length `len` was split off:
/// `len` times `step`, or 0 if `left` is at most 1.
fn step_left(step: isize, len: usize, left: usize) -> isize
    requires small { len < 2 ^ 63 }
    requires fits { 1 < left → len * nat_abs step < 2 ^ 63 }
    ensures { 1 < left → result ≡ pos len *ℤ step }
{
    if left > 1 { times(step, len) } else { 0 }
}

/// Splits a new axis of length `len` off `group`. Returns the new axis's stride, which is the group's, and what is left
/// of the group, or `None` if `len` doesn't divide the group's length.
fn split_group(group: Group, len: usize) -> Option<(isize, Group)>
    requires long { 1 < len }
    requires some { 0 < group.length }
    requires small { group.length < 2 ^ 63 }
    requires fits { (group.length - 1) * nat_abs group.step < 2 ^ 63 }
    ensures { MatchOption result
        (0 < group.length % len)
        (λ r. SplitsOff group len r.0 r.1) }
{
    if group.length % len != 0 {
        return None;
    }
    let left = group.length / len;
    let step = step_left(group.step, len, left);
    Some((
        group.step,
        Group {
            length: left,
            step,
            next: group.next,
        },
    ))
}

/// Returns `group`, or the next group if `group` has length 1, which means that nothing is left of it.
fn filled_group(lengths: &[usize], strides: &[isize], order: Order, group: Group) -> Group
    requires as_many { length strides.now ≡ length lengths.now }
    requires few { length lengths.now ≤ MAX_AXES }
    requires on { group.next ≤ length lengths.now }
    requires some { 0 < size_from order lengths.now group }
    requires small { size_from order lengths.now group < 2 ^ 63 }
    requires closed { IsClosed group (fastest_first order lengths.now) (fastest_first order strides.now) }
    ensures on { result.next ≤ length lengths.now }
    ensures regroups { RegroupsRest order lengths.now strides.now group result }
    ensures closed { IsClosed result (fastest_first order lengths.now) (fastest_first order strides.now) }
    ensures wide { 1 < size_of (drop result.next (fastest_first order lengths.now)) → 1 < result.length }
{
    if group.length == 1 {
        next_group(lengths, strides, order, group.next)
    } else {
        group
    }
}

/// Returns the stride of the next new axis, of length `len`, and what is left of `group`, or `None` if no strides
/// serve.
fn take_length(
    lengths: &[usize],
    strides: &[isize],
    order: Order,
    group: Group,
    len: usize,
) -> Option<(isize, Group)>
    requires as_many { length strides.now ≡ length lengths.now }
    requires few { length lengths.now ≤ MAX_AXES }
    requires on { group.next ≤ length lengths.now }
    requires some { 0 < len * size_from order lengths.now group }
    requires small { size_from order lengths.now group < 2 ^ 63 }
    requires fits { span_from order lengths.now strides.now group < 2 ^ 63 }
    requires closed { IsClosed group (fastest_first order lengths.now) (fastest_first order strides.now) }
    ensures taken { MatchOption result
        (NoneServes order lengths.now strides.now group len)
        (λ r. IsTakenOff order lengths.now strides.now group len r.0 r.1) }
    ensures rests { len ≡ 1 → IfSome result (λ r. r.0 ≡ pos 0) }
{
    if len == 1 {
        return Some((0, group));
    }
    split_group(filled_group(lengths, strides, order, group), len)
}

/// Writes strides into `out` with which the shape `new` names the same places in the same order as the shape `lengths`
/// with `strides`. A new axis of length 1 gets the stride 0. Returns false exactly if no strides do, not even integers
/// beyond `isize`; then what is in `out` has no meaning.
pub fn reshape_strides(
    lengths: &[usize],
    strides: &[isize],
    new: &[usize],
    order: Order,
    out: &mut [isize],
) -> bool
    requires as_many { length strides.now ≡ length lengths.now }
    requires few { length lengths.now ≤ MAX_AXES }
    requires few_new { length new.now ≤ MAX_AXES }
    requires as_long { length out.old ≡ length new.now }
    requires same_size { size_of lengths.now ≡ size_of new.now }
    requires checked { size_of new.now < 2 ^ 63 }
    requires fits { span_of lengths.now strides.now < 2 ^ 63 }
    ensures exact { IsTrue result ↔ ((ts : List ℤ) × Serves order lengths.now strides.now new.now ts) }
    ensures serves { IsTrue result → Serves order lengths.now strides.now new.now out.new }
    ensures span { IsTrue result → span_of new.now out.new ≤ span_of lengths.now strides.now }
    ensures separated { IsTrue result → KeepsSeparation lengths.now strides.now new.now out.new }
    ensures rests { IsTrue result → RestsAtOnes new.now out.new }
    ensures empty { size_of new.now ≡ 0 → out.new ≡ replicate (length new.now) (pos 0) }
{
    if is_empty_shape(new) {
        out.fill(0);
        return true;
    }
    let mut group = Group {
        length: 1,
        step: 0,
        next: 0,
    };
    for nth in 0..new.len() {
        match take_length(lengths, strides, order, group, nth_length(new, order, nth)) {
            Some((stride, left)) => {
                put_nth_stride(out, order, nth, stride);
                group = left;
            }
            None => return false,
        }
    }
    true
}
