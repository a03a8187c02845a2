//! Vectors of what a closure returns for each index of a shape.

ghost use Rattle.std.specs.Prelude.{◌≡◌, ◌+◌, ◌<◌, ◌≤◌, take, [], length, IfOk, OnErr, Some, vec_len, vec_capacity};
ghost use Rattle.nd_shape_and_slice.specs.ShapesAndIndexOrders.{size_of, HasCheckedSize};
ghost use Rattle.nd_layout.specs.RanksAndReshapeStrides.{slowest_first};
ghost use Rattle.nd_elements.specs.CallsInFreeOrder.{AskableByIndex, AskableInAnyOrder, AnswersIndex, AnswersNothing, TakesNothing};
ghost use Rattle.nd_elements.specs.ListedAnswers.{ListsAnswers};

use nd_layout::{Walk, slow_axis_at};
use nd_shape_and_slice::{Dimension, IntoPattern, NoMemory, Order, StrideList};
use std::alloc::Global;

/// Returns the lengths of `dim`'s axes, sorted from the slowest axis to the fastest one in `order`.
fn slow_lengths<D: Dimension>(dim: &D, order: Order) -> D
    ensures { D.lengths result ≡ slowest_first order (D.lengths dim.now) }
{
    let axes = dim.ndim();
    let mut slow = *dim;
    for nth in 0..axes {
        slow.set_length(nth, dim.length(slow_axis_at(order, axes, nth)));
    }
    slow
}

/// Writes `outer` to `index` as the coordinates of all axes except the fastest one. In `outer` the coordinates stand in
/// the order from the slowest axis on.
fn put_outer<D: Dimension>(index: &mut D, order: Order, outer: &[usize])
    requires as_many { length (D.lengths index.old) ≡ length outer.now + 1 }
    ensures as_many { length (D.lengths index.new) ≡ length outer.now + 1 }
    ensures put { take (length outer.now) (slowest_first order (D.lengths index.new)) ≡ outer.now }
{
    let axes = index.ndim();
    for nth in 0..outer.len() {
        index.set_length(slow_axis_at(order, axes, nth), outer[nth]);
    }
}

/// Returns a new empty vector with capacity `count`.
pub fn room_for<A>(alloc: Global, count: usize) -> Result<Vec<A>, NoMemory>
    ensures none { IfOk result (λ v. v.items ≡ []) }
    ensures empty { IfOk result (λ v. vec_len v ≡ 0) }
    ensures room { IfOk result (λ v. vec_capacity v ≡ count) }
    ensures refused { OnErr result (0 < count) }
{
    Ok(Vec::with_capacity(alloc, count)?)
}

/// Calls `f` with each index of a shape that has at least one axis and one element, and pushes what `f` returns, in the
/// order of the indexes that `order` says. A walk goes over all axes except the fastest one, and a plain loop along
/// that axis, so that no place and no rank is computed for each element.
fn answers_by_lanes<A, D: IntoPattern, F: FnMut(D::Pattern) -> A>(
    room: Vec<A>,
    dim: &D,
    order: Order,
    mut f: F,
) -> Vec<A>
    requires axes { 0 < length (D.lengths dim.now) }
    requires some { 0 < size_of (D.lengths dim.now) }
    requires checked { HasCheckedSize (D.lengths dim.now) }
    requires empty { (room.items ≡ []) × (vec_len room ≡ 0) }
    requires room { size_of (D.lengths dim.now) ≤ vec_capacity room }
    requires callable { AskableByIndex F.FnMut D.pattern_lengths (D.lengths dim.now) f }
    ensures count { vec_len result ≡ size_of (D.lengths dim.now) }
    ensures visits { ListsAnswers (AnswersIndex F.FnMut D.pattern_lengths) (D.lengths dim.now, order) f result.items }
{
    let last = dim.ndim() - 1;
    let slow = slow_lengths(dim, order);
    let strides = dim.zero_strides();
    let fastest = slow_axis_at(order, last + 1, last);
    let count = slow.length(last);
    let mut outer = Walk::new(0, &slow.slice()[..last], &strides.slice()[..last]);
    let mut index = *dim;
    let mut items = room;
    while let Some(_) = outer.place() {
        put_outer(&mut index, order, outer.index());
        for k in 0..count {
            index.set_length(fastest, k);
            items.push_reserved(f(index.into_pattern()));
        }
        outer.advance();
    }
    items
}

/// Calls `f` with each index of the shape `dim`, in the order of the indexes that `order` says, and returns `room` with
/// what `f` returned.
pub fn answers_by_index<A, D: IntoPattern, F: FnMut(D::Pattern) -> A>(
    room: Vec<A>,
    dim: &D,
    order: Order,
    mut f: F,
) -> Vec<A>
    requires checked { HasCheckedSize (D.lengths dim.now) }
    requires empty { (room.items ≡ []) × (vec_len room ≡ 0) }
    requires room { size_of (D.lengths dim.now) ≤ vec_capacity room }
    requires callable { AskableByIndex F.FnMut D.pattern_lengths (D.lengths dim.now) f }
    ensures count { vec_len result ≡ size_of (D.lengths dim.now) }
    ensures visits { ListsAnswers (AnswersIndex F.FnMut D.pattern_lengths) (D.lengths dim.now, order) f result.items }
{
    if dim.size() == 0 {
        return room;
    }
    if dim.ndim() == 0 {
        let mut items = room;
        items.push_reserved(f(dim.into_pattern()));
        return items;
    }
    answers_by_lanes(room, dim, order, f)
}

/// Calls `f` once for each index of the shape `dim`, and returns `room` with what `f` returned.
pub fn answers_for_each<A, D: Dimension, F: FnMut() -> A>(
    room: Vec<A>,
    dim: &D,
    _order: Order,
    mut f: F,
) -> Vec<A>
    requires checked { HasCheckedSize (D.lengths dim.now) }
    requires empty { (room.items ≡ []) × (vec_len room ≡ 0) }
    requires room { size_of (D.lengths dim.now) ≤ vec_capacity room }
    requires callable { AskableInAnyOrder (AnswersNothing F.FnMut) (D.lengths dim.now) (TakesNothing F.FnMut) f }
    ensures count { vec_len result ≡ size_of (D.lengths dim.now) }
    ensures visits { ListsAnswers (AnswersNothing F.FnMut) (D.lengths dim.now, _order) f result.items }
{
    let mut items = room;
    for rank in 0..dim.size() {
        items.push_reserved(f());
    }
    items
}
