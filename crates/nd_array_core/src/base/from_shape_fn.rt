//! New arrays of what a function returns, called for each index with the index or without an argument.
#![tactic(auto)]

ghost use Rattle.std.specs.Prelude.{◌≡◌, ◌<◌, ◌≤◌, [], IfOk, OnErr, vec_len, vec_capacity};
ghost use Rattle.nd_shape_and_slice.specs.ShapesAndIndexOrders.{size_of, HasCheckedSize};
ghost use Rattle.nd_array_core.specs.ArrayMeaning.{element_at};
ghost use Rattle.nd_elements.specs.CallsInFreeOrder.{HasAnswers, AskableInAnyOrder, AnswersNothing, TakesNothing, AnswersAlike, AskableByIndex};
ghost use Rattle.nd_array_core.specs.base.NewArrays.{built_by, OwnsInOrder, ShowsOneValue};
ghost use Rattle.nd_array_core.specs.base.FromIteratorsAndClosures.{OwnsAnswersAlike, ShowsAnswers, ShowsAnswersAlike, ShowsCells, ShowsCellsOf1, ShowsCellsOf3};

use crate::base::array::Array;
use crate::base::constructors::of_items;
use nd_elements::base::from_shape_fn::{answers_by_index, answers_for_each, room_for};
use nd_shape_and_slice::{Dimension, IntoPattern, NoMemory, Order, ShapeBuilder, StrideList};
use std::alloc::Global;

/// Returns an array of shape `dim`, in the order `order`, that has at each index what `f` returns for that index.
/// `room` must be empty and have capacity for all elements.
fn of_answers<A, D: IntoPattern, F: FnMut(D::Pattern) -> A>(
    room: Vec<A>,
    dim: D,
    order: Order,
    f: F,
) -> Array<A, D>
    requires checked { HasCheckedSize (D.lengths dim) }
    requires empty { (room.items ≡ []) × (vec_len room ≡ 0) }
    requires room { size_of (D.lengths dim) ≤ vec_capacity room }
    requires callable { AskableByIndex F.FnMut D.pattern_lengths (D.lengths dim) f }
    ensures owns { OwnsInOrder (D.lengths dim, order) result }
    ensures visits { ShowsAnswers F.FnMut D.pattern_lengths (D.lengths dim) f result }
    ensures alike { OwnsAnswersAlike F.FnMut D.pattern_lengths (D.lengths dim, order) f result }
{
    let items = answers_by_index(room, &dim, order, f);
    of_items(items, dim, order)
}

/// Returns an array of shape `dim`, in the order `order`, of what `f` returns, called once for each index. `room` must
/// be empty and have capacity for all elements.
fn of_equal_answers<A, D: Dimension, F: FnMut() -> A>(
    room: Vec<A>,
    dim: D,
    order: Order,
    f: F,
) -> Array<A, D>
    requires checked { HasCheckedSize (D.lengths dim) }
    requires empty { (room.items ≡ []) × (vec_len room ≡ 0) }
    requires room { size_of (D.lengths dim) ≤ vec_capacity room }
    requires callable { AskableInAnyOrder (AnswersNothing F.FnMut) (D.lengths dim) (TakesNothing F.FnMut) f }
    ensures owns { OwnsInOrder (D.lengths dim, order) result }
    ensures visits { HasAnswers (AnswersNothing F.FnMut) (D.lengths dim) f (element_at result) }
    ensures alike { (x : A) → AnswersAlike F.FnMut x f → ShowsOneValue (D.lengths dim, order) x result }
{
    let items = answers_for_each(room, &dim, order, f);
    of_items(items, dim, order)
}

impl<A, D: IntoPattern> Array<A, D> {
    /// Returns an array of a shape that has at each index what the function returns for that index. It lies in
    /// row-major order, or in column-major order after `.f()`. The function is called once for each index, in an
    /// unspecified order. The shape must have a checked size. Fails with `NoMemory` if the storage is refused; the
    /// function then wasn't called. This is ndarray's `from_shape_fn`.
    pub fn from_shape_fn<Sh: ShapeBuilder<Dim = D>, F: FnMut(D::Pattern) -> A>(
        alloc: Global,
        shape: Sh,
        f: F,
    ) -> Result<Self, NoMemory>
        requires checked { HasCheckedSize (Sh.builds_lengths shape) }
        requires callable { AskableByIndex F.FnMut D.pattern_lengths (Sh.builds_lengths shape) f }
        ensures owns { IfOk result (OwnsInOrder (built_by Sh.ShapeBuilder shape)) }
        ensures visits { IfOk result (ShowsAnswers F.FnMut D.pattern_lengths (Sh.builds_lengths shape) f) }
        ensures alike { ShowsAnswersAlike F.FnMut D.pattern_lengths (built_by Sh.ShapeBuilder shape) f result }
        ensures cells { ShowsCells F.FnMut D.pattern_lengths (Sh.builds_lengths shape) f result }
        ensures cells_of_1 { ShowsCellsOf1 F.FnMut D.pattern_lengths (Sh.builds_lengths shape) f result }
        ensures cells_of_3 { ShowsCellsOf3 F.FnMut D.pattern_lengths (Sh.builds_lengths shape) f result }
        ensures refused { OnErr result (0 < size_of (Sh.builds_lengths shape)) }
    {
        let shape = shape.into_shape_with_order();
        let room = room_for(alloc, shape.size())?;
        Ok(of_answers(room, *shape.raw_dim(), shape.order(), f))
    }
}

impl<A, D: Dimension> Array<A, D> {
    /// Returns an array of a shape whose elements are what the function returned, called once for each index. It lies
    /// in row-major order, or in column-major order after `.f()`. Which call is for which index is unspecified. The
    /// shape must have a checked size. Fails with `NoMemory` if the storage is refused; the function then wasn't
    /// called. This is ndarray's `from_shape_simple_fn`.
    pub fn from_shape_simple_fn<Sh: ShapeBuilder<Dim = D>, F: FnMut() -> A>(
        alloc: Global,
        shape: Sh,
        f: F,
    ) -> Result<Self, NoMemory>
        requires checked { HasCheckedSize (Sh.builds_lengths shape) }
        requires callable { AskableInAnyOrder (AnswersNothing F.FnMut) (Sh.builds_lengths shape) (TakesNothing F.FnMut) f }
        ensures owns { IfOk result (OwnsInOrder (built_by Sh.ShapeBuilder shape)) }
        ensures visits { IfOk result (λ a. HasAnswers (AnswersNothing F.FnMut) (Sh.builds_lengths shape) f (element_at a)) }
        ensures alike { (x : A) → AnswersAlike F.FnMut x f → IfOk result (ShowsOneValue (built_by Sh.ShapeBuilder shape) x) }
        ensures refused { OnErr result (0 < size_of (Sh.builds_lengths shape)) }
    {
        let shape = shape.into_shape_with_order();
        let room = room_for(alloc, shape.size())?;
        Ok(of_equal_answers(room, *shape.raw_dim(), shape.order(), f))
    }
}
