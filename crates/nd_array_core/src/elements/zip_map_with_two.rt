//! New arrays of what a closure returns for the elements of three arrays.
#![tactic(auto, unfolding(crate::specs::ArrayMeaning::meaning_of, crate::specs::ArrayMeaning::memory_layout_of))]

ghost use Rattle.std.specs.Prelude.{◌≡◌, ◌+◌, ◌<◌, ◌≤◌, ℕ, [], Some, IfOk, IfSome, OnErr, length, pos, slice_get, vec_len, vec_capacity, IsTrue};
ghost use Rattle.nd_shape_and_slice.specs.Broadcast.{broadcasts};
ghost use Rattle.nd_shape_and_slice.specs.ShapesAndIndexOrders.{index_at, size_of};
ghost use Rattle.nd_layout.specs.NumberedPlacesAndWalks.{along, ranked};
ghost use Rattle.nd_elements.specs.ElementsAtNumberedPlaces.{Holds};
ghost use Rattle.nd_elements.specs.BorrowedAndOwnedStorages.{shown_by};
ghost use Rattle.nd_array_core.specs.ArrayMeaning.{shape_of, meaning_of, element_at, layout_strides};
ghost use Rattle.nd_array_core.specs.reshape.ElementsAsSlice.{IsRunArray};
ghost use Rattle.nd_array_core.specs.elements.TripleMaps.{lane_shows, rank_shows, AnswersRanked, AnswersTriplesBy, AskableOfThree, AskableOfTriples, HasAnswersOfTriples, MayShowAlong, MayShowItems, MayShowRanked, PushesAlong, PushesItemwise, ShowsAnswersOfThree, ShowsOfThree};

use crate::base::array::{Array, ArrayBase};
use crate::base::constructors::of_items;
use crate::elements::dimensionless_views::{Along, Laid};
use crate::elements::paired_runs::are_runs_alike;
use crate::elements::to_owned::{of_run, run_elements};
use crate::layout::broadcast::broadcast_to_match;
use nd_elements::elements::to_vec::room_of;
use nd_elements::storage::Data;
use nd_layout::{Lane, reach_below};
use nd_shape_and_slice::{Dimension, NoMemory, Order, StrideList};
use std::alloc::Global;

impl<'a, A> Along<'a, A> {
    /// Returns the element of a number.
    #[inline]
    fn element(&self, nth: usize) -> &'a A
        requires { nth < self.now.lane.count }
        ensures { lane_shows self.now nth ≡ Some result.now }
    {
        let region = self.elements.region;
        region.get(self.lane.place_of(nth))
    }

    /// Returns the elements of a lane of stride 1 as a slice.
    #[inline]
    fn run(&self) -> &'a [A]
        requires { self.now.lane.stride ≡ pos 1 }
        ensures count { length result.now ≡ self.now.lane.count }
        ensures elements { (k : ℕ) → k < self.now.lane.count → slice_get result.now k ≡ lane_shows self.now k }
    {
        let elements = self.elements;
        elements.run(self.lane.place, self.lane.count)
    }

    /// Returns the same elements if they are borrowed as one slice, and otherwise `None`. A loop over the result needs
    /// no test at each element of how the elements are borrowed.
    #[inline(always)]
    fn of_one_slice(&self) -> Option<Along<'a, A>>
        ensures count { IfSome result (λ slice. slice.lane.count ≡ self.now.lane.count) }
        ensures elements { IfSome result (λ slice. (k : ℕ) → lane_shows slice k ≡ lane_shows self.now k) }
    {
        let elements = self.elements;
        match elements.of_one_slice() {
            Some(slice) => Some(Along {
                elements: slice,
                lane: self.lane,
            }),
            None => None,
        }
    }
}

impl<'a, A> Laid<'a, A> {
    /// Returns the elements along a lane.
    #[inline]
    fn lane(&self, lane: Lane) -> Along<'a, A>
        requires { Holds shown_by (along lane) self.now.elements }
        ensures elements { result.elements ≡ self.now.elements }
        ensures lane { along result.lane ≡ along lane }
        ensures count { result.lane.count ≡ lane.count }
    {
        Along {
            elements: self.elements,
            lane,
        }
    }
}

/// Calls `f` with each three elements that have the same position in `xs`, `ys` and `zs`, and pushes what it returns to
/// `items`. Returns `f`, as the calls left it.
#[inline(always)]
fn answer_slices<A, B, C, E, F: FnMut(&A, &B, &C) -> E>(
    items: &mut Vec<E>,
    xs: &[A],
    ys: &[B],
    zs: &[C],
    mut f: F,
) -> F
    requires two { length ys.now ≡ length xs.now }
    requires three { length zs.now ≡ length xs.now }
    requires room { vec_len items.old + length xs.now ≤ vec_capacity items.old }
    requires callable { MayShowItems F.FnMut xs.now ys.now zs.now f }
    ensures pushed { PushesItemwise F.FnMut xs.now ys.now zs.now f items.old items.new result }
    ensures len { vec_len items.new ≡ vec_len items.old + length xs.now }
    ensures room { vec_capacity items.new ≡ vec_capacity items.old }
{
    for nth in 0..xs.len() {
        items.push_reserved(f(&xs[nth], &ys[nth], &zs[nth]));
    }
    f
}

/// Calls `f` with each three elements that have the same position along three lanes of any strides, and pushes what it
/// returns to `items`. Returns `f`, as the calls left it.
#[inline(always)]
fn answer_by_places<A, B, C, E, F: FnMut(&A, &B, &C) -> E>(
    items: &mut Vec<E>,
    one: &Along<'_, A>,
    two: &Along<'_, B>,
    three: &Along<'_, C>,
    mut f: F,
) -> F
    requires two { two.now.lane.count ≡ one.now.lane.count }
    requires three { three.now.lane.count ≡ one.now.lane.count }
    requires room { vec_len items.old + one.now.lane.count ≤ vec_capacity items.old }
    requires callable { MayShowAlong F.FnMut one.now two.now three.now f }
    ensures pushed { PushesAlong F.FnMut one.now two.now three.now f items.old items.new result }
    ensures len { vec_len items.new ≡ vec_len items.old + one.now.lane.count }
    ensures room { vec_capacity items.new ≡ vec_capacity items.old }
{
    for nth in 0..one.lane.count {
        let x = one.element(nth);
        let y = two.element(nth);
        let z = three.element(nth);
        items.push_reserved(f(x, y, z));
    }
    f
}

/// Calls `f` with each three elements that have the same position along three lanes of any strides, and pushes what it
/// returns to `items`. If the elements of each lane are borrowed as one slice, the loop goes over the slices. Returns `f`,
/// as the calls left it.
#[inline(always)]
fn answer_strided<A, B, C, E, F: FnMut(&A, &B, &C) -> E>(
    items: &mut Vec<E>,
    one: &Along<'_, A>,
    two: &Along<'_, B>,
    three: &Along<'_, C>,
    f: F,
) -> F
    requires two { two.now.lane.count ≡ one.now.lane.count }
    requires three { three.now.lane.count ≡ one.now.lane.count }
    requires room { vec_len items.old + one.now.lane.count ≤ vec_capacity items.old }
    requires callable { MayShowAlong F.FnMut one.now two.now three.now f }
    ensures pushed { PushesAlong F.FnMut one.now two.now three.now f items.old items.new result }
    ensures len { vec_len items.new ≡ vec_len items.old + one.now.lane.count }
    ensures room { vec_capacity items.new ≡ vec_capacity items.old }
{
    let slices = (one.of_one_slice(), two.of_one_slice(), three.of_one_slice());
    if let (Some(xs), Some(ys), Some(zs)) = slices {
        return answer_by_places(items, &xs, &ys, &zs, f);
    }
    answer_by_places(items, one, two, three, f)
}

/// Calls `f` with each three elements that have the same position along three lanes of stride 1, and pushes what it
/// returns to `items`. Returns `f`, as the calls left it.
#[inline(always)]
fn answer_contiguous<A, B, C, E, F: FnMut(&A, &B, &C) -> E>(
    items: &mut Vec<E>,
    one: &Along<'_, A>,
    two: &Along<'_, B>,
    three: &Along<'_, C>,
    f: F,
) -> F
    requires steps { (one.now.lane.stride ≡ pos 1) × (two.now.lane.stride ≡ pos 1) × (three.now.lane.stride ≡ pos 1) }
    requires two { two.now.lane.count ≡ one.now.lane.count }
    requires three { three.now.lane.count ≡ one.now.lane.count }
    requires room { vec_len items.old + one.now.lane.count ≤ vec_capacity items.old }
    requires callable { MayShowAlong F.FnMut one.now two.now three.now f }
    ensures pushed { PushesAlong F.FnMut one.now two.now three.now f items.old items.new result }
    ensures len { vec_len items.new ≡ vec_len items.old + one.now.lane.count }
    ensures room { vec_capacity items.new ≡ vec_capacity items.old }
{
    answer_slices(items, one.run(), two.run(), three.run(), f)
}

/// Calls `f` with each three elements that have the same position along three lanes, and pushes what it returns to
/// `items`. Chooses the loop that suits the strides. Returns `f`, as the calls left it.
fn answer_lane<A, B, C, E, F: FnMut(&A, &B, &C) -> E>(
    items: &mut Vec<E>,
    one: &Along<'_, A>,
    two: &Along<'_, B>,
    three: &Along<'_, C>,
    f: F,
) -> F
    requires two { two.now.lane.count ≡ one.now.lane.count }
    requires three { three.now.lane.count ≡ one.now.lane.count }
    requires room { vec_len items.old + one.now.lane.count ≤ vec_capacity items.old }
    requires callable { MayShowAlong F.FnMut one.now two.now three.now f }
    ensures pushed { PushesAlong F.FnMut one.now two.now three.now f items.old items.new result }
    ensures len { vec_len items.new ≡ vec_len items.old + one.now.lane.count }
    ensures room { vec_capacity items.new ≡ vec_capacity items.old }
{
    if one.lane.stride == 1 && two.lane.stride == 1 && three.lane.stride == 1 {
        return answer_contiguous(items, one, two, three, f);
    }
    answer_strided(items, one, two, three, f)
}

/// Calls `f` with the elements of three arrays at each index, in row-major order. All three must have the same shape.
/// Returns `f`, as the calls left it, and `room` filled with what `f` returned.
fn answer_three<A, B, C, E, F: FnMut(&A, &B, &C) -> E>(
    room: Vec<E>,
    one: &Laid<'_, A>,
    two: &Laid<'_, B>,
    three: &Laid<'_, C>,
    f: F,
) -> (F, Vec<E>)
    requires two { two.now.places.lengths.now ≡ one.now.places.lengths.now }
    requires three { three.now.places.lengths.now ≡ one.now.places.lengths.now }
    requires empty { (room.items ≡ []) × (vec_len room ≡ 0) }
    requires room { (ranked one.now.places).count ≤ vec_capacity room }
    requires callable { MayShowRanked F.FnMut one.now two.now three.now f }
    ensures answers { AnswersRanked F.FnMut one.now two.now three.now f result }
    ensures count { vec_len result.1 ≡ (ranked one.now.places).count }
{
    let mut items = room;
    let mut now = f;
    let mut ours = one.places.lanes();
    let mut theirs = two.places.lanes();
    let mut others = three.places.lanes();
    while let Some(lane) = ours.next() {
        match theirs.next() {
            Some(second) => match others.next() {
                Some(third) => {
                    let ahead = one.lane(lane);
                    let aside = two.lane(second);
                    let third_seen = three.lane(third);
                    now = answer_lane(&mut items, &ahead, &aside, &third_seen, now);
                }
                None => unreachable!(),
            },
            None => unreachable!(),
        }
    }
    (now, items)
}

/// Returns all elements of an array, and where they lie.
fn laid<S: Data, D: Dimension>(array: &ArrayBase<S, D>) -> Laid<'_, S::Elem>
    ensures lengths { result.places.lengths.now ≡ shape_of array.now }
    ensures shows { (k : ℕ) → k < size_of (shape_of array.now) → rank_shows result k ≡ element_at array.now (index_at (shape_of array.now) k) }
{
    Laid {
        elements: array.storage.borrowed(),
        places: array.layout.places(),
    }
}

/// Returns an array, in row-major order, of what `f` returns for the elements of three arrays at each index. All three
/// must have the same shape. `room` must be empty and have capacity for all results.
fn three_in_order<
    S: Data,
    Z: Data,
    Y: Data,
    D: Dimension,
    E,
    F: FnMut(&S::Elem, &Z::Elem, &Y::Elem) -> E,
>(
    room: Vec<E>,
    one: &ArrayBase<S, D>,
    two: &ArrayBase<Z, D>,
    three: &ArrayBase<Y, D>,
    f: F,
) -> Array<E, D>
    requires two { shape_of two.now ≡ shape_of one.now }
    requires three { shape_of three.now ≡ shape_of one.now }
    requires empty { (room.items ≡ []) × (vec_len room ≡ 0) }
    requires room { size_of (shape_of one.now) ≤ vec_capacity room }
    requires callable { AskableOfTriples F.FnMut (meaning_of one.now) (element_at two.now) (element_at three.now) f }
    ensures shape { shape_of result ≡ shape_of one.now }
    ensures visits { HasAnswersOfTriples F.FnMut (meaning_of one.now) (element_at two.now) (element_at three.now) f (element_at result) }
{
    let ours = laid(one);
    let theirs = laid(two);
    let others = laid(three);
    let (_f, items) = answer_three(room, &ours, &theirs, &others, f);
    of_items(items, one.raw_dim(), Order::RowMajor)
}

/// Returns an array, with the strides of `one`, of what `f` returns for the elements of three arrays at each index. All
/// three must have the same shape and the same strides, and the places of the elements must be consecutive numbers, each
/// once. `room` must be empty and have capacity for all results.
fn three_runs<
    S: Data,
    Z: Data,
    Y: Data,
    D: Dimension,
    E,
    F: FnMut(&S::Elem, &Z::Elem, &Y::Elem) -> E,
>(
    room: Vec<E>,
    one: &ArrayBase<S, D>,
    two: &ArrayBase<Z, D>,
    three: &ArrayBase<Y, D>,
    f: F,
) -> Array<E, D>
    requires two { shape_of two.now ≡ shape_of one.now }
    requires three { shape_of three.now ≡ shape_of one.now }
    requires strides { (layout_strides two.now ≡ layout_strides one.now) × (layout_strides three.now ≡ layout_strides one.now) }
    requires run { IsRunArray one.now }
    requires empty { (room.items ≡ []) × (vec_len room ≡ 0) }
    requires room { size_of (shape_of one.now) ≤ vec_capacity room }
    requires callable { AskableOfTriples F.FnMut (meaning_of one.now) (element_at two.now) (element_at three.now) f }
    ensures shape { shape_of result ≡ shape_of one.now }
    ensures visits { HasAnswersOfTriples F.FnMut (meaning_of one.now) (element_at two.now) (element_at three.now) f (element_at result) }
{
    let mut items = room;
    answer_slices(
        &mut items,
        run_elements(one),
        run_elements(two),
        run_elements(three),
        f,
    );
    let below = reach_below(one.layout.dim.slice(), one.layout.strides.slice());
    of_run(items, below, &one.layout)
}

/// Returns an array of what `f` returns for the elements of three arrays at each index. All three must have the same
/// shape. `room` must be empty and have capacity for all results.
fn zip_three<
    S: Data,
    Z: Data,
    Y: Data,
    D: Dimension,
    E,
    F: FnMut(&S::Elem, &Z::Elem, &Y::Elem) -> E,
>(
    room: Vec<E>,
    one: &ArrayBase<S, D>,
    two: &ArrayBase<Z, D>,
    three: &ArrayBase<Y, D>,
    f: F,
) -> Array<E, D>
    requires two { shape_of two.now ≡ shape_of one.now }
    requires three { shape_of three.now ≡ shape_of one.now }
    requires empty { (room.items ≡ []) × (vec_len room ≡ 0) }
    requires room { size_of (shape_of one.now) ≤ vec_capacity room }
    requires callable { AskableOfTriples F.FnMut (meaning_of one.now) (element_at two.now) (element_at three.now) f }
    ensures shape { shape_of result ≡ shape_of one.now }
    ensures visits { HasAnswersOfTriples F.FnMut (meaning_of one.now) (element_at two.now) (element_at three.now) f (element_at result) }
{
    if are_runs_alike(one, two) && are_runs_alike(one, three) {
        three_runs(room, one, two, three, f)
    } else {
        three_in_order(room, one, two, three, f)
    }
}

impl<S: Data, D: Dimension> ArrayBase<S, D> {
    /// Returns a new array of this array's shape that has at each index what the function returns for this array's
    /// element there and for those of two other arrays. Both are broadcast to this array's shape, which must be
    /// possible. The function is called once for each index, in an unspecified order, and its own condition must hold
    /// at each of these calls. How the result lies in memory is unspecified. Fails with `NoMemory` if the storage is
    /// refused; the function then wasn't called. ndarray has `Zip::from(&a).and(&b).and(&c).map_collect(f)`.
    pub fn zip_map_with_two<B, C, E, Z, G, Y, H, F>(
        &self,
        alloc: Global,
        second: &ArrayBase<Z, G>,
        third: &ArrayBase<Y, H>,
        f: F,
    ) -> Result<Array<E, D>, NoMemory>
    where
        Z: Data<Elem = B>,
        G: Dimension,
        Y: Data<Elem = C>,
        H: Dimension,
        F: FnMut(&S::Elem, &B, &C) -> E,
        requires second { IsTrue (broadcasts (shape_of second.now) (shape_of self.now)) }
        requires third { IsTrue (broadcasts (shape_of third.now) (shape_of self.now)) }
        requires callable { AskableOfThree F.FnMut self.now second.now third.now f }
        ensures shape { IfOk result (λ a. shape_of a ≡ shape_of self.now) }
        ensures visits { IfOk result (ShowsAnswersOfThree F.FnMut self.now second.now third.now f) }
        ensures alike { (h : _) → AnswersTriplesBy F.FnMut h f → IfOk result (ShowsOfThree h self.now second.now third.now) }
        ensures refused { OnErr result (0 < size_of (shape_of self.now)) }
    {
        let room = room_of(alloc, self.len())?;
        let second_seen = broadcast_to_match(self, second);
        let third_seen = broadcast_to_match(self, third);
        Ok(zip_three(room, self, &second_seen, &third_seen, f))
    }
}
