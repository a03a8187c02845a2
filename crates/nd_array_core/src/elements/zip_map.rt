//! New arrays of what a closure returns for the elements of two arrays.
#![tactic(auto, unfolding(crate::specs::ArrayMeaning::meaning_of, crate::specs::ArrayMeaning::memory_layout_of))]

ghost use Rattle.std.specs.Prelude.{◌≡◌, ◌<◌, ◌≤◌, [], IfOk, OnErr, vec_len, vec_capacity, IsTrue};
ghost use Rattle.nd_shape_and_slice.specs.Broadcast.{broadcasts};
ghost use Rattle.nd_shape_and_slice.specs.ShapesAndIndexOrders.{size_of};
ghost use Rattle.nd_array_core.specs.ArrayMeaning.{shape_of, meaning_of, element_at, layout_strides};
ghost use Rattle.nd_array_core.specs.reshape.ElementsAsSlice.{IsRunArray};
ghost use Rattle.nd_array_core.specs.elements.PairMapsAndFolds.{AnswersPairsBy, AskableOfBoth, AskableOfPairs, HasAnswersOfBoth, HasAnswersOfPairs, IsMappedFromBoth};

use crate::base::array::{Array, ArrayBase};
use crate::base::constructors::of_items;
use crate::elements::paired_runs::are_runs_alike;
use crate::elements::to_owned::{of_run, run_elements};
use crate::layout::broadcast::broadcast_to_match;
use nd_elements::elements::to_vec::room_of;
use nd_elements::elements::zip_map::{answer_pairs, answer_pairs_slice};
use nd_elements::storage::Data;
use nd_layout::reach_below;
use nd_shape_and_slice::{Dimension, NoMemory, Order, StrideList};
use std::alloc::Global;

/// Returns an array, in row-major order, of what `f` returns for the elements of `array` and `other` at each index.
/// Both must have the same shape. `room` must be empty and have capacity for all results.
fn zip_in_order<S: Data, Z: Data, D: Dimension, C, F: FnMut(&S::Elem, &Z::Elem) -> C>(
    room: Vec<C>,
    array: &ArrayBase<S, D>,
    other: &ArrayBase<Z, D>,
    f: F,
) -> Array<C, D>
    requires alike { shape_of other.now ≡ shape_of array.now }
    requires empty { (room.items ≡ []) × (vec_len room ≡ 0) }
    requires room { size_of (shape_of array.now) ≤ vec_capacity room }
    requires callable { AskableOfPairs F.FnMut (meaning_of array.now) (element_at other.now) f }
    ensures shape { shape_of result ≡ shape_of array.now }
    ensures visits { HasAnswersOfPairs F.FnMut (meaning_of array.now) (element_at other.now) f (element_at result) }
{
    let ours = array.layout.places();
    let theirs = other.layout.places();
    let (_f, items) = answer_pairs(room, &array.storage, ours, &other.storage, theirs, f);
    of_items(items, array.raw_dim(), Order::RowMajor)
}

/// Returns an array, with the strides of `array`, of what `f` returns for the elements of `array` and `other` at each
/// index. Both must have the same shape and the same strides, and the places of the elements must be consecutive
/// numbers, each once. `room` must be empty and have capacity for all results.
fn zip_runs<S: Data, Z: Data, D: Dimension, C, F: FnMut(&S::Elem, &Z::Elem) -> C>(
    room: Vec<C>,
    array: &ArrayBase<S, D>,
    other: &ArrayBase<Z, D>,
    f: F,
) -> Array<C, D>
    requires alike { shape_of other.now ≡ shape_of array.now }
    requires strides { layout_strides other.now ≡ layout_strides array.now }
    requires run { IsRunArray array.now }
    requires empty { (room.items ≡ []) × (vec_len room ≡ 0) }
    requires room { size_of (shape_of array.now) ≤ vec_capacity room }
    requires callable { AskableOfPairs F.FnMut (meaning_of array.now) (element_at other.now) f }
    ensures shape { shape_of result ≡ shape_of array.now }
    ensures visits { HasAnswersOfPairs F.FnMut (meaning_of array.now) (element_at other.now) f (element_at result) }
{
    let mut items = room;
    answer_pairs_slice(&mut items, run_elements(array), run_elements(other), f);
    let below = reach_below(array.layout.dim.slice(), array.layout.strides.slice());
    of_run(items, below, &array.layout)
}

/// Returns an array of what `f` returns for the elements of `array` and `other` at each index. Both must have the same
/// shape. `room` must be empty and have capacity for all results.
fn zip_alike<S: Data, Z: Data, D: Dimension, C, F: FnMut(&S::Elem, &Z::Elem) -> C>(
    room: Vec<C>,
    array: &ArrayBase<S, D>,
    other: &ArrayBase<Z, D>,
    f: F,
) -> Array<C, D>
    requires alike { shape_of other.now ≡ shape_of array.now }
    requires empty { (room.items ≡ []) × (vec_len room ≡ 0) }
    requires room { size_of (shape_of array.now) ≤ vec_capacity room }
    requires callable { AskableOfPairs F.FnMut (meaning_of array.now) (element_at other.now) f }
    ensures shape { shape_of result ≡ shape_of array.now }
    ensures visits { HasAnswersOfPairs F.FnMut (meaning_of array.now) (element_at other.now) f (element_at result) }
{
    if are_runs_alike(array, other) {
        zip_runs(room, array, other, f)
    } else {
        zip_in_order(room, array, other, f)
    }
}

impl<S: Data, D: Dimension> ArrayBase<S, D> {
    /// Returns a new array of this array's shape that has at each index what the function returns for this array's
    /// element and the other array's element there. The other array is broadcast to this array's shape, which must be
    /// possible. The function is called once for each index, in an unspecified order, and its own condition must hold
    /// at each of these calls. How the result lies in memory is unspecified. Fails with `NoMemory` if the storage is
    /// refused; the function then wasn't called. ndarray has `Zip::from(&a).and(&b).map_collect(f)`.
    pub fn zip_map<B, C, Z: Data<Elem = B>, E: Dimension, F: FnMut(&S::Elem, &B) -> C>(
        &self,
        alloc: Global,
        other: &ArrayBase<Z, E>,
        f: F,
    ) -> Result<Array<C, D>, NoMemory>
        requires broadcasts { IsTrue (broadcasts (shape_of other.now) (shape_of self.now)) }
        requires callable { AskableOfBoth F.FnMut self.now other.now f }
        ensures shape { IfOk result (λ a. shape_of a ≡ shape_of self.now) }
        ensures visits { IfOk result (λ a. HasAnswersOfBoth F.FnMut self.now other.now f (element_at a)) }
        ensures alike { (h : _) → AnswersPairsBy F.FnMut h f → IfOk result (λ a. IsMappedFromBoth h self.now other.now (element_at a)) }
        ensures refused { OnErr result (0 < size_of (shape_of self.now)) }
    {
        let room = room_of(alloc, self.len())?;
        Ok(zip_alike(room, self, &broadcast_to_match(self, other), f))
    }
}
