//! New arrays of what a closure returns for each element.
#![tactic(auto, unfolding(crate::specs::ArrayMeaning::meaning_of, crate::specs::ArrayMeaning::memory_layout_of))]

ghost use Rattle.std.specs.Prelude.{◌≡◌, ◌<◌, ◌≤◌, [], IfOk, OnErr, vec_len, vec_capacity};
ghost use Rattle.nd_shape_and_slice.specs.ShapesAndIndexOrders.{size_of};
ghost use Rattle.nd_array_core.specs.ArrayMeaning.{shape_of, meaning_of};
ghost use Rattle.nd_array_core.specs.reshape.ElementsAsSlice.{IsRunArray};
ghost use Rattle.nd_elements.specs.elements.ElementMaps.{AnswersElement, MayBeShown, AnswersBy, AskableOfAll};
ghost use Rattle.nd_array_core.specs.elements.ArrayMaps.{ShowsAnswers, ShowsMapped};

use crate::base::array::{Array, ArrayBase};
use crate::base::constructors::of_items;
use crate::elements::to_owned::{of_run, run_elements};
use nd_elements::elements::map::{answer_places, answer_slice};
use nd_elements::elements::to_vec::room_of;
use nd_elements::storage::Data;
use nd_layout::{is_run, reach_below};
use nd_shape_and_slice::{Dimension, NoMemory, Order, StrideList};
use std::alloc::Global;

/// Calls `f` with each element in row-major order, and returns an array, in row-major order, of what it returned.
/// `room` must be empty and have capacity for all results.
fn map_in_order<S: Data, D: Dimension, B, F: FnMut(&S::Elem) -> B>(
    room: Vec<B>,
    array: &ArrayBase<S, D>,
    f: F,
) -> Array<B, D>
    requires empty { (room.items ≡ []) × (vec_len room ≡ 0) }
    requires room { size_of (shape_of array.now) ≤ vec_capacity room }
    requires callable { AskableOfAll (AnswersElement F.FnMut) (MayBeShown F.FnMut) (meaning_of array.now) f }
    ensures shape { shape_of result ≡ shape_of array.now }
    ensures visits { ShowsAnswers (AnswersElement F.FnMut) f array.now result }
{
    let mut joined = array.layout.copied();
    joined.join_axes();
    let (_f, items) = answer_places(room, &array.storage, joined.places(), f);
    of_items(items, array.raw_dim(), Order::RowMajor)
}

/// Calls `f` with each element in the order of the places, and returns an array, with the strides of `array`, of what
/// it returned. The places of the elements must be consecutive numbers, each once. `room` must be empty and have
/// capacity for all results.
fn map_run<S: Data, D: Dimension, B, F: FnMut(&S::Elem) -> B>(
    room: Vec<B>,
    array: &ArrayBase<S, D>,
    f: F,
) -> Array<B, D>
    requires run { IsRunArray array.now }
    requires empty { (room.items ≡ []) × (vec_len room ≡ 0) }
    requires room { size_of (shape_of array.now) ≤ vec_capacity room }
    requires callable { AskableOfAll (AnswersElement F.FnMut) (MayBeShown F.FnMut) (meaning_of array.now) f }
    ensures shape { shape_of result ≡ shape_of array.now }
    ensures visits { ShowsAnswers (AnswersElement F.FnMut) f array.now result }
{
    let mut items = room;
    answer_slice(&mut items, run_elements(array), f);
    let below = reach_below(array.layout.dim.slice(), array.layout.strides.slice());
    of_run(items, below, &array.layout)
}

impl<S: Data, D: Dimension> ArrayBase<S, D> {
    /// Returns a new array of the same shape that has at each index what the function returns for the element there.
    /// The function is called with each element once, in an unspecified order, and its own condition must hold at each
    /// of these calls. How the result lies in memory is unspecified. Fails with `NoMemory` if the storage is refused;
    /// the function then wasn't called. This is ndarray's `map`.
    pub fn map<B, F: FnMut(&S::Elem) -> B>(
        &self,
        alloc: Global,
        f: F,
    ) -> Result<Array<B, D>, NoMemory>
        requires callable { AskableOfAll (AnswersElement F.FnMut) (MayBeShown F.FnMut) (meaning_of self.now) f }
        ensures shape { IfOk result (λ a. shape_of a ≡ shape_of self.now) }
        ensures visits { IfOk result (ShowsAnswers (AnswersElement F.FnMut) f self.now) }
        ensures alike { (h : _) → AnswersBy F.FnMut h f → IfOk result (ShowsMapped h self.now) }
        ensures refused { OnErr result (0 < size_of (shape_of self.now)) }
    {
        let room = room_of(alloc, self.len())?;
        if is_run(self.layout.dim.slice(), self.layout.strides.slice()) {
            Ok(map_run(room, self, f))
        } else {
            Ok(map_in_order(room, self, f))
        }
    }
}
