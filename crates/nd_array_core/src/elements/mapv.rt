//! New arrays of what a closure returns for a clone of each element.
#![tactic(auto, unfolding(crate::specs::ArrayMeaning::meaning_of, crate::specs::ArrayMeaning::memory_layout_of))]

ghost use Rattle.std.specs.Prelude.{◌≡◌, ◌<◌, ◌≤◌, [], IfOk, OnErr, vec_len, vec_capacity};
ghost use Rattle.nd_shape_and_slice.specs.ShapesAndIndexOrders.{size_of};
ghost use Rattle.nd_array_core.specs.ArrayMeaning.{shape_of, element_at, meaning_of};
ghost use Rattle.nd_elements.specs.EqualClones.{ClonesOfAllAreEqual};
ghost use Rattle.nd_array_core.specs.reshape.ElementsAsSlice.{IsRunArray};
ghost use Rattle.nd_elements.specs.elements.ElementMaps.{AnswersValue, MayBeGiven, AnswersValuesBy, AskableOfAll};
ghost use Rattle.nd_array_core.specs.elements.ArrayMaps.{ShowsAnswers, ShowsMapped};

use crate::base::array::{Array, ArrayBase};
use crate::base::constructors::of_items;
use crate::elements::to_owned::{of_run, run_elements};
use nd_elements::elements::mapv::{value_places, value_slice};
use nd_elements::elements::to_vec::room_of;
use nd_elements::storage::Data;
use nd_layout::{is_run, reach_below};
use nd_shape_and_slice::{Dimension, NoMemory, Order, StrideList};
use std::alloc::Global;

/// Calls `f` with a clone of each element in row-major order, and returns an array, in row-major order, of what it
/// returned. `room` must be empty and have capacity for all results.
fn mapv_in_order<S: Data, D: Dimension, B: Drop, F: FnMut(S::Elem) -> B>(
    room: Vec<B>,
    array: &ArrayBase<S, D>,
    f: F,
) -> Result<Array<B, D>, NoMemory>
where
    S::Elem: Clone,
    requires clones { ClonesOfAllAreEqual S.Elem.is_clone (element_at array.now) }
    requires empty { (room.items ≡ []) × (vec_len room ≡ 0) }
    requires room { size_of (shape_of array.now) ≤ vec_capacity room }
    requires callable { AskableOfAll (AnswersValue F.FnMut) (MayBeGiven F.FnMut) (meaning_of array.now) f }
    ensures shape { IfOk result (λ a. shape_of a ≡ shape_of array.now) }
    ensures visits { IfOk result (ShowsAnswers (AnswersValue F.FnMut) f array.now) }
    ensures refused { OnErr result (0 < size_of (shape_of array.now)) }
{
    let mut joined = array.layout.copied();
    joined.join_axes();
    let (_f, items) = value_places(room, &array.storage, joined.places(), f)?;
    Ok(of_items(items, array.raw_dim(), Order::RowMajor))
}

/// Calls `f` with a clone of each element in the order of the places, and returns an array, with the strides of
/// `array`, of what it returned. The places of the elements must be consecutive numbers, each once. `room` must be
/// empty and have capacity for all results.
fn mapv_run<S: Data, D: Dimension, B: Drop, F: FnMut(S::Elem) -> B>(
    room: Vec<B>,
    array: &ArrayBase<S, D>,
    f: F,
) -> Result<Array<B, D>, NoMemory>
where
    S::Elem: Clone,
    requires run { IsRunArray array.now }
    requires clones { ClonesOfAllAreEqual S.Elem.is_clone (element_at array.now) }
    requires empty { (room.items ≡ []) × (vec_len room ≡ 0) }
    requires room { size_of (shape_of array.now) ≤ vec_capacity room }
    requires callable { AskableOfAll (AnswersValue F.FnMut) (MayBeGiven F.FnMut) (meaning_of array.now) f }
    ensures shape { IfOk result (λ a. shape_of a ≡ shape_of array.now) }
    ensures visits { IfOk result (ShowsAnswers (AnswersValue F.FnMut) f array.now) }
    ensures refused { OnErr result (0 < size_of (shape_of array.now)) }
{
    let mut items = room;
    let _f = value_slice(&mut items, run_elements(array), f)?;
    let below = reach_below(array.layout.dim.slice(), array.layout.strides.slice());
    Ok(of_run(items, below, &array.layout))
}

impl<S: Data, D: Dimension> ArrayBase<S, D>
where
    S::Elem: Clone,
{
    /// Returns a new array of the same shape that has at each index what the function returns for a clone of the
    /// element there. A clone must equal its original. The function is called once for each element, in an unspecified
    /// order, and its own condition must hold at each of these calls. How the result lies in memory is unspecified.
    /// Fails with `NoMemory` if a clone is refused, or if the storage is refused, and then the function wasn't called.
    /// This is ndarray's `mapv`.
    pub fn mapv<B: Drop, F: FnMut(S::Elem) -> B>(
        &self,
        alloc: Global,
        f: F,
    ) -> Result<Array<B, D>, NoMemory>
        requires clones { ClonesOfAllAreEqual S.Elem.is_clone (element_at self.now) }
        requires callable { AskableOfAll (AnswersValue F.FnMut) (MayBeGiven F.FnMut) (meaning_of self.now) f }
        ensures shape { IfOk result (λ a. shape_of a ≡ shape_of self.now) }
        ensures visits { IfOk result (ShowsAnswers (AnswersValue F.FnMut) f self.now) }
        ensures alike { (h : _) → AnswersValuesBy F.FnMut h f → IfOk result (ShowsMapped h self.now) }
        ensures refused { OnErr result (0 < size_of (shape_of self.now)) }
    {
        let room = room_of(alloc, self.len())?;
        if is_run(self.layout.dim.slice(), self.layout.strides.slice()) {
            mapv_run(room, self, f)
        } else {
            mapv_in_order(room, self, f)
        }
    }
}
