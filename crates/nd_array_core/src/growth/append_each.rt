//! A call that appends several arrays one after another along an axis.
#![tactic(auto, unfolding(crate::specs::ArrayMeaning::meaning_of, crate::specs::ArrayMeaning::memory_layout_of))]

ghost use Rattle.std.specs.Prelude.{◌≡◌, ◌<◌, [], Ok, IfErr, OnOk, length, take};
ghost use Rattle.nd_array_core.specs.ArrayMeaning.{shape_of};
ghost use Rattle.nd_array_core.specs.PartsOfArrays.{BecomesWhole};
ghost use Rattle.nd_array_core.specs.growth.StorageOfAppend.{BecomesReady, GoesOn, IsReadyAlong, KeepsRoom};
ghost use Rattle.nd_array_core.specs.growth.AppendEach.{lengths_along, meanings_of, ClonesOfEachAreEqual, FitInTurn, IsGrownInTurn, IsLeftInTurn, IsRefusedInTurn, JoinsAll, JoinsAllAlike, JoinsFirst, LacksMemory, NeedsOnlyClonesInTurn};

use crate::base::array::{Array, ArrayView};
use crate::base::array_error::ArrayError;
use nd_shape_and_slice::{Axis, Dimension};

impl<A: Clone + Drop, D: Dimension> Array<A, D> {
    /// Appends each of the arrays in turn, as `append` does. It stops at the first failure. The error then has the
    /// number of arrays that were appended, which stay, and the cause why the next one was not; `append` says what that
    /// failure leaves. With no arrays nothing changes. If the array can grow along the axis in place, and has capacity
    /// for all of them, only a clone can lack memory. ndarray has no such call.
    pub fn append_each(
        &mut self,
        axis: Axis,
        arrays: &[ArrayView<'_, A, D>],
    ) -> Result<(), (usize, ArrayError)>
        requires axis { 0 < length (shape_of self.old) → axis.0 < length (shape_of self.old) }
        requires clones { ClonesOfEachAreEqual A.is_clone (meanings_of arrays.now) }
        ensures refused { IfErr result (λ e. IsRefusedInTurn axis.0 (shape_of self.new) (meanings_of arrays.now) e.0 e.1) }
        ensures plain { OnOk result (JoinsAllAlike axis.0 self.old (meanings_of arrays.now) self.new) }
        ensures joined { OnOk result (JoinsAll axis.0 self.old (meanings_of arrays.now) self.new) }
        ensures kept { IfErr result (λ e. JoinsFirst e.0 axis.0 self.old (meanings_of arrays.now) self.new) }
        ensures none { arrays.now ≡ [] → result ≡ Ok tt }
        ensures unchanged { arrays.now ≡ [] → BecomesWhole self.old self.new }
        ensures goes_on { IsReadyAlong axis.0 self.old → GoesOn axis.0 self.old self.new }
        ensures room { KeepsRoom axis.0 (lengths_along axis.0 (meanings_of arrays.now)) self.old self.new }
        ensures ready { OnOk result (BecomesReady axis.0 (lengths_along axis.0 (meanings_of arrays.now)) self.old self.new) }
        ensures laid { OnOk result (IsGrownInTurn axis.0 (meanings_of arrays.now) self.old self.new) }
        ensures left { IfErr result (λ e. IsLeftInTurn axis.0 (take e.0 (meanings_of arrays.now)) self.old self.new e.1) }
        ensures before { IfErr result (λ e. FitInTurn axis.0 (shape_of self.old) (take e.0 (meanings_of arrays.now))) }
        ensures enough { IfErr result (NeedsOnlyClonesInTurn A.is_infallible axis.0 self.old (meanings_of arrays.now)) }
        ensures fits { OnOk result (FitInTurn axis.0 (shape_of self.old) (meanings_of arrays.now)) }
        ensures fitting { FitInTurn axis.0 (shape_of self.old) (meanings_of arrays.now) → IfErr result LacksMemory }
    {
        for nth in 0..arrays.len() {
            match self.append(axis, arrays[nth].view()) {
                Ok(()) => {}
                Err(refused) => return Err((nth, refused)),
            }
        }
        Ok(())
    }
}
