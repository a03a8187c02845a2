//! Splits an array at a coordinate of an axis, and fills both parts at once through two mutable views.
#![tactic(auto, using(nd_array_core::proofs::AxesOfDimensionTypes::known_axes))]

ghost use Rattle.std.specs.Prelude.{◌≡◌, ◌<◌, ◌≤◌, length, slice_index, OnOk, IsOk};
ghost use Rattle.nd_array_core.specs.Prelude.{shape_of, IsFilledWith, view_frame, lent_frame, CanBeSeen, ClonesAreEqual};
ghost use Rattle.nd_array_core.specs.PartsOfArrays.{lower_part, upper_part};
ghost use Rattle.nd_array_core.specs.scoped.FilledParts.{IsViewFilled};
ghost use Rattle.uses_nd_array_core.specs.LentViewsFilledOrAssigned.{IsAll};

use nd_array_core::ViewMutRepr;
use nd_array_core::prelude::*;
use nd_array_core::scoped::{Fill, LentView, PairTask, ViewTask};

/// A task that fills the first of two views with `first`, and the second with `second`. It runs the library's task
/// `Fill` on each of them.
#[derive(Drop)]
pub(crate) struct FillBoth<A: Drop> {
    pub(crate) first: A,
    pub(crate) second: A,
}

impl<A: Clone + Drop, D: Dimension, E: Dimension> PairTask<A, D, E> for FillBoth<A> {
    type Answer = Result<(), NoMemory>;

    ghost pre = { λ task _ _. ClonesAreEqual A.is_clone task.first × ClonesAreEqual A.is_clone task.second };

    ghost post = { λ task v0 v1 w0 w1 answer. OnOk answer (IsAll v0 task.first w0 × IsAll v1 task.second w1) };

    fn run<'b>(
        self,
        one: LentView<'b, A, D, D::Strides>,
        two: LentView<'b, A, E, E::Strides>,
    ) -> (ViewMutRepr<'b, A>, ViewMutRepr<'b, A>, Result<(), NoMemory>)
        requires one { CanBeSeen D.lengths D.Strides.strides_of one }
        requires two { CanBeSeen E.lengths E.Strides.strides_of two }
        requires first { ClonesAreEqual A.is_clone self.first }
        requires second { ClonesAreEqual A.is_clone self.second }
        ensures one_frame { view_frame result.0 ≡ lent_frame one.entry }
        ensures two_frame { view_frame result.1 ≡ lent_frame two.entry }
        ensures first { OnOk result.2 (IsViewFilled D.lengths D.Strides.strides_of one.entry result.0 self.first) }
        ensures second { OnOk result.2 (IsViewFilled E.lengths E.Strides.strides_of two.entry result.1 self.second) }
    {
        let (lower, below) = Fill { value: self.first }.run(one);
        let (upper, above) = Fill { value: self.second }.run(two);
        (lower, upper, both(below, above))
    }
}

fn both(below: Result<(), NoMemory>, above: Result<(), NoMemory>) -> Result<(), NoMemory>
    ensures below { OnOk result (IsOk below) }
    ensures above { OnOk result (IsOk above) }
{
    match below {
        Ok(()) => above,
        Err(refused) => Err(refused),
    }
}

/// Fills the part of the array whose coordinate of `axis` is below `index` with `below`, and the rest with `above`.
/// Both parts are lent as mutable views at the same time.
pub fn fill_halves<A: Clone + Drop, S: DataMut<Elem = A>, D: Dimension>(
    array: &mut ArrayBase<S, D>,
    axis: Axis,
    index: usize,
    below: A,
    above: A,
) -> Result<(), NoMemory>
    requires axis { axis.0 < length (shape_of array.old) }
    requires within { index ≤ slice_index (shape_of array.old) axis.0 }
    requires below { ClonesAreEqual A.is_clone below }
    requires above { ClonesAreEqual A.is_clone above }
    ensures shape { shape_of array.new ≡ shape_of array.old }
    ensures below { OnOk result (IsFilledWith array.new (lower_part array.old axis.0 index) below) }
    ensures above { OnOk result (IsFilledWith array.new (upper_part array.old axis.0 index) above) }
{
    array.with_split_at(
        axis,
        index,
        FillBoth {
            first: below,
            second: above,
        },
    )
}
