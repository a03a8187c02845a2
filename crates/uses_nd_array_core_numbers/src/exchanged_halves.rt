//! Exchanges the two halves of each row, through two mutable views at once.
#![tactic(auto, using(std::proofs::lemmas::Bool::Decides::nat_tests, nd_array_core::proofs::AxesOfDimensionTypes::known_axes))]

ghost use Rattle.std.specs.Prelude.{◌≡◌, ◌+◌, ◌<◌, ◌≤◌, ℕ, List, length, slice_index, OnOk};
ghost use Rattle.nd_array_core.specs.Prelude.{meaning_of, shape_of, element_at, table_of, columns_of, view_frame, lent_frame, CanBeSeen, KeepsFrame, EachCloneIsEqual};
ghost use Rattle.uses_nd_array_core_numbers.specs.SwappedHalvesAndNewTables.{LeftIsRight, RightIsLeft, LowerIsUpper, UpperIsLower, AreHalves, HaveExchangedElements, ShowsOther};

use nd_array_core::ViewMutRepr;
use nd_array_core::prelude::*;
use nd_array_core::scoped::{LentView, PairTask};
use std::alloc::Global;

/// Exchanges the elements of two arrays of the same shape and the same kind of storage.
fn swap_elements<A: Clone + Drop, S: DataMut<Elem = A>, D: Dimension>(
    alloc: Global,
    one: &mut ArrayBase<S, D>,
    other: &mut ArrayBase<S, D>,
) -> Result<(), NoMemory>
    requires same { shape_of one.old ≡ shape_of other.old }
    requires clones { EachCloneIsEqual A.is_clone }
    ensures frame { KeepsFrame S.frame one.old one.new }
    ensures other_frame { KeepsFrame S.frame other.old other.new }
    ensures one { OnOk result ((i : List ℕ) → element_at one.new i ≡ element_at other.old i) }
    ensures other { OnOk result ((i : List ℕ) → element_at other.new i ≡ element_at one.old i) }
{
    let kept = one.to_owned(alloc)?;
    other.assign_to(one)?;
    kept.assign_to(other)?;
    Ok(())
}

/// A task that exchanges the elements of two views of the same shape.
#[derive(Drop)]
struct Exchange {
    alloc: Global,
}

impl<A: Clone + Drop, D: Dimension> PairTask<A, D, D> for Exchange {
    type Answer = Result<(), NoMemory>;

    ghost pre = { λ task v0 v1. (v0.placed_shape ≡ v1.placed_shape) × EachCloneIsEqual A.is_clone };

    ghost post = { λ task v0 v1 w0 w1 answer. OnOk answer (HaveExchangedElements v0 v1 w0 w1) };

    fn run<'b>(
        self,
        one: LentView<'b, A, D, D::Strides>,
        two: LentView<'b, A, D, D::Strides>,
    ) -> (ViewMutRepr<'b, A>, ViewMutRepr<'b, A>, Result<(), NoMemory>)
        requires one { CanBeSeen D.lengths D.Strides.strides_of one }
        requires two { CanBeSeen D.lengths D.Strides.strides_of two }
        requires same { D.lengths one.dim ≡ D.lengths two.dim }
        requires clones { EachCloneIsEqual A.is_clone }
        ensures one_frame { view_frame result.0 ≡ lent_frame one.entry }
        ensures two_frame { view_frame result.1 ≡ lent_frame two.entry }
        ensures first { OnOk result.2 (ShowsOther D.lengths D.Strides.strides_of one.entry result.0 two.entry) }
        ensures second { OnOk result.2 (ShowsOther D.lengths D.Strides.strides_of two.entry result.1 one.entry) }
    {
        let mut lower = one.into_view();
        let mut upper = two.into_view();
        let done = swap_elements(self.alloc, &mut lower, &mut upper);
        (lower.into_storage(), upper.into_storage(), done)
    }
}

/// Exchanges the part of the array whose coordinate of `axis` is below `index` with the rest. Both parts must have the
/// same shape.
fn exchange_parts<A: Clone + Drop, S: DataMut<Elem = A>, D: Dimension>(
    alloc: Global,
    array: &mut ArrayBase<S, D>,
    axis: Axis,
    index: usize,
) -> Result<(), NoMemory>
    requires clones { EachCloneIsEqual A.is_clone }
    requires axis { axis.0 < length (shape_of array.old) }
    requires within { index ≤ slice_index (shape_of array.old) axis.0 }
    requires halves { AreHalves axis.0 index (meaning_of array.old) }
    ensures shape { shape_of array.new ≡ shape_of array.old }
    ensures lower { OnOk result (LowerIsUpper axis.0 index (meaning_of array.old) (meaning_of array.new)) }
    ensures upper { OnOk result (UpperIsLower axis.0 index (meaning_of array.old) (meaning_of array.new)) }
{
    array.with_split_at(axis, index, Exchange { alloc })
}

/// Exchanges the left half of each row with the right half. The number of columns must be twice `half`. Fails with
/// `NoMemory` if the allocation of a copy or a clone is refused.
pub fn swap_halves<A: Clone + Drop, S: DataMut<Elem = A>>(
    alloc: Global,
    image: &mut ArrayBase<S, Ix2>,
    half: usize,
) -> Result<(), NoMemory>
    requires clones { EachCloneIsEqual A.is_clone }
    requires even { columns_of image.old ≡ half + half }
    ensures shape { shape_of image.new ≡ shape_of image.old }
    ensures left { OnOk result (LeftIsRight half (table_of image.old) (table_of image.new)) }
    ensures right { OnOk result (RightIsLeft half (table_of image.old) (table_of image.new)) }
{
    exchange_parts(alloc, image, Axis(1), half)?;
    Ok(())
}
