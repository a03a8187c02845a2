//! Joins images side by side, and one below another.
#![tactic(auto, using(std::proofs::lemmas::Bool::Decides::nat_tests, nd_array_core::proofs::AxesOfDimensionTypes::known_axes))]

ghost use Rattle.std.specs.Prelude.{◌≡◌, IfOk};
ghost use Rattle.nd_array_core.specs.Prelude.{rows_of, columns_of, table_of, ShowsTable, joined_right, joined_below, EachCloneIsEqual};
ghost use Rattle.uses_nd_iter_stacking_and_numeric.specs.ThreeImagesJoined.{three_joined};

use nd_array_core::prelude::*;
use nd_stacking::concatenate;
use std::alloc::Global;

/// Joins two images of the same number of rows side by side, by `concatenate` along `Axis(1)`.
pub fn two_joined<'a, A: Clone + Drop>(
    alloc: Global,
    left: ArrayView2<'a, A>,
    right: ArrayView2<'a, A>,
) -> Result<Array2<A>, ArrayError>
    requires clones { EachCloneIsEqual A.is_clone }
    requires rows { rows_of right ≡ rows_of left }
    ensures { IfOk result (λ image. ShowsTable image (joined_right (table_of left.entry) (table_of right.entry))) }
{
    concatenate(alloc, Axis(1), &[left, right])
}

/// Joins three images of the same number of rows side by side, by `concatenate` along `Axis(1)`.
pub fn three_joined<'a, A: Clone + Drop>(
    alloc: Global,
    left: ArrayView2<'a, A>,
    middle: ArrayView2<'a, A>,
    right: ArrayView2<'a, A>,
) -> Result<Array2<A>, ArrayError>
    requires clones { EachCloneIsEqual A.is_clone }
    requires middle { rows_of middle ≡ rows_of left }
    requires right { rows_of right ≡ rows_of left }
    ensures { IfOk result (λ image. ShowsTable image (three_joined left.entry middle.entry right.entry)) }
{
    concatenate(alloc, Axis(1), &[left, middle, right])
}

/// Joins two images of the same number of columns, `lower` below `upper`, by `concatenate` along `Axis(0)`.
pub fn two_below<'a, A: Clone + Drop>(
    alloc: Global,
    upper: ArrayView2<'a, A>,
    lower: ArrayView2<'a, A>,
) -> Result<Array2<A>, ArrayError>
    requires clones { EachCloneIsEqual A.is_clone }
    requires columns { columns_of lower ≡ columns_of upper }
    ensures { IfOk result (λ image. ShowsTable image (joined_below (table_of upper.entry) (table_of lower.entry))) }
{
    concatenate(alloc, Axis(0), &[upper, lower])
}
