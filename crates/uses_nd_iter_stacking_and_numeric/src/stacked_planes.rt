//! Stacks images of the same shape as the planes of an array of three axes.
#![tactic(auto, using(std::proofs::lemmas::Bool::Decides::nat_tests, nd_array_core::proofs::AxesOfDimensionTypes::known_axes))]

ghost use Rattle.std.specs.Prelude.{◌≡◌, ◌<◌, [], ◌∷◌, Some, IfOk};
ghost use Rattle.nd_array_core.specs.Prelude.{shape_of, element_of_2, rows_of, columns_of, table_of, page_of, SameTable, EachCloneIsEqual};

use nd_array_core::prelude::*;
use nd_stacking::stack;
use std::alloc::Global;

/// Stacks three images of the same shape. The first axis of the result selects the plane: 0 is `red`, 1 is `green` and
/// 2 is `blue`.
pub fn three_planes<'a, A: Clone + Drop>(
    alloc: Global,
    red: ArrayView2<'a, A>,
    green: ArrayView2<'a, A>,
    blue: ArrayView2<'a, A>,
) -> Result<Array3<A>, ArrayError>
    requires clones { EachCloneIsEqual A.is_clone }
    requires green { shape_of green ≡ shape_of red }
    requires blue { shape_of blue ≡ shape_of red }
    ensures shape { IfOk result (λ a. shape_of a ≡ 3 ∷ rows_of red.entry ∷ columns_of red.entry ∷ []) }
    ensures red { IfOk result (λ planes. SameTable (page_of 0 planes) (table_of red.entry)) }
    ensures green { IfOk result (λ planes. SameTable (page_of 1 planes) (table_of green.entry)) }
    ensures blue { IfOk result (λ planes. SameTable (page_of 2 planes) (table_of blue.entry)) }
{
    stack(alloc, Axis(0), &[red, green, blue])
}

/// Returns the elements of three images of the same shape at `row` and `column`, read from the array that
/// `three_planes` makes of them.
pub fn pixel_of<'a, A: Copy + Clone + Drop>(
    alloc: Global,
    red: ArrayView2<'a, A>,
    green: ArrayView2<'a, A>,
    blue: ArrayView2<'a, A>,
    row: usize,
    column: usize,
) -> Result<(A, A, A), ArrayError>
    requires clones { EachCloneIsEqual A.is_clone }
    requires green { shape_of green ≡ shape_of red }
    requires blue { shape_of blue ≡ shape_of red }
    requires row { row < rows_of red }
    requires column { column < columns_of red }
    ensures red { IfOk result (λ pixel. Some pixel.0 ≡ element_of_2 red.entry row column) }
    ensures green { IfOk result (λ pixel. Some pixel.1 ≡ element_of_2 green.entry row column) }
    ensures blue { IfOk result (λ pixel. Some pixel.2 ≡ element_of_2 blue.entry row column) }
{
    let planes = three_planes(alloc, red, green, blue)?;
    Ok((
        planes[(0, row, column)],
        planes[(1, row, column)],
        planes[(2, row, column)],
    ))
}
