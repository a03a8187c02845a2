//! Functions that pass errors on to a program's user. `?` turns the error of a refused shape or of a failed allocation
//! into an `anyhow::Error`, and `.context(..)` adds at which step it occurred.
#![tactic(auto, using(nd_array_core::proofs::AxesOfDimensionTypes::known_axes))]

ghost use Rattle.std.specs.Prelude.{◌≡◌, ◌+◌, ℕ, IfOk, IfErr, codes};
ghost use Rattle.nd_array_core.specs.Prelude.{line_of, table_of, element_of_2, HasLength, HasRowsAndColumns, EachCloneIsEqual};
ghost use Rattle.uses_nd_array_core.specs.ArrayTextsAndErrorMessages.{HasEitherMessage};
ghost use Rattle.uses_nd_array_core.specs.TablesBuiltGrownAndReshaped.{HasRow};

use crate::copied_views::transposed_copy;
use anyhow::Context;
use nd_array_core::prelude::*;
use std::alloc::Global;

/// Makes a table of `rows` rows and `columns` columns from `cells`, which are given row by row, and appends `line` as a
/// last row.
pub fn table_with_line(
    rows: usize,
    columns: usize,
    cells: Vec<u64>,
    line: ArrayView1<'_, u64>,
) -> anyhow::Result<Array2<u64>>
    requires { HasLength line columns }
    ensures shape { IfOk result (λ table. HasRowsAndColumns table (rows + 1) columns) }
    ensures line { IfOk result (λ table. HasRow rows (line_of line.entry) (table_of table)) }
    ensures told { IfErr result (HasEitherMessage (codes "the table") (codes "the line after it")) }
{
    let mut table = Array2::from_shape_vec((rows, columns), cells).context("the table")?;
    table.push_row(line).context("the line after it")?;
    Ok(table)
}

/// Returns a transposed copy of `table`.
pub fn turned_copy<A: Clone + Drop, S: Data<Elem = A>>(
    alloc: Global,
    table: &ArrayBase<S, Ix2>,
) -> anyhow::Result<Array2<A>>
    requires { EachCloneIsEqual A.is_clone }
    ensures { IfOk result (λ copy. (i j : ℕ) → element_of_2 copy i j ≡ element_of_2 table.now j i) }
{
    let copy = transposed_copy(alloc, table)?;
    Ok(copy)
}
