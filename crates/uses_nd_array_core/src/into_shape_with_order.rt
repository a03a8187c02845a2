//! Reshapes a table to one axis.
#![tactic(auto, using(nd_array_core::proofs::AxesOfDimensionTypes::known_axes))]

ghost use Rattle.std.specs.Prelude.{◌*◌, IfOk};
ghost use Rattle.nd_array_core.specs.Prelude.{element_of_1, rows_of, columns_of, table_of, HasLength};
ghost use Rattle.uses_nd_array_core.specs.TablesBuiltGrownAndReshaped.{IsRowByRow};

use nd_array_core::laws::rows_joined;
use nd_array_core::prelude::*;

/// Reshapes a table to one axis: the elements of row 0, then those of row 1, and so on.
pub fn rows_in_line<A: Drop>(table: Array2<A>) -> Result<Array1<A>, ShapeError>
    ensures shape { IfOk result (λ line. HasLength line (rows_of table * columns_of table)) }
    ensures elements { IfOk result (λ line. IsRowByRow (table_of table) (element_of_1 line)) }
{
    let (rows, columns) = table.dim();
    rows_joined(&table);
    let line = table.into_shape_with_order(rows * columns)?;
    Ok(line)
}
