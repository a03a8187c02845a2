//! Makes tables of rows that are given as slices.
#![tactic(auto, using(std::proofs::lemmas::Bool::Decides::nat_tests, std::proofs::lemmas::Option::gets, nd_array_core::proofs::AxesOfDimensionTypes::known_axes))]

ghost use Rattle.std.specs.Prelude.{◌≡◌, length, IfOk, OnOk};
ghost use Rattle.nd_array_core.specs.Prelude.{columns_of, table_of, HasMoreRows, HasCellsOf, HasRowsAndColumns, EachCloneIsEqual};
ghost use Rattle.uses_nd_array_core.specs.TablesBuiltGrownAndReshaped.{table_of_lists, GetsList, HaveWidth};

use crate::growing_tables::row_after;
use nd_array_core::prelude::*;
use std::alloc::Global;

/// Says why a table can't be made of some lists.
#[derive(Debug, Drop, thiserror::Error)]
pub enum RowsError {
    /// The list of this number has another length than a row.
    #[error("row {0} has another width")]
    Width(usize),
    /// The table can't be made, or a row can't be appended.
    #[error(transparent)]
    Array(#[from] ArrayError),
}

/// Appends `list` as the last row of `table`. The list must be as long as a row.
fn list_after<A: Clone + Drop>(table: &mut Array2<A>, list: &[A]) -> Result<(), ArrayError>
    requires clones { EachCloneIsEqual A.is_clone }
    requires long { length list.now ≡ columns_of table.old }
    ensures shape { OnOk result (HasMoreRows 1 table.old table.new) }
    ensures before { OnOk result (HasCellsOf table.new (table_of table.old)) }
    ensures row { OnOk result (GetsList list.now (table_of table.old) (table_of table.new)) }
{
    row_after(table, ArrayView1::from(list))
}

/// Makes a table of `columns` columns whose rows are the given lists. Fails with `Width` and the number of the list if
/// a list has another length, and with `Array` if there are too many columns or memory runs out.
pub fn table_of_rows<A: Clone + Drop>(
    alloc: Global,
    lists: &[&[A]],
    columns: usize,
) -> Result<Array2<A>, RowsError>
    requires clones { EachCloneIsEqual A.is_clone }
    ensures shape { IfOk result (λ table. HasRowsAndColumns table (length lists.now) columns) }
    ensures cells { IfOk result (λ table. HasCellsOf table (table_of_lists columns lists.now)) }
    ensures accepted { OnOk result (HaveWidth columns lists.now) }
{
    let mut table = match Array2::from_shape_vec((0, columns), Vec::new(alloc)) {
        Ok(table) => table,
        Err(refused) => return Err(RowsError::Array(ArrayError::Shape(refused))),
    };
    for nth in 0..lists.len() {
        if lists[nth].len() != columns {
            return Err(RowsError::Width(nth));
        }
        list_after(&mut table, lists[nth])?;
    }
    Ok(table)
}
