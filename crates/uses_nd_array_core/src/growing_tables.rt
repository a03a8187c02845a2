//! Tables that grow by rows and columns, and a log that keeps its last rows.
#![tactic(auto, using(std::proofs::lemmas::Bool::Decides::nat_tests, nd_array_core::proofs::AxesOfDimensionTypes::known_axes))]

ghost use Rattle.std.specs.Prelude.{◌≡◌, ◌<◌, ◌∷◌, [], IfOk, OnOk, OnErr, length};
ghost use Rattle.nd_array_core.specs.Prelude.{meaning_of, shape_of, element_of_2, rows_of, columns_of, table_of, line_of, HasLength, HasRowsAndColumns, HasCellsOf, HasRowsBelow, HasMoreRows, ShowsTable, with_column_right, chosen_rows, EachCloneIsEqual, AreCoordinates, JoinsAllAlike, meanings_of};
ghost use Rattle.uses_nd_array_core.specs.TablesBuiltGrownAndReshaped.{GetsLine, MovesUp, HasLastRow, with_chosen, with_two_tables};
ghost use Rattle.std.specs.List.{AllByRecursion};

use nd_array_core::prelude::*;
use std::alloc::Global;

/// Appends `row` as the last row of `table`. If that fails, the elements stay as they were.
pub fn row_after<A: Clone + Drop>(
    table: &mut Array2<A>,
    row: ArrayView1<'_, A>,
) -> Result<(), ArrayError>
    requires clones { EachCloneIsEqual A.is_clone }
    requires length { HasLength row (columns_of table.old) }
    ensures shape { OnOk result (HasMoreRows 1 table.old table.new) }
    ensures before { OnOk result (HasCellsOf table.new (table_of table.old)) }
    ensures row { OnOk result (GetsLine (line_of row.entry) (table_of table.old) (table_of table.new)) }
    ensures kept { OnErr result (meaning_of table.new ≡ meaning_of table.old) }
{
    table.push_row(row)
}

/// Appends `line` as the last row of `log`, and removes the first row. The log must have a row, and keeps its number of
/// rows. If the append fails, the elements stay as they were.
pub fn push_out<A: Clone + Drop>(
    log: &mut Array2<A>,
    line: ArrayView1<'_, A>,
) -> Result<(), ArrayError>
    requires clones { EachCloneIsEqual A.is_clone }
    requires some { 0 < rows_of log.old }
    requires length { HasLength line (columns_of log.old) }
    ensures shape { HasRowsAndColumns log.new (rows_of log.old) (columns_of log.old) }
    ensures before { OnOk result (MovesUp (table_of log.old) (table_of log.new)) }
    ensures last { OnOk result (HasLastRow (line_of line.entry) (table_of log.old) (element_of_2 log.new)) }
    ensures kept { OnErr result (meaning_of log.new ≡ meaning_of log.old) }
{
    row_after(log, line)?;
    log.remove_index(Axis(0), 0);
    Ok(())
}

/// Returns a new table of the rows of `source` that have the given `numbers`, in the order of `numbers`. It reserves
/// capacity for all rows first, and then appends row by row.
pub fn rows_read<A: Clone + Drop, S: Data<Elem = A>>(
    alloc: Global,
    source: &ArrayBase<S, Ix2>,
    numbers: &[usize],
) -> Result<Array2<A>, ArrayError>
    requires clones { EachCloneIsEqual A.is_clone }
    requires numbers { AreCoordinates (shape_of source.now) 0 numbers.now }
    ensures shape { IfOk result (λ table. HasRowsAndColumns table (length numbers.now) (columns_of source.now)) }
    ensures rows { IfOk result (λ table. HasCellsOf table (chosen_rows numbers.now (table_of source.now))) }
{
    let columns = source.ncols();
    let mut table = match Array2::from_shape_vec((0, columns), Vec::new(alloc)) {
        Ok(table) => table,
        Err(refused) => return Err(ArrayError::Shape(refused)),
    };
    table.reserve_rows(numbers.len())?;
    for row in 0..numbers.len() {
        row_after(&mut table, source.row(numbers[row]))?;
    }
    Ok(table)
}

/// Appends a borrowed `row` as the last row of `table`.
pub fn row_lent_after<A: Clone + Drop>(
    table: &mut Array2<A>,
    row: &ArrayView1<'_, A>,
) -> Result<(), ArrayError>
    requires clones { EachCloneIsEqual A.is_clone }
    requires length { HasLength row.now (columns_of table.old) }
    ensures shape { OnOk result (HasMoreRows 1 table.old table.new) }
    ensures before { OnOk result (HasCellsOf table.new (table_of table.old)) }
    ensures row { OnOk result (GetsLine (line_of row.now) (table_of table.old) (table_of table.new)) }
{
    row_after(table, row.view())
}

/// Appends `rows`, in their order, after the rows of `table`.
#[tactic(auto, using(std::proofs::lemmas::Bool::Decides::nat_tests, std::proofs::lemmas::Option::gets, nd_array_core::proofs::AxesOfDimensionTypes::known_axes))]
pub fn rows_after<A: Clone + Drop>(
    table: &mut Array2<A>,
    rows: &[ArrayView1<'_, A>],
) -> Result<(), ArrayError>
    requires clones { EachCloneIsEqual A.is_clone }
    requires long { AllByRecursion (λ row. HasLength row (columns_of table.old)) rows.now }
    ensures shape { OnOk result (HasMoreRows (length rows.now) table.old table.new) }
    ensures before { OnOk result (HasCellsOf table.new (table_of table.old)) }
    ensures rows { OnOk result (HasRowsBelow table.old table.new rows.now) }
{
    for row in rows {
        row_lent_after(table, row)?;
    }
    Ok(())
}

/// Appends `column` as the last column of `table`. If that fails, the elements stay as they were.
pub fn column_after<A: Clone + Drop>(
    table: &mut Array2<A>,
    column: ArrayView1<'_, A>,
) -> Result<(), ArrayError>
    requires clones { EachCloneIsEqual A.is_clone }
    requires length { HasLength column (rows_of table.old) }
    ensures grown { OnOk result (ShowsTable table.new (with_column_right (line_of column.entry) (table_of table.old))) }
    ensures kept { OnErr result (meaning_of table.new ≡ meaning_of table.old) }
{
    table.push_column(column)
}

/// Appends the columns of `source` that have the given `numbers`, in the order of `numbers`, after the columns of
/// `table`.
pub fn columns_after<A: Clone + Drop, S: Data<Elem = A>>(
    table: &mut Array2<A>,
    source: &ArrayBase<S, Ix2>,
    numbers: &[usize],
) -> Result<(), ArrayError>
    requires clones { EachCloneIsEqual A.is_clone }
    requires rows { rows_of source.now ≡ rows_of table.old }
    requires numbers { AreCoordinates (shape_of source.now) 1 numbers.now }
    ensures { OnOk result (ShowsTable table.new (with_chosen numbers.now (table_of source.now) (table_of table.old))) }
{
    for k in 0..numbers.len() {
        column_after(table, source.column(numbers[k]))?;
    }
    Ok(())
}

/// Appends `first` and then `second` to `table` along the axis of the columns.
fn append_both<'a, A: Clone + Drop>(
    table: &mut Array2<A>,
    first: ArrayView2<'a, A>,
    second: ArrayView2<'a, A>,
) -> Result<(), (usize, ArrayError)>
    requires clones { EachCloneIsEqual A.is_clone }
    ensures { OnOk result (JoinsAllAlike 1 table.old (meanings_of (first.entry ∷ second.entry ∷ [])) table.new) }
{
    table.append_each(Axis(1), &[first, second])
}

/// Appends the columns of `first` and then those of `second` after the columns of `table`, in one call.
pub fn both_after<'a, A: Clone + Drop>(
    table: &mut Array2<A>,
    first: ArrayView2<'a, A>,
    second: ArrayView2<'a, A>,
) -> Result<(), (usize, ArrayError)>
    requires clones { EachCloneIsEqual A.is_clone }
    requires first { rows_of first ≡ rows_of table.old }
    requires second { rows_of second ≡ rows_of table.old }
    ensures { OnOk result (ShowsTable table.new (with_two_tables first.entry second.entry (table_of table.old))) }
{
    append_both(table, first, second)?;
    Ok(())
}
