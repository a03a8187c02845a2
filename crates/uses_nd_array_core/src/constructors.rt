//! New arrays: an identity matrix, zeros, and cells that a closure returns. Each contract states the cell at each row
//! and column.
#![tactic(auto, using(nd_array_core::proofs::AxesOfDimensionTypes::known_axes))]

ghost use Rattle.std.specs.Prelude.{◌≤◌, ◌+◌, ◌*◌, pos, [], ◌∷◌, IfOk};
ghost use Rattle.nd_array_core.specs.Prelude.{element_at, element_of_2, table_of_cells, ShowsTable, HasRowsAndColumns, HasCheckedSize};
ghost use Rattle.uses_nd_array_core.specs.TablesBuiltGrownAndReshaped.{ShowsNumbers, identity_table, IsOneOnDiagonal};

use nd_array_core::prelude::*;
use std::alloc::Global;

/// Returns the identity matrix of `n` rows and `n` columns, which has 1 on the diagonal and 0 elsewhere.
#[tactic(auto, using(std::proofs::lemmas::Bool::Decides::nat_tests))]
pub fn identity(alloc: Global, n: usize) -> Result<Array2<u64>, NoMemory>
    requires { HasCheckedSize (n ∷ n ∷ []) }
    ensures cells { IfOk result (λ a. ShowsTable a (identity_table n)) }
    ensures diagonal { IfOk result (λ a. IsOneOnDiagonal n (element_of_2 a)) }
{
    Array::eye(alloc, n)
}

/// Returns a grid of zeros.
#[tactic(auto, using(std::proofs::lemmas::Bool::Decides::nat_tests))]
pub fn zero_grid(alloc: Global, rows: usize, columns: usize) -> Result<Array2<i64>, NoMemory>
    requires { HasCheckedSize (rows ∷ columns ∷ []) }
    ensures { IfOk result (λ a. ShowsTable a (table_of_cells rows columns (λ row column. pos 0))) }
{
    Array::zeros(alloc, (rows, columns))
}

/// Returns a table whose cell at each row and column is `row * 10 + column`, with at most ten rows and ten columns. Its
/// contract states the cell at each index.
fn table_by_index(alloc: Global, rows: usize, columns: usize) -> Result<Array2<usize>, NoMemory>
    requires rows { rows ≤ 10 }
    requires columns { columns ≤ 10 }
    requires checked { HasCheckedSize (rows ∷ columns ∷ []) }
    ensures shape { IfOk result (λ a. HasRowsAndColumns a rows columns) }
    ensures cells { IfOk result (λ a. ShowsNumbers rows columns (element_at a)) }
{
    Array::from_shape_fn(alloc, (rows, columns), |(row, column)| row * 10 + column)
}

/// Returns a table whose cell at each row and column is `row * 10 + column`, with at most ten rows and ten columns. For
/// example, the cell in row 3 and column 7 is 37.
#[tactic(auto, using(std::proofs::lemmas::Bool::Decides::nat_tests))]
pub fn numbered_table(alloc: Global, rows: usize, columns: usize) -> Result<Array2<usize>, NoMemory>
    requires rows { rows ≤ 10 }
    requires columns { columns ≤ 10 }
    requires checked { HasCheckedSize (rows ∷ columns ∷ []) }
    ensures { IfOk result (λ a. ShowsTable a (table_of_cells rows columns (λ row column. row * 10 + column))) }
{
    table_by_index(alloc, rows, columns)
}
