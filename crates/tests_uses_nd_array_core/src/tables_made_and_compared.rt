//! Tables of numbers. Each function here has fixed types: a test that calls them is cheaper to prove than one with
//! generic calls.

ghost use Rattle.std.specs.Prelude.{◌≡◌, ◌∷◌, []};
ghost use Rattle.nd_array_core.specs.ArrayMeaning.{shape_of};

use nd_array_core::Array2;
use nd_test_arrays::{made, shows};
use std::process::Abort;

/// Returns the table with these lengths and these numbers in row-major order.
pub fn made_table(
    rt: &(impl Abort + AllocGlobal),
    rows: usize,
    columns: usize,
    items: &[u64],
) -> Array2<u64>
    ensures { shape_of result ≡ rows ∷ columns ∷ [] }
{
    made(rt.alloc(), (rows, columns), items).expect(rt, "made")
}

/// Returns whether a table has these lengths and these numbers in row-major order.
pub fn is_shown(table: &Array2<u64>, lengths: [usize; 2], numbers: &[u64]) -> bool {
    shows(table, lengths, numbers)
}
