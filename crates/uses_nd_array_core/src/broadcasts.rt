//! Broadcasts one element to a table.
#![tactic(auto, using(nd_array_core::proofs::AxesOfDimensionTypes::known_axes))]

ghost use Rattle.std.specs.Prelude.{◌↔◌, ◌≡◌, ◌∷◌, [], IsSome, IfSome};
ghost use Rattle.nd_array_core.specs.Prelude.{shape_of, element_of_1, ShowsTable, HasCheckedSize};
ghost use Rattle.uses_nd_array_core.specs.TablesBuiltGrownAndReshaped.{repeated};

use nd_array_core::prelude::*;

/// Returns a view of `rows` rows and `columns` columns in which each element is the only element of `one`. Returns
/// `None` if the product of the lengths other than 0 doesn't fit an `isize`.
pub fn table_of<'a, A>(
    one: &'a ArrayView1<'_, A>,
    rows: usize,
    columns: usize,
) -> Option<ArrayView2<'a, A>>
    requires { shape_of one.now ≡ 1 ∷ [] }
    ensures some { IsSome result ↔ HasCheckedSize (rows ∷ columns ∷ []) }
    ensures table { IfSome result (λ v. ShowsTable v (repeated rows columns (element_of_1 one.now 0))) }
{
    match one.broadcast((rows, columns)) {
        Some(table) => Some(table),
        None => None,
    }
}
