//! Views of slices under strides that the caller chooses.
#![tactic(auto, using(nd_array_core::proofs::AxesOfDimensionTypes::known_axes))]

ghost use Rattle.std.specs.Prelude.{◌≡◌, ◌∷◌, [], pos, length, IfOk, IfErr};
ghost use Rattle.nd_array_core.specs.Prelude.{shape_of, ShowsTable, layout_strides, HasCheckedSize, Overflow};
ghost use Rattle.uses_nd_array_core.specs.TablesBuiltGrownAndReshaped.{row_repeated_of};

use nd_array_core::prelude::*;

/// Makes a view of one element with the stride `isize::MIN`, and inverts its axis. The opposite stride doesn't fit an
/// `isize`, so the stride becomes 0.
pub fn turned_at_the_least_stride<A>(items: &[A]) -> Result<ArrayView1<'_, A>, ShapeError>
    ensures shape { IfOk result (λ v. shape_of v ≡ 1 ∷ []) }
    ensures strides { IfOk result (λ v. layout_strides v ≡ pos 0 ∷ []) }
{
    match ArrayView1::from_shape(1.strides(&[isize::MIN]), items) {
        Ok(view) => {
            let mut turned = view;
            turned.invert_axis(Axis(0));
            Ok(turned)
        }
        Err(error) => Err(error),
    }
}

/// Returns a view of `rows` rows, each of which is the slice `items`, without a copy. Fails with `Overflow` if and only
/// if the product of the lengths other than 0 doesn't fit an `isize`.
pub fn row_repeated<A>(rows: usize, items: &[A]) -> Result<ArrayView2<'_, A>, ShapeError>
    ensures made { IfOk result (λ _. HasCheckedSize (rows ∷ length items.now ∷ [])) }
    ensures refused { IfErr result (λ e. e ≡ Overflow × ¬ HasCheckedSize (rows ∷ length items.now ∷ [])) }
    ensures table { IfOk result (λ v. ShowsTable v (row_repeated_of rows items.now)) }
{
    match ArrayView2::from_shape((rows, items.len()).strides(&[0, 1]), items) {
        Ok(view) => Ok(view),
        Err(error) => Err(error),
    }
}
