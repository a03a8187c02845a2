//! Functions that make two calls in turn. Each takes every element type and storage that the calls take, and
//! none has a proof file.
#![tactic(auto, using(nd_array_core::proofs::AxesOfDimensionTypes::known_axes))]

ghost use Rattle.std.specs.Prelude.{◌≡◌, ◌<◌, ◌∷◌, [], Some, OnOk, IfOk, ◌↔◌, IsSome, IfSome, IsTrue};
ghost use Rattle.nd_array_core.specs.Prelude.{shape_of, element_at, columns_of, table_of, row_of, transposed, ShowsLine, in_box, ClonesAreEqual};

use nd_array_core::prelude::*;

/// Returns row `row` of the transposed image, which is column `row` of the image, or `None` if the image has no such
/// column.
pub fn transposed_row<S: Data + Drop>(
    image: ArrayBase<S, Ix2>,
    row: usize,
) -> Option<ArrayBase<S, Ix1>>
    ensures there { IsSome result ↔ (row < columns_of image) }
    ensures row { IfSome result (λ line. ShowsLine line (row_of row (transposed (table_of image)))) }
{
    let columns = image.ncols();
    if row < columns {
        Some(image.reversed_axes().index_axis_move(Axis(0), row))
    } else {
        None
    }
}

/// Fills an image, and then returns whether there is a pixel at `row` and `column`, which must lie within the shape.
/// The contract says that the result is `true`, and that the pixel is `colour`.
pub fn fill_then_get<A: Clone + Drop, S: DataMut<Elem = A>>(
    image: &mut ArrayBase<S, Ix2>,
    colour: A,
    row: usize,
    column: usize,
) -> Result<bool, NoMemory>
    requires clones { ClonesAreEqual A.is_clone colour }
    requires there { IsTrue (in_box (shape_of image.old) (row ∷ column ∷ [])) }
    ensures there { OnOk result (element_at image.new (row ∷ column ∷ []) ≡ Some colour) }
    ensures got { IfOk result (λ got. IsTrue got) }
{
    image.fill(colour)?;
    Ok(image.get([row, column]).is_some())
}
