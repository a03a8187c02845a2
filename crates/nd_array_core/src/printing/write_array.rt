//! The text of an array over any storage.
#![tactic(auto)]

ghost use Rattle.std.specs.Prelude.{◌≡◌, ◌||◌, nat_lt, ◌<◌, length, false};
ghost use Rattle.std.specs.Fmt.{DisplaysOnOk, DisplaysStyledOnOk, formatter_spec, spec_alternate};
ghost use Rattle.nd_shape_and_slice.specs.ShapesAndIndexOrders.{size_of};
ghost use Rattle.nd_array_core.specs.ArrayMeaning.{meaning_of, shape_of};
ghost use Rattle.nd_array_core.specs.printing.ArrayTexts.{array_text};

use crate::base::array::{ArrayBase, ArrayView};
use crate::printing::element::WritesElement;
use crate::printing::entries::write_axes;
use crate::printing::separators::write_brackets;
use nd_elements::storage::Data;
use nd_shape_and_slice::{Dimension, IxDyn};
use std::fmt;

/// The number of elements from which on an array is shortened, unless all of it is asked for.
const MANY_ELEMENTS: usize = 500;

/// Writes a view: all of it if `asked` is true or it has few elements, and otherwise shortened.
fn write_view<P: WritesElement<A>, A, W: fmt::Write>(
    f: &mut fmt::Formatter<W>,
    view: &ArrayView<'_, A, IxDyn>,
    asked: bool,
) -> fmt::Result
    ensures writes { DisplaysOnOk W.write_str_gives f.old result (array_text P.text_of asked (meaning_of view.now)) f.new }
    ensures styled { DisplaysStyledOnOk W.write_str_gives f.old result (array_text (P.styled_text_of (formatter_spec f.old)) asked (meaning_of view.now)) f.new }
{
    let axes = view.ndim();
    let size = view.len();
    if size == 0 {
        return write_brackets(f, axes);
    }
    write_axes::<P, A, W>(f, view, asked | (size < MANY_ELEMENTS), 0)
}

/// Writes an array. If it has many elements it is shortened, except under `#`, which writes all entries.
pub fn write_array<P: WritesElement<S::Elem>, S: Data, D: Dimension, W: fmt::Write>(
    f: &mut fmt::Formatter<W>,
    array: &ArrayBase<S, D>,
) -> fmt::Result
    ensures writes { DisplaysOnOk W.write_str_gives f.old result (array_text P.text_of false (meaning_of array.now)) f.new }
    ensures styled { DisplaysStyledOnOk W.write_str_gives f.old result (array_text (P.styled_text_of (formatter_spec f.old)) (spec_alternate (formatter_spec f.old)) (meaning_of array.now)) f.new }
{
    let asked = f.alternate();
    let view = array.view().into_dyn();
    write_view::<P, S::Elem, W>(f, &view, asked)
}
